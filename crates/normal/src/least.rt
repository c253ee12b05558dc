// The turn of the shortest list that comes first, by one search over the pairs with two starts that only go forward.
ghost use Rattle.std.specs.Prelude.{◌≡◌, ◌*◌, ◌<◌, length};
ghost use Rattle.normal.specs.Normal.{pair_of, period, least_start};
ghost use Rattle.normal.specs.Search.{IsKey, stepped};

use crate::Cycle;

// Two starts with which the turn that comes first may begin, and how many pairs from both on agree. No other start before the second is left.
#[derive(Clone, Copy)]
struct Search {
    first: usize,
    second: usize,
    agreed: usize,
}

impl Search {
    // One step on, given the keys of the pairs where the agreement ends.
    fn step(self, x: u32, y: u32) -> Search
        requires { (self.first < 512) × (self.second < 512) × (self.agreed < 512) }
        ensures { result ≡ stepped self x y }
    {
        if x == y {
            return Search {
                agreed: self.agreed + 1,
                ..self
            };
        }
        if x < y {
            return Search {
                second: self.second + self.agreed + 1,
                agreed: 0,
                ..self
            };
        }
        let next = self.second.max(self.first + self.agreed + 1);
        Search {
            first: next,
            second: next + 1,
            agreed: 0,
        }
    }
}

impl<'a> Cycle<'a> {
    // The pair of report i, one of the first two rounds, as one number: gap before size.
    fn key(&self, i: usize) -> u32
        requires { i < 2 * length self.now.pairs.now }
        ensures { IsKey (pair_of self.now.pairs.now i) result }
    {
        let pair = self.pair(i);
        u32::from(pair.gap) * 65536 + u32::from(pair.size)
    }

    // The report with which the turn begins that comes first, given the length of the shortest list.
    pub(crate) fn least_start(&self, n: usize) -> usize
        requires { n ≡ period self.now.pairs.now }
        ensures { result ≡ least_start self.now.pairs.now }
    {
        let mut s = Search {
            first: 0,
            second: 1,
            agreed: 0,
        };
        while s.second < n && s.agreed < n {
            s = s.step(self.key(s.first + s.agreed), self.key(s.second + s.agreed));
        }
        s.first
    }
}
