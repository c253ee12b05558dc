// The normal form of a cycle: the shortest list whose repetition it is, turned so that it comes first by gap, then size, pair by pair. Two cycles
// have the same one exactly when the run of one, begun at some report, is that of the other. Every check gives a cycle and its normal
// form the same number; what that is, is left to `cycle`.
#![tactic(auto)]

mod least;

ghost use Rattle.std.specs.Prelude.{◌≡◌, ◌*◌, ◌≤◌, ◌<◌, ◌%◌, length};
ghost use Rattle.spec.specs.Refusals.{numbered};
ghost use Rattle.pairs.specs.Pairs.{laid_over};
ghost use Rattle.normal.specs.Normal.{pair_of, repeats, period, row};
ghost use Rattle.normal.specs.Answers.{normalised, places_after};

use pairs::Pair;
use spec::refusal::Refusal;

// A cycle whose normal form is looked for: 1 to 512 pairs, with any numbers.
#[derive(Clone, Copy)]
struct Cycle<'a> {
    pairs: &'a [Pair],
    ghost some: { 1 ≤ length pairs.now },
    ghost few: { length pairs.now ≤ 512 },
}

impl<'a> Cycle<'a> {
    // The pair of report i, one of the first two rounds.
    fn pair(&self, i: usize) -> Pair
        requires { i < 2 * length self.now.pairs.now }
        ensures { result ≡ pair_of self.now.pairs.now i }
    {
        let count = self.pairs.len();
        // A division would be done for every report that is looked at.
        let j = if i < count { i } else { i - count };
        self.pairs[j]
    }

    // Whether the first n pairs, repeated, are the cycle.
    fn repeats(&self, n: usize) -> bool
        requires { (1 ≤ n) × (n ≤ length self.now.pairs.now) × (length self.now.pairs.now % n ≡ 0) }
        ensures { result ≡ repeats self.now.pairs.now n }
    {
        self.pairs[n..] == self.pairs[..self.pairs.len() - n]
    }

    // How many pairs the shortest list has. That divides the count, so only divisors are tried.
    fn period(&self) -> usize
        ensures { result ≡ period self.now.pairs.now }
    {
        let count = self.pairs.len();
        for n in 1..count / 2 + 1 {
            if count % n == 0 && self.repeats(n) {
                return n;
            }
        }
        count
    }

    // Stores the pairs of n reports, from report `start` on: those of its round, and those of the next. Two copies cost less than finding each
    // pair's place in the round.
    fn store(&self, start: usize, n: usize, places: &mut [Pair])
        requires { (start ≤ length self.now.pairs.now) × (n ≤ length self.now.pairs.now) × (n ≤ length places.now) }
        ensures { places.new ≡ laid_over (row self.now.pairs.now start n) places.old }
    {
        let front = n.min(self.pairs.len() - start);
        places[..front].copy_from_slice(&self.pairs[start..start + front]);
        places[front..n].copy_from_slice(&self.pairs[..n - front]);
    }
}

// Writes the normal form of a cycle into lent places, and tells how many pairs it has.
pub fn normal_form(pairs: &[Pair], places: &mut [Pair]) -> Result<u32, Refusal>
    ensures answer { numbered result ≡ normalised (length places.old) pairs.now }
    ensures places { places.new ≡ places_after pairs.now places.old }
{
    if !pairs::count_in(pairs.len()) {
        return Err(Refusal::Count);
    }
    let cycle = Cycle { pairs };
    let n = cycle.period();
    if places.len() < n {
        return Err(Refusal::NoRoom);
    }
    cycle.store(cycle.least_start(n), n, places);
    // It fits, as is proved: `try_from` would bring an error that never comes.
    Ok(n as u32)
}
