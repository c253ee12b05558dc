// A window of neighbouring reports that moves over the endless repetition of a cycle. It goes by the minutes of its reports, or by their records:
// a cycle with the two numbers of each pair exchanged is a cycle too.
ghost use Rattle.std.specs.Prelude.{◌≡◌, ◌*◌, ◌<◌, ◌≤◌, length};
ghost use Rattle.cycle.specs.Cycles.{round};
ghost use Rattle.cycle.specs.Windows.{place_of, pairs_in, run_in, Walkable, IsReport, IsRound, IsParts, Spans, with_report, without_report};

use pairs::Pair;

// One round of a cycle. Its minutes need more than 16 bits.
#[derive(Clone, Copy)]
struct Round {
    minutes: u64,
    records: u64,
}

// A number of minutes: its whole rounds, the records that they hold, and the minutes left over.
#[derive(Clone, Copy)]
pub(crate) struct Parts {
    pub(crate) rounds: u64,
    pub(crate) records: u64,
    pub(crate) rest: u64,
}

// The reports from number `first` up to, not including, number `past`: the minutes from the one to the other, and the records held.
#[derive(Clone, Copy)]
pub(crate) struct Window {
    pub(crate) first: usize,
    pub(crate) past: usize,
    pub(crate) minutes: u64,
    pub(crate) records: u64,
}

// The window with which each walk begins, which holds no report.
pub(crate) const EMPTY: Window = Window {
    first: 0,
    past: 0,
    minutes: 0,
    records: 0,
};

impl Window {
    // One report more at the end.
    fn with(self, x: Pair) -> Window
        requires { (self.past < 1024) × (self.minutes ≤ 65535 * self.past) × (self.records ≤ 65535 * self.past) }
        ensures { result ≡ with_report self x }
    {
        Window {
            first: self.first,
            past: self.past + 1,
            minutes: self.minutes + u64::from(x.gap),
            records: self.records + u64::from(x.size),
        }
    }

    // The first report left out.
    pub(crate) fn without(self, x: Pair) -> Window
        requires { (self.first < 1024) × (x.gap ≤ self.minutes) × (x.size ≤ self.records) }
        ensures { result ≡ without_report self x }
    {
        Window {
            first: self.first + 1,
            past: self.past,
            minutes: self.minutes - u64::from(x.gap),
            records: self.records - u64::from(x.size),
        }
    }
}

// What a window goes by. Of a cycle that is seen by its records the sizes are the gaps, and the gaps the sizes.
#[derive(Clone, Copy)]
pub(crate) enum Measure {
    Minutes,
    Records,
}

impl Measure {
    // Where in a pair the number stands that it goes by.
    fn place(self) -> usize
        ensures { (result ≡ place_of self) × (result < 2) }
    {
        match self {
            Measure::Minutes => 0,
            Measure::Records => 1,
        }
    }
}

// A cycle over which windows may be laid: 1 to 512 pairs, gap and size each, and what a window goes by is nowhere 0.
#[derive(Clone, Copy)]
pub(crate) struct Cycle<'a> {
    pub(crate) pairs: &'a [[u16; 2]],
    pub(crate) by: Measure,
    ghost walkable: { Walkable (pairs_in by pairs.now) },
}

impl<'a> Cycle<'a> {
    // Report i of the endless repetition, one of its first two rounds: its size, and the gap to the next.
    pub(crate) fn report(&self, i: usize) -> Pair
        requires { i < 2 * length self.now.pairs.now }
        ensures { IsReport (run_in self.now.by self.now.pairs.now) i result }
    {
        let count = self.pairs.len();
        // A division would be done for every report that a window takes in.
        let j = if i < count { i } else { i - count };
        let at = self.by.place();
        Pair {
            gap: self.pairs[j][at],
            size: self.pairs[j][1 - at],
        }
    }

    // The minutes and the records of one round.
    fn round(&self) -> Round
        ensures { IsRound (pairs_in self.now.by self.now.pairs.now) result }
    {
        let at = self.by.place();
        let mut minutes = 0;
        let mut records = 0;
        for pair in self.pairs {
            minutes += u64::from(pair[at]);
            records += u64::from(pair[1 - at]);
        }
        Round { minutes, records }
    }

    // The window with its end moved on to the first report that is v minutes or more after report `first`.
    pub(crate) fn filled(&self, window: Window, v: u64) -> Window
        requires { (window.first < length self.now.pairs.now) × (v ≤ round (pairs_in self.now.by self.now.pairs.now)) × Spans (run_in self.now.by self.now.pairs.now) v window }
        ensures { (result.first ≡ window.first) × (v ≤ result.minutes) × Spans (run_in self.now.by self.now.pairs.now) v result }
    {
        let mut w = window;
        // How many reports it takes in their gaps say, one by one.
        while w.minutes < v {
            w = w.with(self.report(w.past));
        }
        w
    }

    // The whole rounds in so many minutes, all but the last of them, so that 1 minute or more is left over.
    pub(crate) fn parts(&self, minutes: u64) -> Parts
        requires { (1 ≤ minutes) × (minutes ≤ 65536) }
        ensures { IsParts (pairs_in self.now.by self.now.pairs.now) minutes result }
    {
        let round = self.round();
        let rounds = (minutes - 1) / round.minutes;
        Parts {
            rounds,
            records: rounds * round.records,
            rest: (minutes - 1) % round.minutes + 1,
        }
    }
}
