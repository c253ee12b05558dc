// The stretches that a check judges, and of which the margins are told: one that starts with each report of one round, or one minute after it, in
// one pass over the pairs.
ghost use Rattle.std.specs.Prelude.{◌≡◌, ◌≤◌, ◌<◌, length};
ghost use Rattle.cycle.specs.Check.{supply_kept, demand_met};
ghost use Rattle.cycle.specs.declared.stretches.Side.TheVariants.{Fullest};
ghost use Rattle.cycle.specs.Windows.{pairs_in, run_in, SomeMinutes, walked, seen, within, Spans, IsWalk, Looks, starts_pass};

use crate::windows::{Cycle, EMPTY, Parts, Window};
use spec::Rate;

// Which stretches are looked at. With a closure in its place each contract would have to say what that answers.
#[derive(Clone, Copy)]
pub(crate) enum Side {
    Fullest,
    Thinnest,
}

impl Side {
    // How many minutes a window has from a report on. The fullest stretches start with a report, the thinnest one minute after it: one minute more,
    // less the report.
    pub(crate) fn walked(self, minutes: u16) -> u64
        ensures { result ≡ walked self minutes }
    {
        match self {
            Side::Fullest => u64::from(minutes),
            Side::Thinnest => u64::from(minutes) + 1,
        }
    }

    // What the stretch holds, of the records in those minutes.
    pub(crate) fn seen(self, records: u64, size: u16) -> u64
        requires { size ≤ records }
        ensures { result ≡ seen self records size }
    {
        match self {
            Side::Fullest => records,
            Side::Thinnest => records - u64::from(size),
        }
    }

    // Whether so many records go no farther than others: to the full side, or to the thin one.
    pub(crate) fn within(self, records: u64, limit: u64) -> bool
        ensures { result ≡ within self records limit }
    {
        match self {
            Side::Fullest => records <= limit,
            Side::Thinnest => limit <= records,
        }
    }
}

// A walk over the stretches of so many minutes, one to each report of a round: these minutes in parts.
#[derive(Clone, Copy)]
pub(crate) struct Walk {
    side: Side,
    minutes: u16,
    parts: Parts,
}

// What the stretch at a window's first report holds, and the window that starts with the next report.
#[derive(Clone, Copy)]
pub(crate) struct Look {
    pub(crate) records: u64,
    pub(crate) next: Window,
}

impl<'a> Cycle<'a> {
    // The walk over the stretches of a side, whose minutes are divided into parts once, and not at each report.
    pub(crate) fn walk(&self, side: Side, minutes: u16) -> Walk
        requires { 1 ≤ walked side minutes }
        ensures { (result.side ≡ side) × (result.minutes ≡ minutes) × IsWalk (pairs_in self.now.by self.now.pairs.now) result }
    {
        Walk {
            side,
            minutes,
            parts: self.parts(side.walked(minutes)),
        }
    }

    // One step of a walk. The window counts its first report itself: a `for` would count beside it.
    pub(crate) fn look(&self, walk: Walk, window: Window) -> Look
        requires { (window.first < length self.now.pairs.now) × IsWalk (pairs_in self.now.by self.now.pairs.now) walk × Spans (run_in self.now.by self.now.pairs.now) walk.parts.rest window }
        ensures { Looks (run_in self.now.by self.now.pairs.now) walk window.first result }
    {
        let w = self.filled(window, walk.parts.rest);
        let x = self.report(w.first);
        Look {
            records: walk.side.seen(walk.parts.records + w.records, x.size),
            next: w.without(x),
        }
    }

    // Whether the stretches of a rate's minutes are within its limit.
    fn starts_pass(&self, side: Side, rate: Rate) -> bool
        requires { 1 ≤ walked side rate.minutes }
        ensures { result ≡ starts_pass side rate (pairs_in self.now.by self.now.pairs.now) }
    {
        let walk = self.walk(side, rate.minutes);
        let mut w = EMPTY;
        while w.first < self.pairs.len() {
            let look = self.look(walk, w);
            if !side.within(look.records, u64::from(rate.records)) {
                return false;
            }
            w = look.next;
        }
        true
    }

    // A `match`: of a closure that calls a method of `self` the prover doesn't learn what it answers.
    #[tactic(auto, using(crate::proofs::Starts::supply_absent, crate::proofs::Starts::supply_present))]
    pub(crate) fn keeps_supply(&self, rate: Option<Rate>) -> bool
        requires { SomeMinutes Fullest rate }
        ensures { result ≡ supply_kept rate (pairs_in self.now.by self.now.pairs.now) }
    {
        match rate {
            Some(x) => self.starts_pass(Side::Fullest, x),
            None => true,
        }
    }

    #[tactic(auto, using(crate::proofs::Starts::demand_absent, crate::proofs::Starts::demand_present))]
    pub(crate) fn meets_demand(&self, rate: Option<Rate>) -> bool
        ensures { result ≡ demand_met rate (pairs_in self.now.by self.now.pairs.now) }
    {
        match rate {
            Some(x) => self.starts_pass(Side::Thinnest, x),
            None => true,
        }
    }
}
