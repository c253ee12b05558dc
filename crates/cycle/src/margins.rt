// How close a cycle comes to its limits (a request beyond document 02): the most records that any R minutes hold, and the least that any P minutes
// hold, each with the lowest number of a report at which such minutes are found. One pass over the pairs for each rate, as the check's.
ghost use Rattle.std.specs.Prelude.{◌≡◌, ◌≤◌, Some};
ghost use Rattle.spec.specs.Refusals.{numbered};
ghost use Rattle.pairs.specs.Pairs.{pairs_of};
ghost use Rattle.cycle.specs.Margins.{margin, margin_of, margins_of};
ghost use Rattle.cycle.specs.Windows.{pairs_in, SomeMinutes, walked, farther};

use crate::stretches::Side;
use crate::windows::{Cycle, EMPTY, Measure};
use spec::refusal::Refusal;
use spec::{Rate, Spec};

// What the fullest or the thinnest stretch holds, and the report with which it begins, or just after which.
#[derive(Clone, Copy, Debug, PartialEq, Eq)]
pub struct Margin {
    pub records: u64,
    pub report: u32,
}

// Those of R and of P minutes. A rate that is absent has none.
#[derive(Clone, Copy, Debug, PartialEq, Eq)]
pub struct Margins {
    pub fullest: Option<Margin>,
    pub thinnest: Option<Margin>,
}

// The new one, where it is farther out: of equals the one before stays.
fn farther(side: Side, best: Option<Margin>, new: Margin) -> Option<Margin>
    ensures { result ≡ farther side best new }
{
    match best {
        Some(b) if side.within(new.records, b.records) => best,
        _ => Some(new),
    }
}

impl<'a> Cycle<'a> {
    // The farthest of the stretches of so many minutes.
    fn margin(&self, side: Side, minutes: u16) -> Option<Margin>
        requires { 1 ≤ walked side minutes }
        ensures { result ≡ Some (margin side minutes (pairs_in self.now.by self.now.pairs.now)) }
    {
        let walk = self.walk(side, minutes);
        let mut best = None;
        let mut w = EMPTY;
        while w.first < self.pairs.len() {
            let look = self.look(walk, w);
            let new = Margin {
                records: look.records,
                // It fits, as is proved: `try_from` would bring an error that never comes.
                report: w.first as u32,
            };
            best = farther(side, best, new);
            w = look.next;
        }
        best
    }

    // The same for a rate that may be absent.
    fn margin_of(&self, side: Side, rate: Option<Rate>) -> Option<Margin>
        requires { SomeMinutes side rate }
        ensures { result ≡ margin_of side rate (pairs_in self.now.by self.now.pairs.now) }
    {
        let x = rate?;
        self.margin(side, x.minutes)
    }
}

// The margins of a cycle that is held flat, or refusal 3, 4, 24, 12, 13 or 14.
pub fn margins_of(spec: Spec, words: &[u16]) -> Result<Margins, Refusal>
    ensures { numbered result ≡ margins_of spec (pairs_of words.now) }
{
    spec.check()?;
    let pairs = words.as_chunks::<2>().0;
    crate::check_shape(spec, pairs)?;
    let cycle = Cycle {
        pairs,
        by: Measure::Minutes,
    };
    Ok(Margins {
        fullest: cycle.margin_of(Side::Fullest, spec.supply),
        thinnest: cycle.margin_of(Side::Thinnest, spec.demand),
    })
}
