// Checking a cycle: the first reason, if any, for which documents 01 and 02 refuse it (3, 4, 24, 12 to 16). The check lays its stretches over
// the endless repetition with two ends that only go forward, and counts whole rounds by a product, so its work is linear in the
// number of pairs however short a round is (`stretches`). No pair is written anywhere: the stretches lie on the one round that is lent.
// A cycle whose reports may be late (26 after 24) gets the same check, against the specification that its planned minutes must meet (the
// crate `lateness`). With a 15 or a 16 of the check on time goes the shortest stretch that shows it (`shortest`). How close a cycle comes is told by
// `margins`. What pairs are is the crate `pairs`', their file another's; the C calls over a lent list of pairs, which unpack it and call
// `check_late`, `shortest_stretch` or `margins_of`, are exported by `maxeltu`.
#![tactic(auto)]

pub mod margins;
mod shortest;
mod stretches;
mod windows;

ghost use Rattle.std.specs.Prelude.{◌≡◌};
ghost use Rattle.spec.specs.File.{read_spec};
ghost use Rattle.spec.specs.Refusals.{answer_number};
ghost use Rattle.pairs.specs.Pairs.{pairs_of};
ghost use Rattle.cycle.specs.Check.{gaps_allowed, sizes_allowed, shape_number, cycle_number, check_number};
ghost use Rattle.cycle.specs.LateCheck.{late_number, late_file_number};
ghost use Rattle.cycle.specs.Shortest.{shortest_stretch};
ghost use Rattle.cycle.specs.Windows.{pairs_in, Judges};
ghost use Rattle.cycle.specs.declared.windows.Measure.TheVariants.{Minutes};

use spec::Spec;
use spec::refusal::Refusal;
use windows::{Cycle, Measure};

// Whether the gap of every pair is in a range of gaps, and whether its size is in that of sizes.
fn gaps_allowed(spec: Spec, pairs: &[[u16; 2]]) -> bool
    ensures { result ≡ gaps_allowed spec (pairs_in Minutes pairs.now) }
{
    pairs.iter().all(|&[gap, _]| spec.allows_gap(gap))
}

fn sizes_allowed(spec: Spec, pairs: &[[u16; 2]]) -> bool
    ensures { result ≡ sizes_allowed spec (pairs_in Minutes pairs.now) }
{
    pairs.iter().all(|&[_, size]| spec.allows_size(size))
}

// The refusal 12 to 14, if any: where there is none, stretches may be laid over the pairs.
#[tactic(auto, using(crate::proofs::Chunks::length_pairs_in), unfolding(crate::specs::Check::shape_number, crate::specs::Check::first_refusal))]
pub(crate) fn check_shape(spec: Spec, pairs: &[[u16; 2]]) -> Result<(), Refusal>
    ensures { answer_number result ≡ shape_number spec (pairs_in Minutes pairs.now) }
{
    if !pairs::count_in(pairs.len()) {
        return Err(Refusal::Count);
    }
    if !gaps_allowed(spec, pairs) {
        return Err(Refusal::Gap);
    }
    if !sizes_allowed(spec, pairs) {
        return Err(Refusal::Size);
    }
    Ok(())
}

// The refusal 12 to 16, if any, by rules that ask for no gap of 0 and no stretch of 0 minutes.
fn check_pairs(spec: Spec, pairs: &[[u16; 2]]) -> Result<(), Refusal>
    requires { Judges spec }
    ensures { answer_number result ≡ cycle_number spec (pairs_in Minutes pairs.now) }
{
    check_shape(spec, pairs)?;
    let cycle = Cycle {
        pairs,
        by: Measure::Minutes,
    };
    if !cycle.keeps_supply(spec.supply) {
        return Err(Refusal::TooFull);
    }
    if !cycle.meets_demand(spec.demand) {
        return Err(Refusal::TooThin);
    }
    Ok(())
}

// Why a cycle that is held flat, gap, size, gap, size, .., is refused, if it is.
pub fn check(spec: Spec, words: &[u16]) -> Result<(), Refusal>
    ensures { answer_number result ≡ check_number spec (pairs_of words.now) }
{
    spec.check()?;
    check_pairs(spec, words.as_chunks::<2>().0)
}

// The same where each report may arrive up to `lateness` minutes late.
pub fn check_late(spec: Spec, words: &[u16], lateness: u32) -> Result<(), Refusal>
    ensures { answer_number result ≡ late_number spec lateness (pairs_of words.now) }
{
    let planned = lateness::planned_for(spec, lateness)?;
    check_pairs(planned, words.as_chunks::<2>().0)
}

// The same against a specification's file: only an accepted specification goes on. With no minute of lateness it is the check on time.
pub fn check_late_file(spec_bytes: &[u8], words: &[u16], lateness: u32) -> Result<(), Refusal>
    ensures { answer_number result ≡ late_file_number (read_spec spec_bytes.now) lateness (pairs_of words.now) }
{
    let spec = spec::read_spec(spec_bytes)?;
    check_late(spec, words, lateness)
}

// Reports in a row of the endless run.
#[derive(Clone, Copy, Debug, PartialEq, Eq)]
pub struct Row {
    // The number of the first of them, for 16 that of the report just before them.
    pub first: u32,
    // How many they are.
    pub reports: u32,
}

// A check's answer and, where it is 15 or 16, the shortest stretch that shows it.
#[derive(Clone, Copy, Debug, PartialEq, Eq)]
pub struct Judged {
    pub answer: Result<(), Refusal>,
    pub stretch: Option<Row>,
}

// The check of a cycle that is held flat, and what to send back with its refusal.
pub fn shortest_stretch(spec: Spec, words: &[u16]) -> Judged
    ensures answer { answer_number result.answer ≡ check_number spec (pairs_of words.now) }
    ensures stretch { result.stretch ≡ shortest_stretch spec (pairs_of words.now) }
{
    let answer = check(spec, words);
    let pairs = words.as_chunks::<2>().0;
    let stretch = match answer {
        Ok(_) => None,
        Err(refusal) => match refusal {
            Refusal::TooFull => shortest::full_row(spec.supply, pairs),
            Refusal::TooThin => shortest::thin_row(spec.demand, pairs),
            _ => None,
        },
    };
    Judged { answer, stretch }
}
