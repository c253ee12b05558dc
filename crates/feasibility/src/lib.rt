// The test (document 01, "The test"): the family's schedule with the best supply figure over all k, and whether it passes. Refusals 3, 4,
// 24, 25, 5, 7 and 9.
#![tactic(auto)]

ghost use Rattle.std.specs.Prelude.{◌≡◌, ◌≤◌, true};
ghost use Rattle.families.specs.Families.{exists, schedule_with};
ghost use Rattle.consistency.specs.Consistency.{told};
ghost use Rattle.feasibility.specs.Test.{family_of, first_count, last_count, is_better, better_of, taken, figure_passes, test_of};

use consistency::Unfit;
use families::{Family, Planning, Scheduled};
use spec::refusal::Refusal;
use spec::{Rates, Spec};

// What the two families differ in is a formula each time, side by side in a `match` as document 01 has them: a closure or a trait for each
// would take them apart.

// The family of which the test takes a schedule: minimum demand where R ≥ P.
#[tactic(auto, unfolding(crate::specs::Test::family_of))]
fn family_of(q: Rates) -> Family
    ensures { result ≡ family_of q }
{
    if q.p <= q.r {
        Family::MinimumDemand
    } else {
        Family::MaximumSupply
    }
}

// Whether the figure v is better than w.
#[tactic(auto, unfolding(crate::specs::Test::is_better))]
fn is_better(f: Family, v: u32, w: u32) -> bool
    ensures { result ≡ is_better f v w }
{
    match f {
        Family::MinimumDemand => v < w,
        Family::MaximumSupply => w < v,
    }
}

// The schedule with the better figure; of equals the one taken so far.
#[tactic(auto, unfolding(crate::specs::Test::better_of))]
fn better_of(f: Family, best: Scheduled, next: Scheduled) -> Scheduled
    ensures { result ≡ better_of f best next }
{
    if is_better(f, next.supply, best.supply) {
        next
    } else {
        best
    }
}

// The first and the last number of reports with which the family has a schedule.
#[tactic(auto, unfolding(crate::specs::Test::first_count))]
fn first_count(planning: Planning) -> u16
    ensures { result ≡ first_count planning.family planning.spec planning.rates }
{
    let s = planning.spec;
    let q = planning.rates;
    match planning.family {
        Family::MinimumDemand => q.l.div_ceil(s.dmax),
        Family::MaximumSupply => q.r.div_ceil(s.smax),
    }
}

#[tactic(auto, unfolding(crate::specs::Test::last_count))]
fn last_count(planning: Planning) -> u16
    ensures { result ≡ last_count planning.family planning.spec planning.rates }
{
    let s = planning.spec;
    let q = planning.rates;
    match planning.family {
        Family::MinimumDemand => q.p / s.smin,
        Family::MaximumSupply => q.b / s.dmin,
    }
}

// The schedule with k reports, where there is one.
fn schedule_with(planning: Planning, k: u16) -> Scheduled
    requires { exists planning.family planning.spec planning.rates k ≡ true }
    ensures { result ≡ schedule_with planning.family planning.spec planning.rates k }
{
    planning.schedule(k)
}

// The schedule with the best figure over all k, the smaller k of equals. Each k with a schedule is looked at once, from the first on: of a
// consistent specification that has one.
fn best_schedule(planning: Planning) -> Scheduled
    requires { let p = planning in first_count p.family p.spec p.rates ≤ last_count p.family p.spec p.rates }
    ensures { result ≡ taken planning.family planning.spec planning.rates }
{
    let first = first_count(planning);
    let mut best = schedule_with(planning, first);
    for k in first + 1..=last_count(planning) {
        best = better_of(planning.family, best, schedule_with(planning, k));
    }
    best
}

#[tactic(auto, unfolding(crate::specs::Test::figure_passes))]
fn figure_passes(f: Family, q: Rates, v: u32) -> bool
    ensures { result ≡ figure_passes f q v }
{
    match f {
        Family::MinimumDemand => v <= u32::from(q.b),
        Family::MaximumSupply => u32::from(q.l) <= v,
    }
}

// The schedule that the test passes, with its supply figure; else the first condition that fails, or another refusal.
pub fn test(spec: Spec) -> Result<Scheduled, Unfit>
    ensures { told result ≡ test_of spec }
{
    let rates = spec.started()?;
    consistency::consistency_of(spec)?;
    let planning = Planning {
        family: family_of(rates),
        spec,
        rates,
    };
    let best = best_schedule(planning);
    if !figure_passes(planning.family, rates, best.supply) {
        return Err(Unfit::Refused(Refusal::NotPassed));
    }
    Ok(best)
}
