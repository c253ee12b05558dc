// The box plan: the longest gap at which a cycle of 1 to 512 pairs with that one gap throughout passes the check of `cycle`, with reports that may
// be late; there the fewest pairs, and of those the fewest records. Refusals 26 and 30, after a specification's own. Here are the arithmetic
// that says how many pairs will do at a gap, and the search for gap and pairs over what planned minutes must meet (`lateness`). The sizes
// themselves are crate `plan`'s, and the jump over gaps that need not be tried is `even`'s.
#![tactic(auto)]

ghost use Rattle.std.specs.Prelude.{◌≡◌, ◌≤◌, IfSome};
ghost use Rattle.std.specs.Int.NonZero.{non_zero_u16_get};
ghost use Rattle.spec.specs.Refusals.{numbered};
ghost use Rattle.numbers.specs.Numbers.{first};
ghost use Rattle.even.specs.Search.{largest_in, largest_of};
ghost use Rattle.boxplan.specs.BoxPlan.{most_at, fewest_records, supply_holds, pairs_fit, can_load, box_plan};
ghost use Rattle.boxplan.specs.Search.{pairs_number, plan_if, plan_found};

use plan::{Kind, Plan};
use spec::refusal::Refusal;
use spec::{Range, Rate, Spec};
use std::num::NonZeroU16;

const MOST_PAIRS: u16 = pairs::MOST_PAIRS as u16;

// The most reports in any R minutes; 0 where supply is absent.
#[tactic(auto, unfolding(crate::specs::BoxPlan::most_at), using(numbers::proofs::Ceilings::div_ceil_is))]
fn most_at(supply: Option<Rate>, s: NonZeroU16) -> u16
    ensures { result ≡ most_at supply (non_zero_u16_get s) }
{
    supply.map_or(0, |rate| rate.minutes.div_ceil(s.get()))
}

// The fewest records of q pairs of which every m in a row meet the demand.
#[tactic(auto, unfolding(crate::specs::BoxPlan::fewest_records), using(numbers::proofs::Ceilings::div_ceil_is))]
fn fewest_records(demand: Option<Rate>, dmin: u16, m: NonZeroU16, q: u16) -> u32
    ensures { result ≡ fewest_records demand dmin (non_zero_u16_get m) q }
{
    let least = u32::from(q) * u32::from(dmin);
    demand.map_or(least, |rate| {
        least.max((u32::from(q) * u32::from(rate.records)).div_ceil(u32::from(m.get())))
    })
}

// The most reports in R minutes hold at most B, where the q pairs hold the total.
#[tactic(auto, unfolding(crate::specs::BoxPlan::supply_holds))]
fn supply_holds(supply: Option<Rate>, n: u16, q: u16, total: u32) -> bool
    ensures { result ≡ supply_holds supply n q total }
{
    supply.is_none_or(|rate| {
        u64::from(n) * u64::from(total) <= u64::from(q) * u64::from(rate.records)
    })
}

// Whether q pairs will do where any P minutes have m reports or more and any R minutes n or fewer.
#[tactic(auto, unfolding(crate::specs::BoxPlan::pairs_fit))]
fn pairs_fit(spec: Spec, m: NonZeroU16, n: u16, q: u16) -> bool
    ensures { result ≡ pairs_fit spec (non_zero_u16_get m) n q }
{
    let total = fewest_records(spec.demand, spec.dmin, m, q);
    (total <= u32::from(q) * u32::from(spec.dmax)) & supply_holds(spec.supply, n, q, total)
}

// The fewest pairs that will do there, if any number of 1 to 512 will.
#[tactic(auto, using(numbers::proofs::Firsts::first_from, numbers::proofs::Firsts::first_most))]
fn fewest_pairs(spec: Spec, m: NonZeroU16, n: u16) -> Option<u16>
    ensures number { pairs_number result ≡ first (pairs_fit spec (non_zero_u16_get m) n) 512 1 }
    ensures most { IfSome result (λ q. q ≤ 512) }
{
    for q in 1..=MOST_PAIRS {
        if pairs_fit(spec, m, n, q) {
            return Some(q);
        }
    }
    None
}

// The plan at a gap, if some number of pairs will do there.
fn plan_at(spec: Spec, s: NonZeroU16) -> Option<Plan>
    ensures { result ≡ plan_if spec (non_zero_u16_get s) }
{
    // Where no endless list of sizes will do, no pairs will, and no count needs to be tried.
    if !even::fits_at(spec, s) {
        return None;
    }
    let m = NonZeroU16::new(even::count_at(spec.demand, s))?;
    let count = fewest_pairs(spec, m, most_at(spec.supply, s))?;
    Some(Plan {
        kind: Kind::Even,
        count: u32::from(count),
        period: u32::from(count) * u32::from(s.get()),
        total: fewest_records(spec.demand, spec.dmin, m, count),
    })
}

// The plan at the longest gap from lo to hi at which some number of pairs will do. It tries about 2 × √P gaps at most, as
// the even plan's search does (`FewTries` of specs/Search.antt).
#[tactic(auto, using(crate::proofs::Search::searching))]
fn plan_within(spec: Spec, lo: u16, hi: u16) -> Option<Plan>
    ensures { result ≡ plan_found spec (largest_in (can_load spec) lo hi) }
{
    // Each gap that fails says where the next one is, so that no range has them beforehand.
    let mut next = NonZeroU16::new(hi);
    while let Some(s) = next {
        if s.get() < lo {
            return None;
        }
        if let Some(plan) = plan_at(spec, s) {
            return Some(plan);
        }
        next = even::next_gap(spec.demand, s);
    }
    None
}

// The same of a range that may be absent.
#[tactic(auto, unfolding(even::specs::Search::largest_of), using(crate::proofs::Search::found_none))]
fn plan_of(spec: Spec, range: Option<Range>) -> Option<Plan>
    ensures { result ≡ plan_found spec (largest_of (can_load spec) range) }
{
    range.and_then(|range| plan_within(spec, range.min, range.max))
}

// The box plan of a specification for a lateness, or refusal 3, 4, 24, 26 or 30.
pub fn box_plan(spec: Spec, lateness: u32) -> Result<Plan, Refusal>
    ensures { numbered result ≡ box_plan spec lateness }
{
    let planned = lateness::planned_for(spec, lateness)?;
    let first = Range {
        min: planned.smin,
        max: planned.smax,
    };
    plan_of(planned, planned.second)
        .or_else(|| plan_of(planned, Some(first)))
        .ok_or(Refusal::NoBoxPlan)
}
