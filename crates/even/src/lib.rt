// The even plan: the longest gap at which an endless list of sizes obeys the rules, with k, period and total (document 01, "The
// even plan"; document 02, Req 06). Refusal 10, after a specification's own. The sizes themselves are crate `plan`'s; here are the
// arithmetic that says whether a gap has such a list, and the search for the longest one, which tries few of up to 20,160 gaps: those of
// the second range first, as they are longer. No gap is 0, and its type says so.
#![tactic(auto)]

ghost use Rattle.std.specs.Prelude.{◌≡◌};
ghost use Rattle.std.specs.Int.NonZero.{non_zero_u16_get};
ghost use Rattle.spec.specs.Refusals.{numbered};
ghost use Rattle.even.specs.Even.{count_at, total_of, demand_fits, supply_fits, fits, even_gap, even_plan_at, even_plan, even_of};
ghost use Rattle.even.specs.Jump.{gap_number, next_gap};
ghost use Rattle.even.specs.Search.{largest_in, largest_of};

use plan::{Kind, Plan};
use spec::refusal::Refusal;
use spec::{Accepted, Range, Rate, Spec};
use std::num::NonZeroU16;

// The fewest reports in any P minutes; 1 where demand is absent.
#[tactic(auto, unfolding(crate::specs::Even::count_at))]
pub fn count_at(demand: Option<Rate>, s: NonZeroU16) -> u16
    ensures { result ≡ count_at demand (non_zero_u16_get s) }
{
    demand.map_or(1, |rate| rate.minutes / s)
}

#[tactic(auto, unfolding(crate::specs::Even::total_of))]
fn total_of(demand: Option<Rate>, dmin: u16, m: u16) -> u32
    ensures { result ≡ total_of demand dmin m }
{
    let least = u32::from(dmin);
    demand.map_or(least, |rate| {
        (u32::from(m) * least).max(u32::from(rate.records))
    })
}

#[tactic(auto, unfolding(crate::specs::Even::demand_fits))]
fn demand_fits(demand: Option<Rate>, dmax: u16, m: u16) -> bool
    ensures { result ≡ demand_fits demand dmax m }
{
    demand.is_none_or(|rate| u32::from(rate.records) <= u32::from(m) * u32::from(dmax))
}

// The most reports in R minutes hold at most B, where every m in a row hold the total.
#[tactic(auto, unfolding(crate::specs::Even::supply_fits), using(numbers::proofs::Ceilings::div_ceil_is))]
fn supply_fits(supply: Option<Rate>, s: NonZeroU16, m: u16, total: u32) -> bool
    ensures { result ≡ supply_fits supply (non_zero_u16_get s) m total }
{
    supply.is_none_or(|rate| {
        u64::from(rate.minutes.div_ceil(s.get())) * u64::from(total)
            <= u64::from(m) * u64::from(rate.records)
    })
}

// What the plan at a gap has in one period: k reports, with δ records.
#[derive(Clone, Copy)]
struct Period {
    count: u16,
    total: u32,
}

fn period_at(spec: Spec, s: NonZeroU16) -> Period
    ensures count { result.count ≡ count_at spec.demand (non_zero_u16_get s) }
    ensures total { result.total ≡ total_of spec.demand spec.dmin result.count }
{
    let count = count_at(spec.demand, s);
    Period {
        count,
        total: total_of(spec.demand, spec.dmin, count),
    }
}

// Whether some endless list of sizes obeys the rules at the gap s, where s is allowed.
#[tactic(auto, unfolding(crate::specs::Even::fits))]
pub fn fits_at(spec: Spec, s: NonZeroU16) -> bool
    ensures { result ≡ fits spec (non_zero_u16_get s) }
{
    let Period { count, total } = period_at(spec, s);
    demand_fits(spec.demand, spec.dmax, count) & supply_fits(spec.supply, s, count, total)
}

// The gap to try after s has failed.
#[tactic(auto, unfolding(crate::specs::Jump::next_gap))]
pub fn next_gap(demand: Option<Rate>, s: NonZeroU16) -> Option<NonZeroU16>
    ensures { gap_number result ≡ next_gap demand (non_zero_u16_get s) }
{
    demand.and_then(|rate| {
        // It fits, as is proved: `try_from` would bring an error that never comes.
        let more = u32::from(rate.minutes / s) + 1;
        NonZeroU16::new((u32::from(rate.minutes) / more) as u16)
    })
}

// The longest gap from lo to hi that fits. It tries about 2 × √P gaps at most, as do the searches of both ranges together (`FewTries` of
// specs/Search.antt).
#[tactic(auto, using(crate::proofs::Search::searching))]
fn gap_within(spec: Spec, lo: u16, hi: u16) -> Option<NonZeroU16>
    ensures { gap_number result ≡ largest_in (fits spec) lo hi }
{
    // Each gap that fails says where the next one is, so that no range has them beforehand.
    let mut next = NonZeroU16::new(hi);
    while let Some(s) = next {
        if s.get() < lo {
            return None;
        }
        if fits_at(spec, s) {
            return next;
        }
        next = next_gap(spec.demand, s);
    }
    None
}

// The same of a range that may be absent.
#[tactic(auto, unfolding(crate::specs::Search::largest_of))]
fn gap_of(spec: Spec, range: Option<Range>) -> Option<NonZeroU16>
    ensures { gap_number result ≡ largest_of (fits spec) range }
{
    range.and_then(|range| gap_within(spec, range.min, range.max))
}

fn even_gap(accepted: Accepted) -> Option<NonZeroU16>
    ensures { gap_number result ≡ even_gap accepted.spec }
{
    let spec = accepted.spec;
    let first = Range {
        min: spec.smin,
        max: spec.smax,
    };
    gap_of(spec, spec.second).or_else(|| gap_of(spec, Some(first)))
}

#[tactic(auto, unfolding(crate::specs::Even::even_plan_at))]
fn plan_at(spec: Spec, s: NonZeroU16) -> Plan
    ensures { result ≡ even_plan_at spec (non_zero_u16_get s) }
{
    let Period { count, total } = period_at(spec, s);
    Plan {
        kind: Kind::Even,
        count: u32::from(count),
        period: u32::from(count) * u32::from(s.get()),
        total,
    }
}

// The even plan of a specification, or refusal 3, 4, 24 or 10.
#[tactic(auto, unfolding(crate::specs::Even::even_plan), using(spec::proofs::Refusals::handed_on))]
pub fn even_plan(spec: Spec) -> Result<Plan, Refusal>
    ensures { numbered result ≡ even_plan spec }
{
    spec.check()?;
    // A match and no closure: a specification that is lent to one is copied field by field.
    match even_gap(Accepted { spec }) {
        Some(gap) => Ok(plan_at(spec, gap)),
        None => Err(Refusal::NoEvenPlan),
    }
}

// The even plan of a specification file.
pub fn even_of(bytes: &[u8]) -> Result<Plan, Refusal>
    ensures { numbered result ≡ even_of bytes.now }
{
    even_plan(spec::read_spec(bytes)?)
}
