// Consistency: the conditions of document 01, "Consistency", and the first of them that fails. Refusals 3, 4, 24, 25 and 7.
#![tactic(auto)]

ghost use Rattle.std.specs.Prelude.{◌≡◌};
ghost use Rattle.consistency.specs.Consistency.{told, size_fits_budget, gap_fits_demand, demand_fits_duration, bounds_fit_rates, fewest_reports_fit_budget, enough_reports_for_demand, supply_covers_demand, conditions_of, consistency_of, failing_of, failing_number};

use numbers::ceil_div;
use spec::refusal::Refusal;
use spec::{Accepted, Spec};

// The conditions that can fail, 3 to 6 of document 01.
#[derive(Clone, Copy, Debug, PartialEq, Eq)]
pub enum Condition {
    BoundsFitRates = 3,
    FewestReportsFitBudget = 4,
    EnoughReportsForDemand = 5,
    SupplyCoversDemand = 6,
}

// Why a specification is not consistent: the first condition that fails, which is refusal 7, or another refusal.
#[derive(Clone, Copy, Debug, PartialEq, Eq)]
pub enum Unfit {
    Inconsistent(Condition),
    Refused(Refusal),
}

impl From<Refusal> for Unfit {
    ghost use Rattle.consistency.specs.declared.Unfit.TheVariants.{Refused};

    ghost from_gives = { λ refusal unfit. unfit ≡ Refused refusal };

    fn from(refusal: Refusal) -> Unfit {
        Unfit::Refused(refusal)
    }
}

impl Unfit {
    // 7 where a condition fails, else the number of the refusal.
    pub fn number(self) -> u32
        ensures { result ≡ failing_number (failing_of self) }
    {
        match self {
            Unfit::Inconsistent(_) => 7,
            Unfit::Refused(refusal) => refusal.number(),
        }
    }
}

// The parts of condition 3: dmax ≤ B, smax ≤ P, P ≤ Tmin, each where its values are there.
#[tactic(auto, unfolding(crate::specs::Consistency::size_fits_budget, crate::specs::Consistency::where_there))]
fn size_fits_budget(s: Spec) -> bool
    ensures { result ≡ size_fits_budget s }
{
    s.supply.is_none_or(|supply| s.dmax <= supply.records)
}

#[tactic(auto, unfolding(crate::specs::Consistency::gap_fits_demand, crate::specs::Consistency::where_there))]
fn gap_fits_demand(s: Spec) -> bool
    ensures { result ≡ gap_fits_demand s }
{
    s.demand.is_none_or(|demand| s.smax <= demand.minutes)
}

#[tactic(auto, unfolding(crate::specs::Consistency::demand_fits_duration, crate::specs::Consistency::where_there))]
fn demand_fits_duration(s: Spec) -> bool
    ensures { result ≡ demand_fits_duration s }
{
    match (s.demand, s.duration) {
        (Some(demand), Some(duration)) => demand.minutes <= duration.min,
        _ => true,
    }
}

#[tactic(auto, unfolding(crate::specs::Consistency::bounds_fit_rates))]
fn bounds_fit_rates(s: Spec) -> bool
    ensures { result ≡ bounds_fit_rates s }
{
    size_fits_budget(s) & gap_fits_demand(s) & demand_fits_duration(s)
}

// Condition 4: R minutes that begin with a report hold ⌈R/smax⌉ reports or more. Here smax may be 0, by which std doesn't divide. (Conditions 4
// and 5 take no closure: that its product fits and its divisor is no 0 would have to be shown outside it.)
#[tactic(auto, unfolding(crate::specs::Consistency::fewest_reports_fit_budget, crate::specs::Consistency::where_there))]
fn fewest_reports_fit_budget(s: Spec) -> bool
    ensures { result ≡ fewest_reports_fit_budget s }
{
    let Some(supply) = s.supply else {
        return true;
    };
    let fewest = ceil_div(u64::from(supply.minutes), u64::from(s.smax));
    u64::from(s.dmin) * fewest <= u64::from(supply.records)
}

// Condition 5.
#[tactic(auto, unfolding(crate::specs::Consistency::enough_reports_for_demand, crate::specs::Consistency::where_there))]
fn enough_reports_for_demand(accepted: Accepted) -> bool
    ensures { result ≡ enough_reports_for_demand accepted.spec }
{
    let s = accepted.spec;
    let Some(demand) = s.demand else {
        return true;
    };
    demand.records.div_ceil(s.dmax) <= demand.minutes / s.smin
}

// Condition 6.
#[tactic(auto, unfolding(crate::specs::Consistency::supply_covers_demand, crate::specs::Consistency::where_there))]
fn supply_covers_demand(s: Spec) -> bool
    ensures { result ≡ supply_covers_demand s }
{
    match (s.supply, s.demand) {
        (Some(supply), Some(demand)) => {
            u64::from(demand.records) * u64::from(supply.minutes)
                <= u64::from(supply.records) * u64::from(demand.minutes)
        }
        _ => true,
    }
}

// The first condition that fails, if any.
#[tactic(auto, unfolding(crate::specs::Consistency::conditions_of))]
fn conditions_of(accepted: Accepted) -> Result<(), Unfit>
    ensures { told result ≡ conditions_of accepted.spec }
{
    let s = accepted.spec;
    if !bounds_fit_rates(s) {
        return Err(Unfit::Inconsistent(Condition::BoundsFitRates));
    }
    if !fewest_reports_fit_budget(s) {
        return Err(Unfit::Inconsistent(Condition::FewestReportsFitBudget));
    }
    if !enough_reports_for_demand(accepted) {
        return Err(Unfit::Inconsistent(Condition::EnoughReportsForDemand));
    }
    if !supply_covers_demand(s) {
        return Err(Unfit::Inconsistent(Condition::SupplyCoversDemand));
    }
    Ok(())
}

// Whether the specification is consistent; else the first condition that fails, or refusal 3, 4, 24 or 25.
pub fn consistency_of(spec: Spec) -> Result<(), Unfit>
    ensures { told result ≡ consistency_of spec }
{
    spec.check_one_range()?;
    conditions_of(Accepted { spec })
}
