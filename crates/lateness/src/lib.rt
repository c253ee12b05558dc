// Reports that may arrive late (document 02, Req 09), each by a number of minutes of its own, up to J: the refusals with which an operation
// that takes a lateness begins (3, 4, 24, then 26), and the specification that planned minutes must meet, so that the given one is met
// however the reports are delayed. Ranges of gaps lose their first and their last J minutes, those that touch are joined before; R is J
// longer, and P shorter by as much. That this is so of every schedule is proved here; which cycles meet it is left to `cycle`.
#![tactic(auto)]

ghost use Rattle.std.specs.Prelude.{◌≡◌, ◌≤◌};
ghost use Rattle.spec.specs.Refusals.{numbered};
ghost use Rattle.lateness.specs.PlannedSpec.{joined_end, second_apart, planned_spec, planned_for};

use spec::refusal::Refusal;
use spec::{Accepted, Range, Rate, Spec};

// The most minutes that a report may be late.
pub const MOST_LATE: u32 = 1440;

// Where the first range ends, once ranges that touch are joined.
#[tactic(auto, unfolding(crate::specs::PlannedSpec::joined_end))]
fn joined_end(smax: u16, second: Option<Range>) -> u16
    requires { smax ≤ 20160 }
    ensures { result ≡ joined_end smax second }
{
    match second {
        Some(x) if x.min == smax + 1 => x.max,
        _ => smax,
    }
}

// The second range, where it is not joined to the first.
#[tactic(auto, unfolding(crate::specs::PlannedSpec::second_apart))]
fn second_apart(smax: u16, second: Option<Range>) -> Option<Range>
    requires { smax ≤ 20160 }
    ensures { result ≡ second_apart smax second }
{
    match second {
        Some(x) if x.min == smax + 1 => None,
        _ => second,
    }
}

// Each range without its first and its last `lateness` numbers; where it has no more than these, it is left with none. R minutes can hold
// what R + J planned minutes hold, and P minutes as little as P - J.
#[tactic(auto, unfolding(crate::specs::PlannedSpec::planned_spec, crate::specs::PlannedSpec::shortened, crate::specs::Lateness::late_supply, crate::specs::Lateness::late_demand))]
fn planned_spec(accepted: Accepted, lateness: u16) -> Spec
    requires { lateness ≤ 1440 }
    ensures { result ≡ planned_spec accepted.spec lateness }
{
    let spec = accepted.spec;
    Spec {
        smin: spec.smin + lateness,
        smax: joined_end(spec.smax, spec.second).saturating_sub(lateness),
        supply: spec.supply.map(|x| Rate {
            records: x.records,
            minutes: x.minutes + lateness,
        }),
        demand: spec.demand.map(|x| Rate {
            records: x.records,
            minutes: x.minutes.saturating_sub(lateness),
        }),
        second: second_apart(spec.smax, spec.second).map(|x| Range {
            min: x.min + lateness,
            max: x.max.saturating_sub(lateness),
        }),
        ..spec
    }
}

// What planned minutes must meet for a lateness, or the refusal 3, 4, 24 or 26.
pub fn planned_for(spec: Spec, lateness: u32) -> Result<Spec, Refusal>
    ensures { numbered result ≡ planned_for spec lateness }
{
    spec.check()?;
    if MOST_LATE < lateness {
        return Err(Refusal::TooLate);
    }
    // It fits, as is proved: `try_from` would bring an error that never comes.
    Ok(planned_spec(Accepted { spec }, lateness as u16))
}
