// The two families of schedules for k reports, with their supply figures (document 01, "Schedules from document 000"). Refusals 3 to
// 6, 24 and 25.
#![tactic(auto)]

ghost use Rattle.std.specs.Prelude.{◌≡◌, true, Ok};
ghost use Rattle.spec.specs.Refusals.{numbered};
ghost use Rattle.spec.specs.Rates.{started};
ghost use Rattle.plan.specs.Plans.{proper, run};
ghost use Rattle.families.specs.Families.{exists, plan_for, required, available, supply_figure, figure_of, planned, schedule_for};

use plan::{Kind, Plan, ProperPlan};
use spec::refusal::Refusal;
use spec::{Rates, Spec};

// What the two differ in is a formula each time, side by side in a `match` as document 01 has them: a closure for each would take them apart.
#[derive(Clone, Copy, Debug, PartialEq, Eq)]
pub enum Family {
    MinimumDemand,
    MaximumSupply,
}

// A schedule for k reports with its supply figure, required or available.
#[derive(Clone, Copy, Debug, PartialEq, Eq)]
pub struct Scheduled {
    pub plan: Plan,
    pub supply: u32,
}

// What a family's schedules are made of: an accepted specification with one range of gaps, and both its rates.
#[derive(Clone, Copy, Debug, PartialEq, Eq)]
pub struct Planning {
    pub family: Family,
    pub spec: Spec,
    pub rates: Rates,
    pub ghost begun: { started spec ≡ Ok rates },
}

// The plan of the family's schedule with k reports, whether or not there is such a schedule: no product of 16-bit numbers is too large.
#[tactic(auto, unfolding(crate::specs::Families::plan_for))]
pub fn plan_for(f: Family, s: Spec, q: Rates, k: u16) -> Plan
    ensures { result ≡ plan_for f s q k }
{
    let times = |n: u16| u32::from(k) * u32::from(n);
    let (period, total) = match f {
        Family::MinimumDemand => (
            times(s.smax).min(u32::from(q.p)),
            times(s.dmin).max(u32::from(q.l)),
        ),
        Family::MaximumSupply => (
            times(s.smin).max(u32::from(q.r)),
            times(s.dmax).min(u32::from(q.b)),
        ),
    };
    Plan {
        kind: Kind::WellFormed,
        count: u32::from(k),
        period,
        total,
    }
}

// What minutes 0 to r - 1 hold.
#[tactic(auto, unfolding(crate::specs::Families::required))]
fn required_supply(plan: ProperPlan, r: u16) -> u32
    ensures { result ≡ required plan.plan r }
{
    // It fits, as is proved: `try_from` would bring an error that never comes.
    plan.first_minutes(u32::from(r)).records as u32
}

// The least that a stretch of p minutes holds: that which ends with a period. Together with the front that it leaves out it is
// whole periods.
fn available_supply(plan: ProperPlan, p: u16) -> u32
    ensures { result ≡ available plan.plan p }
{
    let minutes = u32::from(p);
    let period = plan.plan.period;
    let front = plan.first_minutes(period - minutes % period).records;
    // It fits, as is proved: `try_from` would bring an error that never comes.
    (u64::from(minutes / period + 1) * u64::from(plan.plan.total) - front) as u32
}

#[tactic(auto, unfolding(crate::specs::Families::supply_figure))]
fn supply_figure(f: Family, q: Rates, plan: ProperPlan) -> u32
    ensures { result ≡ supply_figure f q plan.plan }
{
    match f {
        Family::MinimumDemand => required_supply(plan, q.r),
        Family::MaximumSupply => available_supply(plan, q.p),
    }
}

// The supply figure of any plan, 0 of one that is not proper; in a few divisions whatever the minutes and k are.
#[tactic(auto, unfolding(crate::specs::Families::figure_of))]
pub fn figure_of(f: Family, q: Rates, plan: Plan) -> u32
    ensures { result ≡ figure_of f q plan }
{
    match plan.proper() {
        Ok(plan) => supply_figure(f, q, plan),
        Err(_) => 0,
    }
}

impl Planning {
    // Whether the family has a schedule with k reports.
    #[tactic(auto, unfolding(crate::specs::Families::exists))]
    fn has_schedule(self, k: u32) -> bool
        ensures { result ≡ exists self.family self.spec self.rates k }
    {
        let s = self.spec;
        let q = self.rates;
        let times = |n: u16| u64::from(k) * u64::from(n);
        match self.family {
            Family::MinimumDemand => {
                times(s.smin) <= u64::from(q.p) && u64::from(q.l) <= times(s.dmax)
            }
            Family::MaximumSupply => {
                u64::from(q.r) <= times(s.smax) && times(s.dmin) <= u64::from(q.b)
            }
        }
    }

    // The plan for k reports and its supply figure: where there is a schedule with k reports, that schedule.
    // Inlined, since the test asks for every k: its first k and the others are two calls, each of which would pass the whole planning.
    #[inline(always)]
    #[tactic(auto, unfolding(crate::specs::Families::planned))]
    pub fn schedule(self, k: u16) -> Scheduled
        ensures { result ≡ planned self.family self.spec self.rates k }
    {
        let plan = plan_for(self.family, self.spec, self.rates, k);
        let supply = figure_of(self.family, self.rates, plan);
        Scheduled { plan, supply }
    }
}

// The family's schedule with k reports and its supply figure, or refusal 3 to 6, 24 or 25.
pub fn schedule_for(f: Family, spec: Spec, k: u32) -> Result<Scheduled, Refusal>
    ensures { numbered result ≡ schedule_for f spec k }
{
    let rates = spec.started()?;
    let planning = Planning {
        family: f,
        spec,
        rates,
    };
    if !planning.has_schedule(k) {
        return Err(Refusal::NoSchedule);
    }
    // It fits, as is proved: `try_from` would bring an error that never comes.
    Ok(planning.schedule(k as u16))
}
