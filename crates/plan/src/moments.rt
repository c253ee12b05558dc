// From minutes back to reports, of a plan of either kind: the last report at or before a minute, the nearest, and what lies between two
// minutes (document 02, Req 05). Each is a few divisions, however many reports lie before the minute. Refusals 11 and 23.
ghost use Rattle.std.specs.Prelude.{◌≡◌, ◌≤◌};
ghost use Rattle.spec.specs.Refusals.{numbered};
ghost use Rattle.schedule.specs.Moments.{last_report, nearest_report, reports_from, records_from};
ghost use Rattle.plan.specs.Plans.{run};
ghost use Rattle.plan.specs.Moments.{contents_of, last_of, nearest_of, between_of};

use crate::{Plan, ProperPlan};
use spec::refusal::Refusal;

// How many reports and records lie in some minutes.
#[derive(Clone, Copy, Debug, PartialEq, Eq)]
pub struct Contents {
    pub reports: u32,
    pub records: u64,
}

impl Plan {
    // The last report at or before minute m, or refusal 11.
    pub fn last_report(self, m: u32) -> Result<u32, Refusal>
        ensures { numbered result ≡ last_of self m }
    {
        Ok(self.proper()?.last_report(m))
    }

    // The report nearest to minute m, the earlier of two equally near, or refusal 11.
    pub fn nearest_report(self, m: u32) -> Result<u32, Refusal>
        ensures { numbered result ≡ nearest_of self m }
    {
        Ok(self.proper()?.nearest_report(m))
    }

    // What the first x minutes hold, from minute 0 up to but not including x, or refusal 11.
    pub fn first_minutes(self, x: u32) -> Result<Contents, Refusal>
        ensures { numbered result ≡ between_of self 0 x }
    {
        Ok(self.proper()?.first_minutes(x))
    }

    // What lies from minute a up to but not including b, or refusal 11 or 23.
    pub fn between(self, a: u32, b: u32) -> Result<Contents, Refusal>
        ensures { numbered result ≡ between_of self a b }
    {
        let plan = self.proper()?;
        if b < a {
            return Err(Refusal::Backwards);
        }
        Ok(plan.between(a, b))
    }
}

impl ProperPlan {
    // How many reports lie before minute m: those of whole periods, and in the last one those whose number is below two quotients, one by
    // the shorter gap and one by the longer. The even kind has no longer gap.
    fn count_before(self, m: u64) -> u64
        ensures { (result ≡ reports_from (run self.plan) 0 m) × (result ≤ m) }
    {
        let k = self.count();
        let period = self.period();
        let gap = period / k;
        let shorter = k - period % k;
        let left = m % period;
        // As in `even_first`: the definitions' own quotient.
        let by_shorter = numbers::ceil_div(left, gap);
        let by_longer = numbers::ceil_div(left + shorter, gap + 1);
        m / period * k + by_shorter.min(by_longer)
    }

    // The last report at or before minute m: of the reports before the next minute, the last.
    pub fn last_report(self, m: u32) -> u32
        ensures { (result ≡ last_report (run self.plan) m) × (result ≤ m) }
    {
        // It fits, as is proved: `try_from` would bring an error that never comes.
        (self.count_before(u64::from(m) + 1) - 1) as u32
    }

    // The last report at or before minute m or the next, whichever is nearer.
    pub fn nearest_report(self, m: u32) -> u32
        ensures { (result ≡ nearest_report (run self.plan) m) × (result ≤ m) }
    {
        let asked = u64::from(m);
        let last = self.last_report(m);
        let here = self.minute(u64::from(last));
        let next = self.minute(u64::from(last) + 1);
        if asked - here <= next - asked {
            last
        } else {
            last + 1
        }
    }

    // What the first x minutes hold: the reports before minute x, and what so many first reports hold.
    pub fn first_minutes(self, x: u32) -> Contents
        ensures { result ≡ contents_of (reports_from (run self.plan) 0 x) (records_from (run self.plan) 0 x) }
    {
        // It fits, as is proved: `try_from` would bring an error that never comes.
        let reports = self.count_before(u64::from(x)) as u32;
        Contents {
            reports,
            records: self.records_of_first(reports),
        }
    }

    // What lies from minute a up to but not including b: what lies before b, less what lies before a.
    fn between(self, a: u32, b: u32) -> Contents
        requires { a ≤ b }
        ensures { result ≡ contents_of (reports_from (run self.plan) a b) (records_from (run self.plan) a b) }
    {
        let before = self.first_minutes(a);
        let until = self.first_minutes(b);
        Contents {
            reports: until.reports - before.reports,
            records: until.records - before.records,
        }
    }
}
