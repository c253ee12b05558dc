// Plans: k reports in a period of so many minutes with so many records, of one of two kinds; whether a plan is proper, and the minute
// and size of each report of its endless run, in constant time (document 01, "Schedules from document 000"); and back from minutes to
// reports (`moments`). Refusals 11 and 23. How a plan is found is left to the crates above.
#![tactic(auto)]

pub mod moments;

ghost use Rattle.std.specs.Prelude.{◌≡◌, true, false, ◌+◌, ◌*◌, ◌≤◌, ◌<◌, ◌^◌, IfOk, IfErr};
ghost use Rattle.spec.specs.Refusals.{numbered};
ghost use Rattle.spec.specs.declared.refusal.Refusal.TheVariants.{NotProper};
ghost use Rattle.schedule.specs.Schedules.{sum, minute};
ghost use Rattle.plan.specs.Plans.{kind_fits, proper, run, well_size, even_first};
ghost use Rattle.plan.specs.Reports.{report_at, report_of, if_proper};

use spec::refusal::Refusal;

#[derive(Clone, Copy, Debug, PartialEq, Eq)]
pub enum Kind {
    WellFormed,
    Even,
}

// The kind that C names by a number, or refusal 11.
impl TryFrom<u32> for Kind {
    type Error = Refusal;

    ghost use Rattle.std.specs.Prelude.{◌≡◌};
    ghost use Rattle.spec.specs.Refusals.{numbered};
    ghost use Rattle.plan.specs.Plans.{kind_named};

    ghost try_from_gives = { λ number kind. numbered kind ≡ kind_named number };

    fn try_from(number: u32) -> Result<Kind, Refusal> {
        match number {
            0 => Ok(Kind::WellFormed),
            1 => Ok(Kind::Even),
            _ => Err(Refusal::NotProper),
        }
    }
}

// `count` reports (k) in a period of `period` minutes (π) with `total` records (δ).
#[derive(Clone, Copy, Debug, PartialEq, Eq)]
pub struct Plan {
    pub kind: Kind,
    pub count: u32,
    pub period: u32,
    pub total: u32,
}

// A report: its minute, and its size in records.
#[derive(Clone, Copy, Debug, PartialEq, Eq)]
pub struct Report {
    pub minute: u64,
    pub size: u32,
}

// A plan that is proper: whatever is asked of its endless run has an answer.
#[derive(Clone, Copy, Debug, PartialEq, Eq)]
pub struct ProperPlan {
    pub plan: Plan,
    pub ghost is_proper: { proper plan ≡ true },
}

impl Kind {
    // Whether the kind takes a period of so many minutes for k reports: of the even kind all gaps are the same.
    fn fits(self, k: u32, period: u32) -> bool
        ensures { result ≡ kind_fits self k period }
    {
        match self {
            Kind::WellFormed => true,
            Kind::Even => period.is_multiple_of(k),
        }
    }
}

impl Plan {
    #[tactic(auto, unfolding(crate::specs::Plans::proper))]
    pub fn is_proper(self) -> bool
        ensures { result ≡ proper self }
    {
        let k = self.count;
        (1..=20160).contains(&k)
            && (k..=20160 * k).contains(&self.period)
            && (k..=1000 * k).contains(&self.total)
            && self.kind.fits(k, self.period)
    }

    // The plan as a proper one, or refusal 11.
    pub fn proper(self) -> Result<ProperPlan, Refusal>
        ensures ok { IfOk result (λ p. p.plan ≡ self) }
        ensures err { IfErr result (λ refusal. (refusal ≡ NotProper) × (proper self ≡ false)) }
    {
        if self.is_proper() {
            Ok(ProperPlan { plan: self })
        } else {
            Err(Refusal::NotProper)
        }
    }

    // Minute and size of report i of the plan's endless run, or refusal 11.
    pub fn report(self, i: u32) -> Result<Report, Refusal>
        ensures { numbered result ≡ report_of self i }
    {
        Ok(self.proper()?.report(i))
    }

    // How many records the first n reports hold, or refusal 11.
    pub fn records_of_first(self, n: u32) -> Result<u64, Refusal>
        ensures { numbered result ≡ if_proper self (sum (run self).size n) }
    {
        Ok(self.proper()?.records_of_first(n))
    }
}

impl ProperPlan {
    // The plan's numbers, with room for sums and products.
    #[tactic(auto, using(crate::proofs::Proper::count_range))]
    fn count(self) -> u64
        ensures number { result ≡ self.plan.count }
        ensures bounds { (1 ≤ result) × (result ≤ 20160) }
    {
        u64::from(self.plan.count)
    }

    #[tactic(auto, using(crate::proofs::Proper::period_range))]
    fn period(self) -> u64
        ensures number { result ≡ self.plan.period }
        ensures bounds { (1 ≤ result) × (result ≤ 406425600) }
    {
        u64::from(self.plan.period)
    }

    #[tactic(auto, using(crate::proofs::Proper::total_most))]
    fn total(self) -> u64
        ensures number { result ≡ self.plan.total }
        ensures bounds { result ≤ 20160000 }
    {
        u64::from(self.plan.total)
    }

    // The minute of report i: whole periods, and the gaps before it in its own, of which the last are longer. The even kind has no longer
    // gap, so that one division is enough.
    fn minute(self, i: u64) -> u64
        requires { i ≤ 2 ^ 32 }
        ensures { result ≡ minute (run self.plan) i }
    {
        let k = self.count();
        let period = self.period();
        match self.plan.kind {
            Kind::WellFormed => {
                let j = i % k;
                let longer = j.saturating_sub(k - period % k);
                i / k * period + (j * (period / k) + longer)
            }
            Kind::Even => i * (period / k),
        }
    }

    // The size of report i of the well-formed kind: the first of a period are larger.
    #[tactic(auto, unfolding(crate::specs::Plans::well_size))]
    fn well_size(self, i: u64) -> u64
        ensures { result ≡ well_size self.plan.count self.plan.total i }
    {
        let k = self.count();
        let total = self.total();
        if i % k < total % k {
            total / k + 1
        } else {
            total / k
        }
    }

    // What the first n reports of the well-formed kind hold: whole periods, and the rest, of which the first are larger.
    fn well_first(self, n: u64) -> u64
        requires { n ≤ 2 ^ 32 }
        ensures { result ≡ sum (well_size self.plan.count self.plan.total) n }
    {
        let k = self.count();
        let total = self.total();
        let j = n % k;
        n / k * total + (j * (total / k) + j.min(total % k))
    }

    // What the first n reports of the even kind hold: rounded up, so that report 0 is as full as any.
    #[tactic(auto, unfolding(crate::specs::Plans::even_first))]
    fn even_first(self, n: u64) -> u64
        requires { n ≤ 2 ^ 32 }
        ensures { result ≡ even_first self.plan.count self.plan.total n }
    {
        // `ceil_div` is the definitions' own quotient, so that what is proved of those holds of it as it stands.
        numbers::ceil_div(n * self.total(), self.count())
    }

    // The size of report i. That of the even kind is what one report more holds.
    pub fn size(self, i: u32) -> u32
        ensures { (result ≡ (run self.plan).size i) × (result ≤ 1000) }
    {
        let i = u64::from(i);
        // Either fits, as is proved: `try_from` would bring an error that never comes.
        match self.plan.kind {
            Kind::WellFormed => self.well_size(i) as u32,
            Kind::Even => (self.even_first(i + 1) - self.even_first(i)) as u32,
        }
    }

    // The gap from report i to the next: the last of a period are longer. The even kind has no longer gap.
    #[tactic(auto, using(crate::proofs::Proper::count_range))]
    pub fn gap(self, i: u32) -> u32
        ensures { (result ≡ (run self.plan).gap i) × (result ≤ 20160) }
    {
        let k = self.plan.count;
        let period = self.plan.period;
        if k - period % k <= i % k {
            period / k + 1
        } else {
            period / k
        }
    }

    // Report i of the endless run.
    pub fn report(self, i: u32) -> Report
        ensures { result ≡ report_at (minute (run self.plan) i) ((run self.plan).size i) }
    {
        Report {
            minute: self.minute(u64::from(i)),
            size: self.size(i),
        }
    }

    // How many records the first n reports hold.
    pub fn records_of_first(self, n: u32) -> u64
        ensures { result ≡ sum (run self.plan).size n }
    {
        match self.plan.kind {
            Kind::WellFormed => self.well_first(u64::from(n)),
            Kind::Even => self.even_first(u64::from(n)),
        }
    }
}
