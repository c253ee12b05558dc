// A budget meter in the box (document 02, Req 03): it takes offers of reports one by one, and refuses those with which R minutes would
// hold more than B records. What an offer is to get is said by a plain machine that keeps every accepted report
// (specs/Plain.antt). The meter holds 1,024 of them at most, in a ring (specs/Ring.antt); that it gives what the machine gives, and that
// no R minutes hold more than B, stands on the demands' page. Whether a gap is too long is not asked here.
#![tactic(auto)]

ghost use Rattle.std.specs.Prelude.{◌≡◌, not, ◌+◌, ◌-◌, ◌<◌, ◌≤◌, leb, ltb};
ghost use Rattle.spec.specs.Refusals.{numbered, answer_number};
ghost use Rattle.spec.specs.Limits.{between};
ghost use Rattle.spec.specs.File.{accept, read_spec};
ghost use Rattle.schedule.specs.Schedules.{sum};
ghost use Rattle.meter.specs.Plain.{first_of};
ghost use Rattle.meter.specs.Ring.{fresh, made, place_of, held_report, later_of, aged, early_of, left_of, numbered_answer, numbered_step, stepped, told_or};

use spec::refusal::{self, Refusal};
use spec::{Rate, Spec};

// Places of the ring: the length of both arrays, where it is cast, since a length may call no `From`.
pub const PLACES: u16 = 1024;

// What a meter goes by where there is no supply rate: a window of 0 minutes, which hold nothing, and a budget of more than any report has.
const NO_SUPPLY: Rate = Rate {
    records: 20000,
    minutes: 0,
};

// One meter. The first five fields are the specification's: `budget` is B, `window` is R.
// The reports that are held stand in the ring from place `first` on, oldest first: `count` of them with `records` records, the last
// at minute `last`. The two arrays lie apart as C has them, and C may hand in any numbers: so no field says anything of another.
#[repr(C)]
#[derive(Clone, Copy)]
pub struct Meter {
    pub dmin: u16,
    pub dmax: u16,
    pub smin: u16,
    pub budget: u16,
    pub window: u16,
    pub records: u16,
    pub first: u16,
    pub count: u16,
    pub last: u32,
    pub minutes: [u32; PLACES as usize],
    pub sizes: [u16; PLACES as usize],
}

// What an offer gets: whether it is accepted, and the budget left after it, which is told only where there is a supply rate.
#[derive(Clone, Copy, Debug, PartialEq, Eq)]
pub struct Answer {
    pub verdict: Result<(), Refusal>,
    pub left: Option<u32>,
}

// A meter after an offer, with the answer to it.
#[derive(Clone, Copy)]
pub struct Stepped {
    pub meter: Meter,
    pub answer: Answer,
}

// The oldest reports that are out of the window: how many, and their records.
#[derive(Clone, Copy)]
struct Aged {
    count: u16,
    records: u32,
}

impl Meter {
    // A meter that holds nothing.
    fn fresh(spec: Spec) -> Meter
        ensures { result ≡ fresh spec }
    {
        let supply = spec.supply.unwrap_or(NO_SUPPLY);
        Meter {
            dmin: spec.dmin,
            dmax: spec.dmax,
            smin: spec.smin,
            budget: supply.records,
            window: supply.minutes,
            records: 0,
            first: 0,
            count: 0,
            last: 0,
            minutes: [0; PLACES as usize],
            sizes: [0; PLACES as usize],
        }
    }

    // The place of report i that is held.
    fn place(&self, i: u16) -> u16
        ensures place { result ≡ place_of self.now.first i }
        ensures in_ring { result < 1024 }
    {
        // It fits, as is proved: `try_from` would bring an error that never comes.
        ((u32::from(self.first) + u32::from(i)) % u32::from(PLACES)) as u16
    }

    // The later of the offered and the last accepted minute.
    fn later(&self, minute: u32) -> u32
        ensures { result ≡ later_of self.now.count self.now.last minute }
    {
        if self.count == 0 {
            return minute;
        }
        self.last.max(minute)
    }

    // Whether a report is out of the window that ends with minute t: so many minutes old, or older. The sum may pass 32 bits.
    fn is_aged(&self, minute: u32, t: u32) -> bool
        ensures { result ≡ leb (minute + self.now.window) t }
    {
        u64::from(minute) + u64::from(self.window) <= u64::from(t)
    }

    // The oldest of the reports that are held, up to the first that is in the window that ends with the later minute.
    fn aged(&self, minute: u32) -> Aged
        ensures count { result.count ≡ aged self.now minute }
        ensures most { result.count ≤ self.now.count }
        ensures records { result.records ≡ sum (λ i. (held_report self.now i).size) result.count }
    {
        let t = self.later(minute);
        let mut records = 0;
        for k in 0..self.count {
            let at = usize::from(self.place(k));
            if !self.is_aged(self.minutes[at], t) {
                return Aged { count: k, records };
            }
            records += u32::from(self.sizes[at]);
        }
        Aged {
            count: self.count,
            records,
        }
    }

    // Whether an offer comes before the last accepted minute plus smin.
    fn is_early(&self, minute: u32) -> bool
        ensures { result ≡ early_of self.now.count self.now.last self.now.smin minute }
    {
        (self.count != 0) & (u64::from(minute) < u64::from(self.last) + u64::from(self.smin))
    }

    // A size of 32 bits is compared as it stands.
    fn is_outside(&self, size: u32) -> bool
        ensures { result ≡ not (between self.now.dmin self.now.dmax size) }
    {
        (size < u32::from(self.dmin)) | (u32::from(self.dmax) < size)
    }

    // Whether a report more would be over the budget. The sum may pass 32 bits.
    fn is_over(&self, records: u32, size: u32) -> bool
        ensures { result ≡ ltb self.now.budget (records + size) }
    {
        u64::from(self.budget) < u64::from(records) + u64::from(size)
    }

    // The first refusal that applies, if any, where so many of the reports that are held count, with so many records.
    fn verdict(&self, minute: u32, size: u32, records: u32, counting: u16) -> Result<(), Refusal>
        ensures { answer_number result ≡ first_of
            (early_of self.now.count self.now.last self.now.smin minute)
            (not (between self.now.dmin self.now.dmax size))
            (ltb self.now.budget (records + size))
            (leb 1024 counting) }
    {
        if self.is_early(minute) {
            return Err(Refusal::Gap);
        }
        if self.is_outside(size) {
            return Err(Refusal::Size);
        }
        if self.is_over(records, size) {
            return Err(Refusal::TooFull);
        }
        if PLACES <= counting {
            return Err(Refusal::NoPlace);
        }
        Ok(())
    }

    // The budget left, told where there is a window.
    #[tactic(auto, unfolding(crate::specs::Ring::left_of))]
    fn left(&self, records: u32) -> Option<u32>
        ensures { result ≡ left_of self.now.window self.now.budget records }
    {
        if self.window == 0 {
            return None;
        }
        Some(u32::from(self.budget).saturating_sub(records))
    }
}

// A meter for a specification in numbers, or the refusal 3, 4 or 24.
pub fn make(spec: Spec) -> Result<Meter, Refusal>
    ensures { numbered result ≡ made (accept spec) }
{
    spec.accepted().map(Meter::fresh)
}

// A meter for a specification's file, or the refusal 1 to 4 or 24.
pub fn make_from(bytes: &[u8]) -> Result<Meter, Refusal>
    ensures { numbered result ≡ made (read_spec bytes.now) }
{
    spec::read_spec(bytes).map(Meter::fresh)
}

// One offer: the meter afterwards, and the answer. A refusal leaves the meter as it was.
pub fn step(m: Meter, minute: u32, size: u32) -> Stepped
    ensures { numbered_step result ≡ stepped m minute size }
{
    // One copy is read and changed, and there is one way out: so a compiler need copy a lent meter only in, and out where it changed.
    let mut next = m;
    let aged = next.aged(minute);
    let used = u32::from(next.records).saturating_sub(aged.records);
    let counting = next.count - aged.count;
    let verdict = next.verdict(minute, size, used, counting);
    let mut records = used;
    if verdict.is_ok() {
        records = used + size;
        let at = usize::from(next.place(next.count));
        let first = next.place(aged.count);
        // Both fit, as is proved: `try_from` would bring an error that never comes.
        next.records = records as u16;
        next.first = first;
        next.count = counting + 1;
        next.last = minute;
        next.minutes[at] = minute;
        next.sizes[at] = size as u16;
    }
    let left = next.left(records);
    let answer = Answer { verdict, left };
    Stepped {
        meter: next,
        answer,
    }
}

// One offer to a meter that its keeper lends, which is written only where the offer is accepted.
pub fn offer(meter: &mut Meter, minute: u32, size: u32) -> Answer
    ensures { (numbered_answer result ≡ (stepped meter.old minute size).answer) × (meter.new ≡ (stepped meter.old minute size).meter) }
{
    let s = step(*meter, minute, size);
    if s.answer.verdict.is_ok() {
        *meter = s.meter;
    }
    s.answer
}

// The number of an answer. The budget left is stored in a lent place where there is one to tell.
pub fn tell(answer: Answer, left: &mut u32) -> u32
    ensures { (result ≡ (numbered_answer answer).number) × (left.new ≡ told_or answer.left left.old) }
{
    if let Some(n) = answer.left {
        *left = n;
    }
    refusal::answer_number(answer.verdict)
}
