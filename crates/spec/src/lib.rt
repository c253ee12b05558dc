// A specification: its numbers with two rates, a range of durations and a second range of gaps that may be absent, the limits and the
// order of its values, and its file (document 01, "The specification"; document 02, Req 06). Refusals 1 to 5, 24 and 25. What the numbers
// mean for a schedule is left to the crates above; `refusal` names every refusal.
#![tactic(auto)]

pub mod refusal;

ghost use Rattle.std.specs.Prelude.{◌≡◌, ◌+◌, ◌*◌, ◌<◌, ◌≤◌, Option, None, Some, Result, Ok, Err, length};
ghost use Rattle.spec.specs.Refusals.{numbered, answer_number};
ghost use Rattle.spec.specs.Limits.{rate_of, range_of, between, bounds_limits, rate_limits, range_limits, limits, range_order, order, starts_above, in_range, first_number, spec_number, size_allowed, gap_allowed, IsAccepted};
ghost use Rattle.spec.specs.File.{word, map_good, demand_at, duration_at, second_at, file_length, if_stands, spec_at, accept, read_spec};
ghost use Rattle.spec.specs.Rates.{one_range_number, rates_from, started};

use refusal::Refusal;

// A rate: so many records in so many minutes. A supply rate (B, R) is the most that so many minutes may hold, a demand rate (L, P) the
// least.
#[derive(Clone, Copy, Debug, PartialEq, Eq)]
pub struct Rate {
    pub records: u16,
    pub minutes: u16,
}

impl From<(u16, u16)> for Rate {
    ghost use Rattle.std.specs.Prelude.{◌≡◌};
    ghost use Rattle.spec.specs.Limits.{rate_of};

    ghost from_gives = { λ numbers rate. rate ≡ rate_of numbers.0 numbers.1 };

    fn from((records, minutes): (u16, u16)) -> Rate {
        Rate { records, minutes }
    }
}

// From `min` to `max`, as Tmin to Tmax, or the second range of gaps.
#[derive(Clone, Copy, Debug, PartialEq, Eq)]
pub struct Range {
    pub min: u16,
    pub max: u16,
}

impl From<(u16, u16)> for Range {
    ghost use Rattle.std.specs.Prelude.{◌≡◌};
    ghost use Rattle.spec.specs.Limits.{range_of};

    ghost from_gives = { λ numbers range. range ≡ range_of numbers.0 numbers.1 };

    fn from((min, max): (u16, u16)) -> Range {
        Range { min, max }
    }
}

// Sizes dmin to dmax in records, gaps smin to smax, or in the second range, in minutes. The rates, the durations and the second range may
// be absent.
#[derive(Clone, Copy, Debug, PartialEq, Eq)]
pub struct Spec {
    pub dmin: u16,
    pub dmax: u16,
    pub smin: u16,
    pub smax: u16,
    pub supply: Option<Rate>,
    pub demand: Option<Rate>,
    pub duration: Option<Range>,
    pub second: Option<Range>,
}

// A specification that gets none of 3, 4 and 24.
#[derive(Clone, Copy, Debug, PartialEq, Eq)]
pub struct Accepted {
    pub spec: Spec,
    pub ghost accepted: { IsAccepted spec },
}

// B and R of the supply rate, L and P of the demand rate.
#[derive(Clone, Copy, Debug, PartialEq, Eq)]
pub struct Rates {
    pub b: u16,
    pub r: u16,
    pub l: u16,
    pub p: u16,
}

fn within(lo: u16, hi: u16, x: u16) -> bool
    ensures { result ≡ between lo hi x }
{
    (lo <= x) & (x <= hi)
}

// Whether both bounds of a range are 1 to `top`.
fn bounds_limits(top: u16, lo: u16, hi: u16) -> bool
    ensures { result ≡ bounds_limits top lo hi }
{
    within(1, top, lo) & within(1, top, hi)
}

// Of a range and a rate that may be absent: what is asked of the one that is there.
#[tactic(auto, unfolding(crate::specs::Limits::range_limits))]
fn range_limits(top: u16, range: Option<Range>) -> bool
    ensures { result ≡ range_limits top range }
{
    range.is_none_or(|x| bounds_limits(top, x.min, x.max))
}

#[tactic(auto, unfolding(crate::specs::Limits::range_order))]
fn range_order(range: Option<Range>) -> bool
    ensures { result ≡ range_order range }
{
    range.is_none_or(|x| x.min <= x.max)
}

#[tactic(auto, unfolding(crate::specs::Limits::rate_limits))]
fn rate_limits(rate: Option<Rate>) -> bool
    ensures { result ≡ rate_limits rate }
{
    rate.is_none_or(|x| within(1, 20000, x.records) & within(1, 20160, x.minutes))
}

// Whether a range starts above a number, as every absent one does.
#[tactic(auto, unfolding(crate::specs::Limits::starts_above))]
fn starts_above(range: Option<Range>, top: u16) -> bool
    ensures { result ≡ starts_above range top }
{
    range.is_none_or(|x| top < x.min)
}

// Whether a range has a number, as no absent one does.
#[tactic(auto, unfolding(crate::specs::Limits::in_range))]
fn in_range(range: Option<Range>, n: u16) -> bool
    ensures { result ≡ in_range range n }
{
    range.is_some_and(|x| within(x.min, x.max, n))
}

// The first refusal that applies, if any.
#[tactic(auto, unfolding(crate::specs::Limits::first_number))]
fn first_refusal(limits: bool, order: bool, apart: bool) -> Result<(), Refusal>
    ensures { answer_number result ≡ first_number limits order apart }
{
    if !limits {
        return Err(Refusal::Limits);
    }
    if !order {
        return Err(Refusal::Order);
    }
    if !apart {
        return Err(Refusal::Ranges);
    }
    Ok(())
}

// B, R, L and P, where both rates are there, or refusal 5.
#[tactic(auto, unfolding(crate::specs::Rates::rates_from))]
fn both_rates(supply: Option<Rate>, demand: Option<Rate>) -> Result<Rates, Refusal>
    ensures { numbered result ≡ rates_from supply demand }
{
    let (Some(most), Some(least)) = (supply, demand) else {
        return Err(Refusal::RateAbsent);
    };
    Ok(Rates {
        b: most.records,
        r: most.minutes,
        l: least.records,
        p: least.minutes,
    })
}

impl Spec {
    #[tactic(auto, unfolding(crate::specs::Limits::limits))]
    fn in_limits(self) -> bool
        ensures { result ≡ limits self }
    {
        bounds_limits(1000, self.dmin, self.dmax)
            & bounds_limits(20160, self.smin, self.smax)
            & rate_limits(self.supply)
            & rate_limits(self.demand)
            & range_limits(60000, self.duration)
            & range_limits(20160, self.second)
    }

    #[tactic(auto, unfolding(crate::specs::Limits::order))]
    fn in_order(self) -> bool
        ensures { result ≡ order self }
    {
        (self.dmin <= self.dmax)
            & (self.smin <= self.smax)
            & range_order(self.duration)
            & range_order(self.second)
    }

    // The refusal 3, 4 or 24 with which every operation on a specification begins, if it has one.
    #[tactic(auto, unfolding(crate::specs::Limits::spec_number))]
    pub fn check(self) -> Result<(), Refusal>
        ensures { answer_number result ≡ spec_number self }
    {
        first_refusal(
            self.in_limits(),
            self.in_order(),
            starts_above(self.second, self.smax),
        )
    }

    // Whether the size is in its range, the gap in one of its own.
    #[tactic(auto, unfolding(crate::specs::Limits::size_allowed))]
    pub fn allows_size(self, size: u16) -> bool
        ensures { result ≡ size_allowed self size }
    {
        within(self.dmin, self.dmax, size)
    }

    #[tactic(auto, unfolding(crate::specs::Limits::gap_allowed))]
    pub fn allows_gap(self, gap: u16) -> bool
        ensures { result ≡ gap_allowed self gap }
    {
        within(self.smin, self.smax, gap) | in_range(self.second, gap)
    }

    // 25 after those of `check`: with these begin consistency, schedules for k reports and the test, which take one range of gaps.
    #[tactic(auto, unfolding(crate::specs::Rates::one_range_number), using(crate::proofs::Refusals::handed_number, crate::proofs::GoingOn::goes_on, crate::proofs::GoingOn::second_told))]
    pub fn check_one_range(self) -> Result<(), Refusal>
        ensures { answer_number result ≡ one_range_number self }
    {
        self.check()?;
        if self.second.is_some() {
            return Err(Refusal::TwoRanges);
        }
        Ok(())
    }

    // What schedules for k reports and the test begin with: both rates of an accepted specification with one range of gaps, or refusal 3,
    // 4, 24, 25 or 5.
    #[tactic(auto, unfolding(crate::specs::Rates::started, crate::specs::Rates::both_rates), using(crate::proofs::Refusals::handed_on, crate::proofs::GoingOn::goes_on))]
    pub fn started(self) -> Result<Rates, Refusal>
        ensures { numbered result ≡ started self }
    {
        self.check_one_range()?;
        both_rates(self.supply, self.demand)
    }

    // A specification in numbers, as reading its file would give it: accepted, or the refusal 3, 4 or 24.
    #[tactic(auto, using(crate::proofs::Refusals::handed_on, crate::proofs::GoingOn::goes_on))]
    pub fn accepted(self) -> Result<Spec, Refusal>
        ensures { numbered result ≡ accept self }
    {
        self.check()?;
        Ok(self)
    }
}

// The 2-byte number at a place, high byte first.
fn word_at(b: &[u8], i: usize) -> u16
    requires { i + 1 < length b.now }
    ensures { result ≡ word b.now i }
{
    u16::from_be_bytes([b[i], b[i + 1]])
}

// The first byte of a file: a bit for each pair that stands in it.
#[derive(Clone, Copy)]
struct FileMap(u8);

impl FileMap {
    // Bits 0 and 1 stand, and neither of bits 6 and 7.
    fn is_good(self) -> bool
        ensures { result ≡ map_good self.0 }
    {
        (self.0 % 4 == 3) & (self.0 < 64)
    }

    // How many bytes the supply rate takes, which stands at 9; then where the other pairs that may be absent stand, and where the file
    // ends.
    fn demand_at(self) -> usize
        ensures { result ≡ demand_at self.0 }
    {
        9 + 4 * usize::from(self.0 / 4 % 2)
    }

    fn duration_at(self) -> usize
        ensures { result ≡ duration_at self.0 }
    {
        self.demand_at() + 4 * usize::from(self.0 / 8 % 2)
    }

    fn second_at(self) -> usize
        ensures { result ≡ second_at self.0 }
    {
        self.duration_at() + 4 * usize::from(self.0 / 16 % 2)
    }

    fn file_length(self) -> usize
        ensures { result ≡ file_length self.0 }
    {
        self.second_at() + 4 * usize::from(self.0 / 32 % 2)
    }
}

// The two numbers of a pair at a place, where its bit of the map stands. The bit is 0 or 1, since places are sums of such.
fn pair_at(stands: u8, b: &[u8], i: usize) -> Option<(u16, u16)>
    requires { i + 4 * stands ≤ length b.now }
    ensures { result ≡ if_stands stands (λ x y. (x, y)) b.now i }
{
    if stands == 1 {
        Some((word_at(b, i), word_at(b, i + 2)))
    } else {
        None
    }
}

fn spec_at(map: FileMap, b: &[u8]) -> Spec
    requires { file_length map.0 ≤ length b.now }
    ensures { result ≡ spec_at map.0 b.now }
{
    Spec {
        dmin: word_at(b, 1),
        dmax: word_at(b, 3),
        smin: word_at(b, 5),
        smax: word_at(b, 7),
        supply: pair_at(map.0 / 4 % 2, b, 9).map(Rate::from),
        demand: pair_at(map.0 / 8 % 2, b, map.demand_at()).map(Rate::from),
        duration: pair_at(map.0 / 16 % 2, b, map.duration_at()).map(Range::from),
        second: pair_at(map.0 / 32 % 2, b, map.second_at()).map(Range::from),
    }
}

// The specification that the bytes of a file stand for.
pub fn read_spec(bytes: &[u8]) -> Result<Spec, Refusal>
    ensures { numbered result ≡ read_spec bytes.now }
{
    let Some(first) = bytes.first() else {
        return Err(Refusal::Map);
    };
    let map = FileMap(*first);
    if !map.is_good() {
        return Err(Refusal::Map);
    }
    if bytes.len() != map.file_length() {
        return Err(Refusal::Length);
    }
    spec_at(map, bytes).accepted()
}
