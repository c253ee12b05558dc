// Duty hours (document 02, Req 11): whether a week table keeps the rules, the calendar minute of a duty minute, and the duty minute of an
// open calendar minute. Each takes the whole weeks by a division and then the windows of one week, whatever the minute. Schedules that are
// run on duty minutes are judged here too, by theorems; what stretches of reports at given minutes hold is left to `schedule`.
#![tactic(auto)]

ghost use Rattle.std.specs.Prelude.{◌≡◌, true, ◌*◌, ◌-◌, ◌≤◌, ◌<◌, ◌^◌, [], ◌∷◌, get_or, IfOk};
ghost use Rattle.spec.specs.Refusals.{numbered, answer_number};
ghost use Rattle.duty.specs.Weeks.{window_right, day_right, in_window, day_open, is_open, open_before, days_right, table_number};
ghost use Rattle.duty.specs.Minutes.{calendar_of, duty_of, table_of};
ghost use Rattle.duty.specs.Windows.{window_before, day_before, IsDayMinute, IsWeekMinute};

use spec::refusal::Refusal;

// A window of a day: opening is included, closing is not. Both are 0 where there is no window, as in the table: one that is empty needs no case
// of its own in any sum.
#[derive(Clone, Copy)]
struct Window {
    opens: u16,
    closes: u16,
    ghost in_order: { opens ≤ closes },
    ghost in_day: { closes ≤ 1440 },
}

// A day that keeps the rules: a second window, where there is one, is not before the first ends.
#[derive(Clone, Copy)]
struct Day {
    first: Window,
    second: Window,
    ghost apart: { second.opens < first.closes → second.closes ≡ 0 },
}

// A table that keeps the rules and opens some minute, and how many it opens.
#[derive(Clone, Copy)]
struct Week {
    table: [[u16; 4]; 7],
    minutes: u64,
    ghost right: { days_right table ≡ true },
    ghost counted: { minutes ≡ open_before table 10080 },
    ghost some: { 0 < minutes },
}

fn window_right(opens: u16, closes: u16) -> bool
    ensures { result ≡ window_right opens closes }
{
    ((opens == 0) & (closes == 0)) | ((opens < closes) & (closes <= 1440))
}

#[tactic(auto, unfolding(crate::specs::Weeks::day_right))]
fn day_right(numbers: [u16; 4]) -> bool
    ensures { result ≡ day_right numbers }
{
    let [opens, closes, opens_again, closes_again] = numbers;
    let none = (opens_again == 0) & (closes_again == 0);
    window_right(opens, closes)
        & window_right(opens_again, closes_again)
        & (none | (closes <= opens_again))
}

impl Window {
    // Whether minute x of the day lies in it.
    fn contains(self, x: u64) -> bool
        ensures { result ≡ in_window self.opens self.closes x }
    {
        u64::from(self.opens) <= x && x < u64::from(self.closes)
    }

    // How many minutes it has.
    fn minutes(self) -> u64
        ensures { result ≡ self.closes - self.opens }
    {
        u64::from(self.closes - self.opens)
    }

    // Those of them that lie before minute x of the day.
    fn before(self, x: u64) -> u64
        ensures value { result ≡ window_before self.opens self.closes x }
        ensures within { result ≤ x }
    {
        x.min(u64::from(self.closes)) - x.min(u64::from(self.opens))
    }
}

impl Day {
    ghost use Rattle.duty.specs.Days.{numbers_of};

    // The windows of four numbers of a table.
    #[tactic(auto, unfolding(crate::specs::Weeks::day_right), using(std::proofs::lemmas::Bool::Decides::nat_tests))]
    fn new(numbers: [u16; 4]) -> Self
        requires { day_right numbers ≡ true }
        ensures { numbers_of result ≡ numbers }
    {
        let [opens, closes, opens_again, closes_again] = numbers;
        Day {
            first: Window { opens, closes },
            second: Window {
                opens: opens_again,
                closes: closes_again,
            },
        }
    }

    // Whether minute x of the day is open.
    #[tactic(auto, unfolding(crate::specs::Weeks::day_open))]
    fn is_open(self, x: u64) -> bool
        ensures { result ≡ day_open (numbers_of self) x }
    {
        self.first.contains(x) || self.second.contains(x)
    }

    // The open minutes of the whole day: those of its windows.
    #[tactic(auto, unfolding(crate::specs::Windows::day_before))]
    fn minutes(self) -> u64
        ensures value { result ≡ day_before (numbers_of self) 1440 }
        ensures within { result ≤ 1440 }
    {
        self.first.minutes() + self.second.minutes()
    }

    // The open minutes before minute x of the day.
    #[tactic(auto, unfolding(crate::specs::Windows::day_before))]
    fn before(self, x: u64) -> u64
        requires { x ≤ 1440 }
        ensures { result ≡ day_before (numbers_of self) x }
    {
        self.first.before(x) + self.second.before(x)
    }

    // The open minute with n open ones before it.
    #[tactic(auto, unfolding(crate::specs::Weeks::day_open, crate::specs::Windows::day_before), using(std::proofs::lemmas::Bool::Decides::nat_tests))]
    fn minute(self, n: u64) -> u64
        requires { n < day_before (numbers_of self) 1440 }
        ensures { IsDayMinute (numbers_of self) n result }
    {
        let first = self.first.minutes();
        if n < first {
            u64::from(self.first.opens) + n
        } else {
            u64::from(self.second.opens) + (n - first)
        }
    }
}

impl Week {
    ghost use Rattle.duty.specs.Days.{numbers_of};

    // Refusal 27 for a table that breaks a rule or opens no minute.
    #[tactic(auto, using(crate::proofs::Tables::tested_days))]
    fn new(table: [[u16; 4]; 7]) -> Result<Self, Refusal>
        ensures answer { answer_number result ≡ table_number table }
        ensures same { IfOk result (λ w. w.table ≡ table) }
    {
        let mut minutes = 0;
        for numbers in table {
            if !day_right(numbers) {
                return Err(Refusal::WeekTable);
            }
            minutes += Day::new(numbers).minutes();
        }
        if minutes == 0 {
            return Err(Refusal::WeekTable);
        }
        Ok(Week { table, minutes })
    }

    // Day k, from Monday.
    #[tactic(auto, using(crate::proofs::Tables::day_right_lem))]
    fn day(&self, k: u64) -> Day
        requires { k < 7 }
        ensures { numbers_of result ≡ get_or self.now.table k [] }
    {
        // For an index there is no `From`.
        Day::new(self.table[k as usize])
    }

    // Whether calendar minute m is open.
    #[tactic(auto, unfolding(crate::specs::Weeks::is_open))]
    fn is_open(&self, m: u64) -> bool
        ensures { result ≡ is_open self.now.table m }
    {
        let x = m % 10080;
        self.day(x / 1440).is_open(x % 1440)
    }

    // The open minutes of the first so many days.
    #[tactic(auto, using(crate::proofs::Tables::counted_days))]
    fn days_before(&self, days: u64) -> u64
        requires { days ≤ 7 }
        ensures { result ≡ open_before self.now.table (1440 * days) }
    {
        let mut total = 0;
        for k in 0..days {
            total += self.day(k).minutes();
        }
        total
    }

    // The open minutes before calendar minute m.
    fn before(&self, m: u64) -> u64
        requires { m < 2 ^ 32 }
        ensures { result ≡ open_before self.now.table m }
    {
        let x = m % 10080;
        let day = x / 1440;
        m / 10080 * self.minutes + (self.days_before(day) + self.day(day).before(x % 1440))
    }

    // The open minute of the first week with n open ones before it.
    #[tactic(auto, using(crate::proofs::Tables::counted_days))]
    fn minute(&self, n: u64) -> u64
        requires { n < self.now.minutes }
        ensures { IsWeekMinute self.now.table n result }
    {
        let mut left = n;
        for k in 0..7 {
            let day = self.day(k);
            let here = day.minutes();
            if left < here {
                return 1440 * k + day.minute(left);
            }
            left -= here;
        }
        unreachable!()
    }
}

// Refusal 27 for a table that breaks a rule or opens no minute.
pub fn check_table(table: [[u16; 4]; 7]) -> Result<(), Refusal>
    ensures { answer_number result ≡ table_number table }
{
    Week::new(table)?;
    Ok(())
}

// The calendar minute of a duty minute.
pub fn calendar_minute(table: [[u16; 4]; 7], duty: u32) -> Result<u64, Refusal>
    ensures { numbered result ≡ calendar_of table duty }
{
    let week = Week::new(table)?;
    let d = u64::from(duty);
    Ok(d / week.minutes * 10080 + week.minute(d % week.minutes))
}

// The duty minute of a calendar minute.
pub fn duty_minute(table: [[u16; 4]; 7], calendar: u32) -> Result<u32, Refusal>
    ensures { numbered result ≡ duty_of table calendar }
{
    let week = Week::new(table)?;
    let m = u64::from(calendar);
    if !week.is_open(m) {
        return Err(Refusal::Closed);
    }
    // It fits, as is proved: `try_from` would bring an error that never comes.
    Ok(week.before(m) as u32)
}

// The table of 28 numbers, day by day; of any other count one that opens no minute, which gets 27.
pub fn table_of(numbers: &[u16]) -> [[u16; 4]; 7]
    ensures { result ≡ table_of numbers.now }
{
    let mut table = [[0; 4]; 7];
    if numbers.len() == 28 {
        table.copy_from_slice(numbers.as_chunks().0);
    }
    table
}
