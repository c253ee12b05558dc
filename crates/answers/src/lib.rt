// What each operation's answer is in numbers, as the C calls hand it out: the number of the refusal or 0, and the values, each stored in
// a lent place where there is one to tell. No place is written on a refusal, but for the condition of an inconsistent specification
// and the stretch that shows a 15 or a 16. Each kind of answer has places of its own: one function for all would have to be told which
// value goes where, and be no plainer.
#![tactic(auto)]

ghost use Rattle.std.specs.Prelude.{◌≡◌};
ghost use Rattle.std.specs.Result.{result_unwrap_or};
ghost use Rattle.spec.specs.Refusals.{numbered, answer_number};
ghost use Rattle.consistency.specs.Consistency.{told};
ghost use Rattle.answers.specs.Answers.{condition_number, consistency_answer, scheduled_answer, tested_answer, plan_answer, report_answer, contents_answer, bill_answer, judged_answer, margin_values, yields, fullest_answer, thinnest_answer, tolerant_answer, in_force_answer, held_after, held_or_value};

use consistency::{Condition, Unfit};
use cost::Bill;
use cycle::Judged;
use cycle::margins::{Margin, Margins};
use dated::InForce;
use families::Scheduled;
use plan::moments::Contents;
use plan::{Plan, Report};
use spec::refusal::{Refusal, answer_number};
use tolerance::Late;

// 3 to 6, as document 01 numbers the conditions.
pub fn condition_number(c: Condition) -> u32
    ensures { result ≡ condition_number c }
{
    c as u32
}

// 7, with the condition that failed first stored, or the number of another refusal.
#[tactic(auto, unfolding(crate::specs::Answers::held_after), using(crate::proofs::Places::after_refusal))]
fn failing_answer(unfit: Unfit, condition: &mut u32) -> u32
    ensures number { result ≡ (consistency_answer (told (Err unfit))).number }
    ensures condition { condition.new ≡ held_after 7 0 (consistency_answer (told (Err unfit))) condition.old }
{
    if let Unfit::Inconsistent(first) = unfit {
        *condition = condition_number(first);
    }
    unfit.number()
}

#[tactic(auto, unfolding(crate::specs::Answers::held_after), using(crate::proofs::Places::after_refusal))]
pub fn consistency_answer(found: Result<(), Unfit>, condition: &mut u32) -> u32
    ensures number { result ≡ (consistency_answer (told found)).number }
    ensures condition { condition.new ≡ held_after 7 0 (consistency_answer (told found)) condition.old }
{
    match found {
        Ok(()) => 0,
        Err(unfit) => failing_answer(unfit, condition),
    }
}

#[tactic(auto, unfolding(crate::specs::Answers::held_after), using(crate::proofs::Places::after_refusal))]
pub fn schedule_answer(
    found: Result<Scheduled, Refusal>,
    period: &mut u32,
    total: &mut u32,
    figure: &mut u32,
) -> u32
    ensures number { result ≡ (scheduled_answer (numbered found)).number }
    ensures period { period.new ≡ held_after 0 2 (scheduled_answer (numbered found)) period.old }
    ensures total { total.new ≡ held_after 0 3 (scheduled_answer (numbered found)) total.old }
    ensures figure { figure.new ≡ held_after 0 4 (scheduled_answer (numbered found)) figure.old }
{
    match found {
        Ok(Scheduled { plan, supply }) => {
            *period = plan.period;
            *total = plan.total;
            *figure = supply;
            0
        }
        Err(refusal) => refusal.number(),
    }
}

#[tactic(auto, unfolding(crate::specs::Answers::held_after), using(crate::proofs::Places::after_refusal))]
pub fn test_answer(
    found: Result<Scheduled, Unfit>,
    condition: &mut u32,
    k: &mut u32,
    period: &mut u32,
    total: &mut u32,
    supply: &mut u32,
) -> u32
    ensures number { result ≡ (tested_answer (told found)).number }
    ensures condition { condition.new ≡ held_after 7 0 (tested_answer (told found)) condition.old }
    ensures k { k.new ≡ held_after 0 1 (tested_answer (told found)) k.old }
    ensures period { period.new ≡ held_after 0 2 (tested_answer (told found)) period.old }
    ensures total { total.new ≡ held_after 0 3 (tested_answer (told found)) total.old }
    ensures supply { supply.new ≡ held_after 0 4 (tested_answer (told found)) supply.old }
{
    match found {
        Ok(passed) => {
            *k = passed.plan.count;
            *period = passed.plan.period;
            *total = passed.plan.total;
            *supply = passed.supply;
            0
        }
        Err(unfit) => failing_answer(unfit, condition),
    }
}

#[tactic(auto, unfolding(crate::specs::Answers::held_after), using(crate::proofs::Places::after_refusal))]
pub fn plan_answer(
    found: Result<Plan, Refusal>,
    k: &mut u32,
    period: &mut u32,
    total: &mut u32,
) -> u32
    ensures number { result ≡ (plan_answer (numbered found)).number }
    ensures k { k.new ≡ held_after 0 1 (plan_answer (numbered found)) k.old }
    ensures period { period.new ≡ held_after 0 2 (plan_answer (numbered found)) period.old }
    ensures total { total.new ≡ held_after 0 3 (plan_answer (numbered found)) total.old }
{
    match found {
        Ok(plan) => {
            *k = plan.count;
            *period = plan.period;
            *total = plan.total;
            0
        }
        Err(refusal) => refusal.number(),
    }
}

#[tactic(auto, unfolding(crate::specs::Answers::held_after), using(crate::proofs::Places::after_refusal))]
pub fn report_answer(found: Result<Report, Refusal>, minute: &mut u64, size: &mut u32) -> u32
    ensures number { result ≡ (report_answer (numbered found)).number }
    ensures minute { minute.new ≡ held_after 0 0 (report_answer (numbered found)) minute.old }
    ensures size { size.new ≡ held_after 0 1 (report_answer (numbered found)) size.old }
{
    match found {
        Ok(report) => {
            *minute = report.minute;
            *size = report.size;
            0
        }
        Err(refusal) => refusal.number(),
    }
}

#[tactic(auto, unfolding(crate::specs::Answers::held_after), using(crate::proofs::Places::after_refusal))]
pub fn contents_answer(
    found: Result<Contents, Refusal>,
    reports: &mut u32,
    records: &mut u64,
) -> u32
    ensures number { result ≡ (contents_answer (numbered found)).number }
    ensures reports { reports.new ≡ held_after 0 0 (contents_answer (numbered found)) reports.old }
    ensures records { records.new ≡ held_after 0 1 (contents_answer (numbered found)) records.old }
{
    match found {
        Ok(held) => {
            *reports = held.reports;
            *records = held.records;
            0
        }
        Err(refusal) => refusal.number(),
    }
}

#[tactic(auto, unfolding(crate::specs::Answers::held_after), using(crate::proofs::Places::after_refusal))]
pub fn bill_answer(found: Result<Bill, Refusal>, tenths: &mut u64, cents: &mut u64) -> u32
    ensures number { result ≡ (bill_answer (numbered found)).number }
    ensures tenths { tenths.new ≡ held_after 0 0 (bill_answer (numbered found)) tenths.old }
    ensures cents { cents.new ≡ held_after 0 1 (bill_answer (numbered found)) cents.old }
{
    match found {
        Ok(bill) => {
            *tenths = bill.tenths;
            *cents = bill.cents;
            0
        }
        Err(refusal) => refusal.number(),
    }
}

// The row is stored beside the number of the refusal that it shows.
#[tactic(auto, unfolding(crate::specs::Answers::held_or_value))]
pub fn judged_answer(found: Judged, first: &mut u32, reports: &mut u32) -> u32
    ensures number { result ≡ (judged_answer (answer_number found.answer) found.stretch).number }
    ensures first { first.new ≡ held_or_value 0 (judged_answer (answer_number found.answer) found.stretch) first.old }
    ensures reports { reports.new ≡ held_or_value 1 (judged_answer (answer_number found.answer) found.stretch) reports.old }
{
    if let Some(row) = found.stretch {
        *first = row.first;
        *reports = row.reports;
    }
    answer_number(found.answer)
}

// A margin that is there.
#[tactic(auto, unfolding(crate::specs::Answers::held_after))]
fn store_margin(margin: Option<Margin>, records: &mut u64, report: &mut u32)
    ensures records { records.new ≡ held_after 0 0 (yields (margin_values margin)) records.old }
    ensures report { report.new ≡ held_after 0 1 (yields (margin_values margin)) report.old }
{
    if let Some(m) = margin {
        *records = m.records;
        *report = m.report;
    }
}

#[tactic(auto, unfolding(crate::specs::Answers::held_after), using(crate::proofs::Places::after_refusal))]
pub fn margins_answer(
    found: Result<Margins, Refusal>,
    most: &mut u64,
    most_from: &mut u32,
    least: &mut u64,
    least_after: &mut u32,
) -> u32
    ensures number { result ≡ (fullest_answer (numbered found)).number }
    ensures most { most.new ≡ held_after 0 0 (fullest_answer (numbered found)) most.old }
    ensures most_from { most_from.new ≡ held_after 0 1 (fullest_answer (numbered found)) most_from.old }
    ensures least { least.new ≡ held_after 0 0 (thinnest_answer (numbered found)) least.old }
    ensures least_after { least_after.new ≡ held_after 0 1 (thinnest_answer (numbered found)) least_after.old }
{
    match found {
        Ok(margins) => {
            store_margin(margins.fullest, most, most_from);
            store_margin(margins.thinnest, least, least_after);
            0
        }
        Err(refusal) => refusal.number(),
    }
}

#[tactic(auto, unfolding(crate::specs::Answers::held_after), using(crate::proofs::Places::after_refusal))]
pub fn tolerant_answer(
    found: Result<Late<Plan>, Refusal>,
    lateness: &mut u32,
    k: &mut u32,
    period: &mut u32,
    total: &mut u32,
) -> u32
    ensures number { result ≡ (tolerant_answer (numbered found)).number }
    ensures lateness { lateness.new ≡ held_after 0 4 (tolerant_answer (numbered found)) lateness.old }
    ensures k { k.new ≡ held_after 0 1 (tolerant_answer (numbered found)) k.old }
    ensures period { period.new ≡ held_after 0 2 (tolerant_answer (numbered found)) period.old }
    ensures total { total.new ≡ held_after 0 3 (tolerant_answer (numbered found)) total.old }
{
    match found {
        Ok(most) => {
            *lateness = most.lateness;
            *k = most.found.count;
            *period = most.found.period;
            *total = most.found.total;
            0
        }
        Err(refusal) => refusal.number(),
    }
}

#[tactic(auto, unfolding(crate::specs::Answers::held_after), using(crate::proofs::Places::after_refusal))]
pub fn in_force_answer(found: Result<InForce, Refusal>, which: &mut u32) -> u32
    ensures number { result ≡ (in_force_answer (numbered found)).number }
    ensures which { which.new ≡ held_after 0 0 (in_force_answer (numbered found)) which.old }
{
    match found {
        Ok(file) => {
            *which = file as u32;
            0
        }
        Err(refusal) => refusal.number(),
    }
}

// An answer of one value, whatever its type: a report's number, a calendar minute, a duty minute, how many pairs a normal form has.
// `value_number` and `value_place` of proofs/Places.antt say of numbers that this is `value_answer`.
#[tactic(auto, unfolding(crate::specs::Answers::held_after), using(crate::proofs::Places::after_refusal))]
pub fn value_answer<T: Copy>(found: Result<T, Refusal>, place: &mut T) -> u32
    ensures number { result ≡ answer_number found }
    ensures place { place.new ≡ result_unwrap_or found place.old }
{
    match found {
        Ok(value) => {
            *place = value;
            0
        }
        Err(refusal) => refusal.number(),
    }
}
