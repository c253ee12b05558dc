// What others call: the loader's call and the C interface of include/maxeltu.h, thin over the crates below. Every call answers 0 or the
// number of the refusal; a lent place is written only where the answer is 0, the two places of a margin only for a rate that is there, the
// condition of an inconsistent specification only where the answer is 7, the two places of a shortest stretch only where it is 15 or 16, and
// the budget left after every offer to a meter that has one to tell. A call that plans, tests, checks, bills or tells a cycle's leeway goes on
// from the reader's answer by `let .. else`, and from a plan that is named likewise: the form that document 01 asks for. A plan comes as four
// numbers, as C has them. A call that checks, bills, reads or writes a cycle, or tells its margins or its tolerance, has 1,024 words of its
// own, what 512 pairs take, since a box has no heap; a normal form is found where the pairs lie.
#![tactic(auto)]

ghost use Rattle.std.specs.Prelude.{◌≡◌, length};
ghost use Rattle.spec.specs.Refusals.{numbered};
ghost use Rattle.spec.specs.File.{if_read, read_spec};
ghost use Rattle.cycle.specs.Check.{check_file_number};
ghost use Rattle.cycle.specs.LateCheck.{late_file_number};
ghost use Rattle.cyclefile.specs.File.{file_answer, read_cycle, Reads, Writes};
ghost use Rattle.planfile.specs.PlanFile.{file_after};
ghost use Rattle.families.specs.declared.Family.TheVariants.{MinimumDemand, MaximumSupply};
ghost use Rattle.normal.specs.Answers.{places_after};
ghost use Rattle.meter.specs.Ring.{fresh, stepped, told_or};
ghost use Rattle.duty.specs.Weeks.{table_number};
ghost use Rattle.duty.specs.Minutes.{table_of};
ghost use Rattle.answers.specs.Answers.{value_answer, held_after, held_or_value};
ghost use Rattle.maxeltu.specs.Verdict.{verdict_of};
ghost use Rattle.maxeltu.specs.Calls.{consistency_call, schedule_call, test_call, even_call, box_call, tolerant_call, plan_named, report_call, last_call, nearest_call, between_call, stretch_call, fullest_call, thinnest_call, tolerance_call, plan_cost_call, plan_file_call, cycle_cost_call, normal_call, in_force_call, calendar_call, duty_call};

use cycle::margins;
use cyclefile::reading;
use families::Family;
use meter::Meter;
use pairs::Pair;
use plan::{Kind, Plan};
use spec::refusal::{Refusal, answer_number};

// The loader's call: 0 exactly when both files are read and the cycle is passed, or the first number met, the specification's first.
#[tactic(auto, unfolding(crate::specs::Verdict::verdict_of))]
pub fn maxeltu_verdict(spec_bytes: &[u8], cycle_bytes: &[u8]) -> u32
    ensures { result ≡ verdict_of spec_bytes.now cycle_bytes.now }
{
    let read = spec::read_spec(spec_bytes);
    let Ok(s) = read else {
        return answer_number(read);
    };
    let mut words = [0u16; 1024];
    match reading::read(cycle_bytes, pairs::MOST_PAIRS, &mut words) {
        Ok(count) => answer_number(cycle::check(s, &words[..2 * count])),
        Err(refusal) => refusal.number(),
    }
}

// Whether a specification's file is consistent.
#[tactic(auto, unfolding(crate::specs::Calls::consistency_call), using(answers::proofs::Places::after_refusal))]
pub fn maxeltu_consistency(spec_bytes: &[u8], condition: &mut u32) -> u32
    ensures { (result ≡ (consistency_call spec_bytes.now).number)
        × (condition.new ≡ held_after 7 0 (consistency_call spec_bytes.now) condition.old) }
{
    let read = spec::read_spec(spec_bytes);
    let Ok(s) = read else {
        return answer_number(read);
    };
    answers::consistency_answer(consistency::consistency_of(s), condition)
}

// A family's schedule with k reports of a specification's file, and its supply figure.
#[tactic(auto, unfolding(crate::specs::Calls::schedule_call), using(answers::proofs::Places::after_refusal))]
fn schedule(
    f: Family,
    spec_bytes: &[u8],
    k: u32,
    period: &mut u32,
    total: &mut u32,
    figure: &mut u32,
) -> u32
    ensures { (result ≡ (schedule_call f spec_bytes.now k).number)
        × (period.new ≡ held_after 0 2 (schedule_call f spec_bytes.now k) period.old)
        × (total.new ≡ held_after 0 3 (schedule_call f spec_bytes.now k) total.old)
        × (figure.new ≡ held_after 0 4 (schedule_call f spec_bytes.now k) figure.old) }
{
    let read = spec::read_spec(spec_bytes);
    let Ok(s) = read else {
        return answer_number(read);
    };
    answers::schedule_answer(families::schedule_for(f, s, k), period, total, figure)
}

// The minimum demand schedule with k reports of a specification's file, and its required supply.
pub fn maxeltu_min_demand(
    spec_bytes: &[u8],
    k: u32,
    period: &mut u32,
    total: &mut u32,
    required: &mut u32,
) -> u32
    ensures { (result ≡ (schedule_call MinimumDemand spec_bytes.now k).number)
        × (period.new ≡ held_after 0 2 (schedule_call MinimumDemand spec_bytes.now k) period.old)
        × (total.new ≡ held_after 0 3 (schedule_call MinimumDemand spec_bytes.now k) total.old)
        × (required.new ≡ held_after 0 4 (schedule_call MinimumDemand spec_bytes.now k) required.old) }
{
    schedule(
        Family::MinimumDemand,
        spec_bytes,
        k,
        period,
        total,
        required,
    )
}

// The maximum supply schedule with k reports of a specification's file, and its available supply.
pub fn maxeltu_max_supply(
    spec_bytes: &[u8],
    k: u32,
    period: &mut u32,
    total: &mut u32,
    available: &mut u32,
) -> u32
    ensures { (result ≡ (schedule_call MaximumSupply spec_bytes.now k).number)
        × (period.new ≡ held_after 0 2 (schedule_call MaximumSupply spec_bytes.now k) period.old)
        × (total.new ≡ held_after 0 3 (schedule_call MaximumSupply spec_bytes.now k) total.old)
        × (available.new ≡ held_after 0 4 (schedule_call MaximumSupply spec_bytes.now k) available.old) }
{
    schedule(
        Family::MaximumSupply,
        spec_bytes,
        k,
        period,
        total,
        available,
    )
}

// The test of a specification's file: the plan that it passes, with its required or available supply.
#[tactic(auto, unfolding(crate::specs::Calls::test_call), using(answers::proofs::Places::after_refusal))]
pub fn maxeltu_test(
    spec_bytes: &[u8],
    condition: &mut u32,
    k: &mut u32,
    period: &mut u32,
    total: &mut u32,
    supply: &mut u32,
) -> u32
    ensures { (result ≡ (test_call spec_bytes.now).number)
        × (condition.new ≡ held_after 7 0 (test_call spec_bytes.now) condition.old)
        × (k.new ≡ held_after 0 1 (test_call spec_bytes.now) k.old)
        × (period.new ≡ held_after 0 2 (test_call spec_bytes.now) period.old)
        × (total.new ≡ held_after 0 3 (test_call spec_bytes.now) total.old)
        × (supply.new ≡ held_after 0 4 (test_call spec_bytes.now) supply.old) }
{
    let read = spec::read_spec(spec_bytes);
    let Ok(s) = read else {
        return answer_number(read);
    };
    answers::test_answer(feasibility::test(s), condition, k, period, total, supply)
}

// The even plan of a specification's file.
#[tactic(auto, unfolding(crate::specs::Calls::even_call), using(answers::proofs::Places::after_refusal))]
pub fn maxeltu_even_plan(spec_bytes: &[u8], k: &mut u32, period: &mut u32, total: &mut u32) -> u32
    ensures { (result ≡ (even_call spec_bytes.now).number)
        × (k.new ≡ held_after 0 1 (even_call spec_bytes.now) k.old)
        × (period.new ≡ held_after 0 2 (even_call spec_bytes.now) period.old)
        × (total.new ≡ held_after 0 3 (even_call spec_bytes.now) total.old) }
{
    let read = spec::read_spec(spec_bytes);
    let Ok(s) = read else {
        return answer_number(read);
    };
    answers::plan_answer(even::even_plan(s), k, period, total)
}

// The box plan of a specification's file, for reports that may arrive up to `lateness` minutes late.
#[tactic(auto, unfolding(crate::specs::Calls::box_call), using(answers::proofs::Places::after_refusal))]
pub fn maxeltu_box_plan(
    spec_bytes: &[u8],
    lateness: u32,
    k: &mut u32,
    period: &mut u32,
    total: &mut u32,
) -> u32
    ensures { (result ≡ (box_call spec_bytes.now lateness).number)
        × (k.new ≡ held_after 0 1 (box_call spec_bytes.now lateness) k.old)
        × (period.new ≡ held_after 0 2 (box_call spec_bytes.now lateness) period.old)
        × (total.new ≡ held_after 0 3 (box_call spec_bytes.now lateness) total.old) }
{
    let read = spec::read_spec(spec_bytes);
    let Ok(s) = read else {
        return answer_number(read);
    };
    answers::plan_answer(boxplan::box_plan(s, lateness), k, period, total)
}

// The most tolerant plan of a specification's file: the largest lateness with a box plan, and that plan.
#[tactic(auto, unfolding(crate::specs::Calls::tolerant_call), using(answers::proofs::Places::after_refusal))]
pub fn maxeltu_tolerant_plan(
    spec_bytes: &[u8],
    lateness: &mut u32,
    k: &mut u32,
    period: &mut u32,
    total: &mut u32,
) -> u32
    ensures { (result ≡ (tolerant_call spec_bytes.now).number)
        × (lateness.new ≡ held_after 0 4 (tolerant_call spec_bytes.now) lateness.old)
        × (k.new ≡ held_after 0 1 (tolerant_call spec_bytes.now) k.old)
        × (period.new ≡ held_after 0 2 (tolerant_call spec_bytes.now) period.old)
        × (total.new ≡ held_after 0 3 (tolerant_call spec_bytes.now) total.old) }
{
    let read = spec::read_spec(spec_bytes);
    let Ok(s) = read else {
        return answer_number(read);
    };
    answers::tolerant_answer(tolerance::tolerant_plan(s), lateness, k, period, total)
}

// The plan that four numbers name: kind 0 is well-formed, 1 even; of no other kind is there a proper plan.
#[tactic(auto, unfolding(crate::specs::Calls::plan_named), using(answers::proofs::Places::after_refusal))]
fn plan_named(kind: u32, k: u32, period: u32, total: u32) -> Result<Plan, Refusal>
    ensures { numbered result ≡ plan_named kind k period total }
{
    Ok(Plan {
        kind: Kind::try_from(kind)?,
        count: k,
        period,
        total,
    })
}

// Minute and size of report i of a plan.
#[tactic(auto, unfolding(crate::specs::Calls::report_call), using(answers::proofs::Places::after_refusal))]
pub fn maxeltu_report(
    kind: u32,
    k: u32,
    period: u32,
    total: u32,
    i: u32,
    minute: &mut u64,
    size: &mut u32,
) -> u32
    ensures { (result ≡ (report_call kind k period total i).number)
        × (minute.new ≡ held_after 0 0 (report_call kind k period total i) minute.old)
        × (size.new ≡ held_after 0 1 (report_call kind k period total i) size.old) }
{
    let named = plan_named(kind, k, period, total);
    let Ok(p) = named else {
        return answer_number(named);
    };
    answers::report_answer(p.report(i), minute, size)
}

// The last report of a plan at or before a minute.
#[tactic(auto, unfolding(crate::specs::Calls::last_call), using(answers::proofs::Places::after_refusal, answers::proofs::Places::value_number, answers::proofs::Places::value_place))]
pub fn maxeltu_last_report(
    kind: u32,
    k: u32,
    period: u32,
    total: u32,
    minute: u32,
    number: &mut u32,
) -> u32
    ensures { (result ≡ (last_call kind k period total minute).number)
        × (number.new ≡ held_after 0 0 (last_call kind k period total minute) number.old) }
{
    let named = plan_named(kind, k, period, total);
    let Ok(p) = named else {
        return answer_number(named);
    };
    answers::value_answer(p.last_report(minute), number)
}

// The report of a plan that is nearest to a minute, the earlier of two equally near.
#[tactic(auto, unfolding(crate::specs::Calls::nearest_call), using(answers::proofs::Places::after_refusal, answers::proofs::Places::value_number, answers::proofs::Places::value_place))]
pub fn maxeltu_nearest_report(
    kind: u32,
    k: u32,
    period: u32,
    total: u32,
    minute: u32,
    number: &mut u32,
) -> u32
    ensures { (result ≡ (nearest_call kind k period total minute).number)
        × (number.new ≡ held_after 0 0 (nearest_call kind k period total minute) number.old) }
{
    let named = plan_named(kind, k, period, total);
    let Ok(p) = named else {
        return answer_number(named);
    };
    answers::value_answer(p.nearest_report(minute), number)
}

// How many reports and records of a plan lie from minute a up to but not including b.
#[tactic(auto, unfolding(crate::specs::Calls::between_call), using(answers::proofs::Places::after_refusal))]
pub fn maxeltu_between(
    kind: u32,
    k: u32,
    period: u32,
    total: u32,
    a: u32,
    b: u32,
    reports: &mut u32,
    records: &mut u64,
) -> u32
    ensures { (result ≡ (between_call kind k period total a b).number)
        × (reports.new ≡ held_after 0 0 (between_call kind k period total a b) reports.old)
        × (records.new ≡ held_after 0 1 (between_call kind k period total a b) records.old) }
{
    let named = plan_named(kind, k, period, total);
    let Ok(p) = named else {
        return answer_number(named);
    };
    answers::contents_answer(p.between(a, b), reports, records)
}

// What the first reports of a plan cost.
#[tactic(auto, unfolding(crate::specs::Calls::plan_cost_call), using(answers::proofs::Places::after_refusal))]
pub fn maxeltu_plan_cost(
    kind: u32,
    k: u32,
    period: u32,
    total: u32,
    reports: u32,
    tenths: &mut u64,
    cents: &mut u64,
) -> u32
    ensures { (result ≡ (plan_cost_call kind k period total reports).number)
        × (tenths.new ≡ held_after 0 0 (plan_cost_call kind k period total reports) tenths.old)
        × (cents.new ≡ held_after 0 1 (plan_cost_call kind k period total reports) cents.old) }
{
    let named = plan_named(kind, k, period, total);
    let Ok(p) = named else {
        return answer_number(named);
    };
    answers::bill_answer(cost::plan_cost(p, reports), tenths, cents)
}

// The number of a lent list of pairs against a specification's file, on time.
pub fn maxeltu_check_cycle(spec_bytes: &[u8], pairs: &[Pair]) -> u32
    ensures { result ≡ check_file_number (read_spec spec_bytes.now) pairs.now }
{
    maxeltu_check_late(spec_bytes, pairs, 0)
}

// The same where each report may arrive up to `lateness` minutes late. The list is unpacked once, into the one array that is held, and the
// flat check called.
#[tactic(auto, unfolding(cycle::specs::LateCheck::late_file_number))]
pub fn maxeltu_check_late(spec_bytes: &[u8], pairs: &[Pair], lateness: u32) -> u32
    ensures { result ≡ late_file_number (read_spec spec_bytes.now) lateness pairs.now }
{
    let read = spec::read_spec(spec_bytes);
    let Ok(s) = read else {
        return answer_number(read);
    };
    let mut words = [0u16; 1024];
    let used = pairs::unpack(pairs, &mut words);
    answer_number(cycle::check_late(s, &words[..used], lateness))
}

// The same check on time, with the shortest stretch that shows a 15 or a 16.
#[tactic(auto, unfolding(crate::specs::Calls::stretch_call, answers::specs::Answers::held_or_value))]
pub fn maxeltu_shortest_stretch(
    spec_bytes: &[u8],
    pairs: &[Pair],
    first: &mut u32,
    reports: &mut u32,
) -> u32
    ensures { (result ≡ (stretch_call spec_bytes.now pairs.now).number)
        × (first.new ≡ held_or_value 0 (stretch_call spec_bytes.now pairs.now) first.old)
        × (reports.new ≡ held_or_value 1 (stretch_call spec_bytes.now pairs.now) reports.old) }
{
    let read = spec::read_spec(spec_bytes);
    let Ok(s) = read else {
        return answer_number(read);
    };
    let mut words = [0u16; 1024];
    let used = pairs::unpack(pairs, &mut words);
    answers::judged_answer(cycle::shortest_stretch(s, &words[..used]), first, reports)
}

// The most records that any R minutes of a lent list of pairs hold, and the least that any P minutes hold, each with its report.
#[tactic(auto, unfolding(crate::specs::Calls::fullest_call, crate::specs::Calls::thinnest_call), using(answers::proofs::Places::after_refusal))]
pub fn maxeltu_margins(
    spec_bytes: &[u8],
    pairs: &[Pair],
    most: &mut u64,
    most_from: &mut u32,
    least: &mut u64,
    least_after: &mut u32,
) -> u32
    ensures { (result ≡ (fullest_call spec_bytes.now pairs.now).number)
        × (most.new ≡ held_after 0 0 (fullest_call spec_bytes.now pairs.now) most.old)
        × (most_from.new ≡ held_after 0 1 (fullest_call spec_bytes.now pairs.now) most_from.old)
        × (least.new ≡ held_after 0 0 (thinnest_call spec_bytes.now pairs.now) least.old)
        × (least_after.new ≡ held_after 0 1 (thinnest_call spec_bytes.now pairs.now) least_after.old) }
{
    let read = spec::read_spec(spec_bytes);
    let Ok(s) = read else {
        return answer_number(read);
    };
    let mut words = [0u16; 1024];
    let used = pairs::unpack(pairs, &mut words);
    let found = margins::margins_of(s, &words[..used]);
    answers::margins_answer(found, most, most_from, least, least_after)
}

// How late the reports of a lent list of pairs may be.
#[tactic(auto, unfolding(crate::specs::Calls::tolerance_call), using(answers::proofs::Places::after_refusal, answers::proofs::Places::value_number, answers::proofs::Places::value_place))]
pub fn maxeltu_tolerance(spec_bytes: &[u8], pairs: &[Pair], lateness: &mut u32) -> u32
    ensures { (result ≡ (tolerance_call spec_bytes.now pairs.now).number)
        × (lateness.new ≡ held_after 0 0 (tolerance_call spec_bytes.now pairs.now) lateness.old) }
{
    let read = spec::read_spec(spec_bytes);
    let Ok(s) = read else {
        return answer_number(read);
    };
    let mut words = [0u16; 1024];
    let used = pairs::unpack(pairs, &mut words);
    answers::value_answer(tolerance::tolerance(s, &words[..used]), lateness)
}

// What the first reports of a lent list of pairs cost, against a specification's file. The list is unpacked once.
#[tactic(auto, unfolding(crate::specs::Calls::cycle_cost_call), using(answers::proofs::Places::after_refusal))]
pub fn maxeltu_cycle_cost(
    spec_bytes: &[u8],
    pairs: &[Pair],
    reports: u32,
    tenths: &mut u64,
    cents: &mut u64,
) -> u32
    ensures { (result ≡ (cycle_cost_call spec_bytes.now pairs.now reports).number)
        × (tenths.new ≡ held_after 0 0 (cycle_cost_call spec_bytes.now pairs.now reports) tenths.old)
        × (cents.new ≡ held_after 0 1 (cycle_cost_call spec_bytes.now pairs.now reports) cents.old) }
{
    let read = spec::read_spec(spec_bytes);
    let Ok(s) = read else {
        return answer_number(read);
    };
    let mut words = [0u16; 1024];
    let used = pairs::unpack(pairs, &mut words);
    answers::bill_answer(cost::cycle_cost(s, &words[..used], reports), tenths, cents)
}

// The normal form of a lent list of pairs, stored in another.
#[tactic(auto, unfolding(crate::specs::Calls::normal_call), using(answers::proofs::Places::after_refusal, answers::proofs::Places::value_number, answers::proofs::Places::value_place))]
pub fn maxeltu_normal_form(pairs: &[Pair], normal: &mut [Pair], normal_count: &mut u32) -> u32
    ensures { (result ≡ (normal_call pairs.now (length normal.old)).number)
        × (normal.new ≡ places_after pairs.now normal.old)
        × (normal_count.new ≡ held_after 0 0 (normal_call pairs.now (length normal.old)) normal_count.old) }
{
    answers::value_answer(normal::normal_form(pairs, normal), normal_count)
}

// Reads a cycle file into a lent list of pairs. Nothing is stored there before the whole file is read.
pub fn maxeltu_read_cycle(file: &[u8], places: &mut [Pair], count: &mut u32) -> u32
    ensures { Reads (read_cycle (length places.old) file.now) places.old count.old result places.new count.new }
{
    let mut words = [0u16; 1024];
    match reading::read(file, places.len(), &mut words) {
        Ok(n) => {
            pairs::pack(&words[..2 * n], places);
            // It fits, as is proved: `try_from` would bring an error that never comes.
            *count = n as u32;
            0
        }
        Err(refused) => refused.number(),
    }
}

// Writes a lent list of pairs as a cycle file.
pub fn maxeltu_write_cycle(pairs: &[Pair], file: &mut [u8], written: &mut u32) -> u32
    ensures { Writes pairs.now file.old written.old result file.new written.new }
{
    let mut words = [0u16; 1024];
    let used = pairs::unpack(pairs, &mut words);
    // Stored here and not by `value_answer`: a length is a usize, and the place has 32 bits.
    match writer::write(&words[..used], file) {
        Ok(length) => {
            // It fits, as is proved: `try_from` would bring an error that never comes.
            *written = length as u32;
            0
        }
        Err(refusal) => refusal.number(),
    }
}

// Writes a plan out as a cycle file.
#[tactic(auto, unfolding(crate::specs::Calls::plan_file_call), using(answers::proofs::Places::after_refusal, answers::proofs::Places::value_number, answers::proofs::Places::value_place))]
pub fn maxeltu_write_plan(
    kind: u32,
    k: u32,
    period: u32,
    total: u32,
    file: &mut [u8],
    written: &mut u32,
) -> u32
    ensures { (result ≡ (value_answer (file_answer (plan_file_call kind k period total (length file.old)))).number)
        × (file.new ≡ file_after (plan_file_call kind k period total (length file.old)) file.old)
        × (written.new ≡ held_after 0 0 (value_answer (file_answer (plan_file_call kind k period total (length file.old)))) written.old) }
{
    let named = plan_named(kind, k, period, total);
    let Ok(p) = named else {
        return answer_number(named);
    };
    answers::value_answer(planfile::write(p, file), written)
}

// Which of two dated cycle files is in force: 1 the first, 2 the second.
#[tactic(auto, unfolding(crate::specs::Calls::in_force_call))]
pub fn maxeltu_in_force(first: &[u8], second: &[u8], which: &mut u32) -> u32
    ensures { (result ≡ (in_force_call first.now second.now).number)
        × (which.new ≡ held_after 0 0 (in_force_call first.now second.now) which.old) }
{
    answers::in_force_answer(dated::in_force(first, second), which)
}

// Makes a meter for a specification's file: a lent one is written only where there is no refusal.
pub fn maxeltu_make_meter(spec_bytes: &[u8], meter: &mut Meter) -> u32
    ensures { (result ≡ if_read (read_spec spec_bytes.now) (λ spec. 0) (λ n. n))
        × (meter.new ≡ if_read (read_spec spec_bytes.now) fresh (λ n. meter.old)) }
{
    answers::value_answer(meter::make_from(spec_bytes), meter)
}

// One offer to a lent meter, which is written only where it is accepted. The budget left is told wherever there is a supply rate.
pub fn maxeltu_offer(meter: &mut Meter, minute: u32, size: u32, left: &mut u32) -> u32
    ensures { (result ≡ (stepped meter.old minute size).answer.number)
        × (meter.new ≡ (stepped meter.old minute size).meter)
        × (left.new ≡ told_or (stepped meter.old minute size).answer.left left.old) }
{
    meter::tell(meter::offer(meter, minute, size), left)
}

// Whether numbers are a week table that opens a minute.
pub fn maxeltu_week_table(table: &[u16]) -> u32
    ensures { result ≡ table_number (table_of table.now) }
{
    answer_number(duty::check_table(duty::table_of(table)))
}

// The calendar minute of a duty minute.
#[tactic(auto, unfolding(crate::specs::Calls::calendar_call), using(answers::proofs::Places::after_refusal, answers::proofs::Places::value_number, answers::proofs::Places::value_place))]
pub fn maxeltu_calendar_minute(table: &[u16], duty: u32, calendar: &mut u64) -> u32
    ensures { (result ≡ (calendar_call table.now duty).number)
        × (calendar.new ≡ held_after 0 0 (calendar_call table.now duty) calendar.old) }
{
    answers::value_answer(duty::calendar_minute(duty::table_of(table), duty), calendar)
}

// The duty minute of an open calendar minute.
#[tactic(auto, unfolding(crate::specs::Calls::duty_call), using(answers::proofs::Places::after_refusal, answers::proofs::Places::value_number, answers::proofs::Places::value_place))]
pub fn maxeltu_duty_minute(table: &[u16], calendar: u32, duty: &mut u32) -> u32
    ensures { (result ≡ (duty_call table.now calendar).number)
        × (duty.new ≡ held_after 0 0 (duty_call table.now calendar) duty.old) }
{
    answers::value_answer(duty::duty_minute(duty::table_of(table), calendar), duty)
}
