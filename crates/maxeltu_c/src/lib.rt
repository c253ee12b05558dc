// The C interface of include/maxeltu.h: each call of the crate `maxeltu` as a symbol of its own, with the same clauses. The static library is built
// from this crate; a library for other crates cannot be one too.
#![tactic(auto)]

ghost use Rattle.std.specs.Prelude.{◌≡◌, ◌/◌, min, length};
ghost use Rattle.spec.specs.File.{if_read, read_spec};
ghost use Rattle.cycle.specs.Check.{check_file_number};
ghost use Rattle.cycle.specs.LateCheck.{late_file_number};
ghost use Rattle.pairs.specs.Pairs.{flatten, pairs_of, laid_over};
ghost use Rattle.cyclefile.specs.File.{file_answer, read_cycle, stored_pairs, Reads, Writes};
ghost use Rattle.planfile.specs.PlanFile.{file_after};
ghost use Rattle.families.specs.declared.Family.TheVariants.{MinimumDemand, MaximumSupply};
ghost use Rattle.normal.specs.Answers.{places_after};
ghost use Rattle.meter.specs.Ring.{fresh, stepped, told_or};
ghost use Rattle.duty.specs.Weeks.{table_number};
ghost use Rattle.duty.specs.Minutes.{table_of};
ghost use Rattle.answers.specs.Answers.{value_answer, held_after, held_or_value};
ghost use Rattle.maxeltu.specs.Verdict.{verdict_of};
ghost use Rattle.maxeltu.specs.Calls.{consistency_call, schedule_call, test_call, even_call, box_call, tolerant_call, plan_named, report_call, last_call, nearest_call, between_call, stretch_call, fullest_call, thinnest_call, tolerance_call, plan_cost_call, plan_file_call, cycle_cost_call, normal_call, in_force_call, calendar_call, duty_call};

use meter::Meter;
use pairs::Pair;

// The loader's call: 0 exactly when both files are read and the cycle is passed, or the first number met, the specification's first.
#[unsafe(no_mangle)]
pub extern "C" fn maxeltu_verdict(spec_bytes: &[u8], cycle_bytes: &[u8]) -> u32
    ensures { result ≡ verdict_of spec_bytes.now cycle_bytes.now }
{
    maxeltu::maxeltu_verdict(spec_bytes, cycle_bytes)
}

// Whether a specification's file is consistent.
#[unsafe(no_mangle)]
pub extern "C" fn maxeltu_consistency(spec_bytes: &[u8], condition: &mut u32) -> u32
    ensures { (result ≡ (consistency_call spec_bytes.now).number)
        × (condition.new ≡ held_after 7 0 (consistency_call spec_bytes.now) condition.old) }
{
    maxeltu::maxeltu_consistency(spec_bytes, condition)
}

// The minimum demand schedule with k reports of a specification's file, and its required supply.
#[unsafe(no_mangle)]
pub extern "C" fn maxeltu_min_demand(
    spec_bytes: &[u8],
    k: u32,
    period: &mut u32,
    total: &mut u32,
    required: &mut u32,
) -> u32
    ensures { (result ≡ (schedule_call MinimumDemand spec_bytes.now k).number)
        × (period.new ≡ held_after 0 2 (schedule_call MinimumDemand spec_bytes.now k) period.old)
        × (total.new ≡ held_after 0 3 (schedule_call MinimumDemand spec_bytes.now k) total.old)
        × (required.new ≡ held_after 0 4 (schedule_call MinimumDemand spec_bytes.now k) required.old) }
{
    maxeltu::maxeltu_min_demand(spec_bytes, k, period, total, required)
}

// The maximum supply schedule with k reports of a specification's file, and its available supply.
#[unsafe(no_mangle)]
pub extern "C" fn maxeltu_max_supply(
    spec_bytes: &[u8],
    k: u32,
    period: &mut u32,
    total: &mut u32,
    available: &mut u32,
) -> u32
    ensures { (result ≡ (schedule_call MaximumSupply spec_bytes.now k).number)
        × (period.new ≡ held_after 0 2 (schedule_call MaximumSupply spec_bytes.now k) period.old)
        × (total.new ≡ held_after 0 3 (schedule_call MaximumSupply spec_bytes.now k) total.old)
        × (available.new ≡ held_after 0 4 (schedule_call MaximumSupply spec_bytes.now k) available.old) }
{
    maxeltu::maxeltu_max_supply(spec_bytes, k, period, total, available)
}

// The test of a specification's file: the plan that it passes, with its required or available supply.
#[unsafe(no_mangle)]
pub extern "C" fn maxeltu_test(
    spec_bytes: &[u8],
    condition: &mut u32,
    k: &mut u32,
    period: &mut u32,
    total: &mut u32,
    supply: &mut u32,
) -> u32
    ensures { (result ≡ (test_call spec_bytes.now).number)
        × (condition.new ≡ held_after 7 0 (test_call spec_bytes.now) condition.old)
        × (k.new ≡ held_after 0 1 (test_call spec_bytes.now) k.old)
        × (period.new ≡ held_after 0 2 (test_call spec_bytes.now) period.old)
        × (total.new ≡ held_after 0 3 (test_call spec_bytes.now) total.old)
        × (supply.new ≡ held_after 0 4 (test_call spec_bytes.now) supply.old) }
{
    maxeltu::maxeltu_test(spec_bytes, condition, k, period, total, supply)
}

// The even plan of a specification's file.
#[unsafe(no_mangle)]
pub extern "C" fn maxeltu_even_plan(
    spec_bytes: &[u8],
    k: &mut u32,
    period: &mut u32,
    total: &mut u32,
) -> u32
    ensures { (result ≡ (even_call spec_bytes.now).number)
        × (k.new ≡ held_after 0 1 (even_call spec_bytes.now) k.old)
        × (period.new ≡ held_after 0 2 (even_call spec_bytes.now) period.old)
        × (total.new ≡ held_after 0 3 (even_call spec_bytes.now) total.old) }
{
    maxeltu::maxeltu_even_plan(spec_bytes, k, period, total)
}

// The box plan of a specification's file, for reports that may arrive up to `lateness` minutes late.
#[unsafe(no_mangle)]
pub extern "C" fn maxeltu_box_plan(
    spec_bytes: &[u8],
    lateness: u32,
    k: &mut u32,
    period: &mut u32,
    total: &mut u32,
) -> u32
    ensures { (result ≡ (box_call spec_bytes.now lateness).number)
        × (k.new ≡ held_after 0 1 (box_call spec_bytes.now lateness) k.old)
        × (period.new ≡ held_after 0 2 (box_call spec_bytes.now lateness) period.old)
        × (total.new ≡ held_after 0 3 (box_call spec_bytes.now lateness) total.old) }
{
    maxeltu::maxeltu_box_plan(spec_bytes, lateness, k, period, total)
}

// The most tolerant plan of a specification's file: the largest lateness with a box plan, and that plan.
#[unsafe(no_mangle)]
pub extern "C" fn maxeltu_tolerant_plan(
    spec_bytes: &[u8],
    lateness: &mut u32,
    k: &mut u32,
    period: &mut u32,
    total: &mut u32,
) -> u32
    ensures { (result ≡ (tolerant_call spec_bytes.now).number)
        × (lateness.new ≡ held_after 0 4 (tolerant_call spec_bytes.now) lateness.old)
        × (k.new ≡ held_after 0 1 (tolerant_call spec_bytes.now) k.old)
        × (period.new ≡ held_after 0 2 (tolerant_call spec_bytes.now) period.old)
        × (total.new ≡ held_after 0 3 (tolerant_call spec_bytes.now) total.old) }
{
    maxeltu::maxeltu_tolerant_plan(spec_bytes, lateness, k, period, total)
}

// Minute and size of report i of a plan.
#[unsafe(no_mangle)]
pub extern "C" fn maxeltu_report(
    kind: u32,
    k: u32,
    period: u32,
    total: u32,
    i: u32,
    minute: &mut u64,
    size: &mut u32,
) -> u32
    ensures { (result ≡ (report_call kind k period total i).number)
        × (minute.new ≡ held_after 0 0 (report_call kind k period total i) minute.old)
        × (size.new ≡ held_after 0 1 (report_call kind k period total i) size.old) }
{
    maxeltu::maxeltu_report(kind, k, period, total, i, minute, size)
}

// The last report of a plan at or before a minute.
#[unsafe(no_mangle)]
pub extern "C" fn maxeltu_last_report(
    kind: u32,
    k: u32,
    period: u32,
    total: u32,
    minute: u32,
    number: &mut u32,
) -> u32
    ensures { (result ≡ (last_call kind k period total minute).number)
        × (number.new ≡ held_after 0 0 (last_call kind k period total minute) number.old) }
{
    maxeltu::maxeltu_last_report(kind, k, period, total, minute, number)
}

// The report of a plan that is nearest to a minute, the earlier of two equally near.
#[unsafe(no_mangle)]
pub extern "C" fn maxeltu_nearest_report(
    kind: u32,
    k: u32,
    period: u32,
    total: u32,
    minute: u32,
    number: &mut u32,
) -> u32
    ensures { (result ≡ (nearest_call kind k period total minute).number)
        × (number.new ≡ held_after 0 0 (nearest_call kind k period total minute) number.old) }
{
    maxeltu::maxeltu_nearest_report(kind, k, period, total, minute, number)
}

// How many reports and records of a plan lie from minute a up to but not including b.
#[unsafe(no_mangle)]
pub extern "C" fn maxeltu_between(
    kind: u32,
    k: u32,
    period: u32,
    total: u32,
    a: u32,
    b: u32,
    reports: &mut u32,
    records: &mut u64,
) -> u32
    ensures { (result ≡ (between_call kind k period total a b).number)
        × (reports.new ≡ held_after 0 0 (between_call kind k period total a b) reports.old)
        × (records.new ≡ held_after 0 1 (between_call kind k period total a b) records.old) }
{
    maxeltu::maxeltu_between(kind, k, period, total, a, b, reports, records)
}

// What the first reports of a plan cost.
#[unsafe(no_mangle)]
pub extern "C" fn maxeltu_plan_cost(
    kind: u32,
    k: u32,
    period: u32,
    total: u32,
    reports: u32,
    tenths: &mut u64,
    cents: &mut u64,
) -> u32
    ensures { (result ≡ (plan_cost_call kind k period total reports).number)
        × (tenths.new ≡ held_after 0 0 (plan_cost_call kind k period total reports) tenths.old)
        × (cents.new ≡ held_after 0 1 (plan_cost_call kind k period total reports) cents.old) }
{
    maxeltu::maxeltu_plan_cost(kind, k, period, total, reports, tenths, cents)
}

// The number of a lent list of pairs against a specification's file, on time.
#[unsafe(no_mangle)]
pub extern "C" fn maxeltu_check_cycle(spec_bytes: &[u8], pairs: &[Pair]) -> u32
    ensures { result ≡ check_file_number (read_spec spec_bytes.now) pairs.now }
{
    maxeltu::maxeltu_check_cycle(spec_bytes, pairs)
}

// The same where each report may arrive up to `lateness` minutes late. The list is unpacked once, into the one array that is held, and the
// flat check called.
#[unsafe(no_mangle)]
pub extern "C" fn maxeltu_check_late(spec_bytes: &[u8], pairs: &[Pair], lateness: u32) -> u32
    ensures { result ≡ late_file_number (read_spec spec_bytes.now) lateness pairs.now }
{
    maxeltu::maxeltu_check_late(spec_bytes, pairs, lateness)
}

// The same check on time, with the shortest stretch that shows a 15 or a 16.
#[unsafe(no_mangle)]
pub extern "C" fn maxeltu_shortest_stretch(
    spec_bytes: &[u8],
    pairs: &[Pair],
    first: &mut u32,
    reports: &mut u32,
) -> u32
    ensures { (result ≡ (stretch_call spec_bytes.now pairs.now).number)
        × (first.new ≡ held_or_value 0 (stretch_call spec_bytes.now pairs.now) first.old)
        × (reports.new ≡ held_or_value 1 (stretch_call spec_bytes.now pairs.now) reports.old) }
{
    maxeltu::maxeltu_shortest_stretch(spec_bytes, pairs, first, reports)
}

// The most records that any R minutes of a lent list of pairs hold, and the least that any P minutes hold, each with its report.
#[unsafe(no_mangle)]
pub extern "C" fn maxeltu_margins(
    spec_bytes: &[u8],
    pairs: &[Pair],
    most: &mut u64,
    most_from: &mut u32,
    least: &mut u64,
    least_after: &mut u32,
) -> u32
    ensures { (result ≡ (fullest_call spec_bytes.now pairs.now).number)
        × (most.new ≡ held_after 0 0 (fullest_call spec_bytes.now pairs.now) most.old)
        × (most_from.new ≡ held_after 0 1 (fullest_call spec_bytes.now pairs.now) most_from.old)
        × (least.new ≡ held_after 0 0 (thinnest_call spec_bytes.now pairs.now) least.old)
        × (least_after.new ≡ held_after 0 1 (thinnest_call spec_bytes.now pairs.now) least_after.old) }
{
    maxeltu::maxeltu_margins(spec_bytes, pairs, most, most_from, least, least_after)
}

// How late the reports of a lent list of pairs may be.
#[unsafe(no_mangle)]
pub extern "C" fn maxeltu_tolerance(spec_bytes: &[u8], pairs: &[Pair], lateness: &mut u32) -> u32
    ensures { (result ≡ (tolerance_call spec_bytes.now pairs.now).number)
        × (lateness.new ≡ held_after 0 0 (tolerance_call spec_bytes.now pairs.now) lateness.old) }
{
    maxeltu::maxeltu_tolerance(spec_bytes, pairs, lateness)
}

// What the first reports of a lent list of pairs cost, against a specification's file. The list is unpacked once.
#[unsafe(no_mangle)]
pub extern "C" fn maxeltu_cycle_cost(
    spec_bytes: &[u8],
    pairs: &[Pair],
    reports: u32,
    tenths: &mut u64,
    cents: &mut u64,
) -> u32
    ensures { (result ≡ (cycle_cost_call spec_bytes.now pairs.now reports).number)
        × (tenths.new ≡ held_after 0 0 (cycle_cost_call spec_bytes.now pairs.now reports) tenths.old)
        × (cents.new ≡ held_after 0 1 (cycle_cost_call spec_bytes.now pairs.now reports) cents.old) }
{
    maxeltu::maxeltu_cycle_cost(spec_bytes, pairs, reports, tenths, cents)
}

// The normal form of a lent list of pairs, stored in another.
#[unsafe(no_mangle)]
pub extern "C" fn maxeltu_normal_form(
    pairs: &[Pair],
    normal: &mut [Pair],
    normal_count: &mut u32,
) -> u32
    ensures { (result ≡ (normal_call pairs.now (length normal.old)).number)
        × (normal.new ≡ places_after pairs.now normal.old)
        × (normal_count.new ≡ held_after 0 0 (normal_call pairs.now (length normal.old)) normal_count.old) }
{
    maxeltu::maxeltu_normal_form(pairs, normal, normal_count)
}

// Reads a cycle file into a lent list of pairs. Nothing is stored there before the whole file is read.
#[unsafe(no_mangle)]
pub extern "C" fn maxeltu_read_cycle(file: &[u8], places: &mut [Pair], count: &mut u32) -> u32
    ensures { Reads (read_cycle (length places.old) file.now) places.old count.old result places.new count.new }
{
    maxeltu::maxeltu_read_cycle(file, places, count)
}

// Writes a lent list of pairs as a cycle file.
#[unsafe(no_mangle)]
pub extern "C" fn maxeltu_write_cycle(pairs: &[Pair], file: &mut [u8], written: &mut u32) -> u32
    ensures { Writes pairs.now file.old written.old result file.new written.new }
{
    maxeltu::maxeltu_write_cycle(pairs, file, written)
}

// Writes a plan out as a cycle file.
#[unsafe(no_mangle)]
pub extern "C" fn maxeltu_write_plan(
    kind: u32,
    k: u32,
    period: u32,
    total: u32,
    file: &mut [u8],
    written: &mut u32,
) -> u32
    ensures { (result ≡ (value_answer (file_answer (plan_file_call kind k period total (length file.old)))).number)
        × (file.new ≡ file_after (plan_file_call kind k period total (length file.old)) file.old)
        × (written.new ≡ held_after 0 0 (value_answer (file_answer (plan_file_call kind k period total (length file.old)))) written.old) }
{
    maxeltu::maxeltu_write_plan(kind, k, period, total, file, written)
}

// Which of two dated cycle files is in force: 1 the first, 2 the second.
#[unsafe(no_mangle)]
pub extern "C" fn maxeltu_in_force(first: &[u8], second: &[u8], which: &mut u32) -> u32
    ensures { (result ≡ (in_force_call first.now second.now).number)
        × (which.new ≡ held_after 0 0 (in_force_call first.now second.now) which.old) }
{
    maxeltu::maxeltu_in_force(first, second, which)
}

// Makes a meter for a specification's file: a lent one is written only where there is no refusal.
#[unsafe(no_mangle)]
pub extern "C" fn maxeltu_make_meter(spec_bytes: &[u8], meter: &mut Meter) -> u32
    ensures { (result ≡ if_read (read_spec spec_bytes.now) (λ spec. 0) (λ n. n))
        × (meter.new ≡ if_read (read_spec spec_bytes.now) fresh (λ n. meter.old)) }
{
    maxeltu::maxeltu_make_meter(spec_bytes, meter)
}

// One offer to a lent meter, which is written only where it is accepted. The budget left is told wherever there is a supply rate.
#[unsafe(no_mangle)]
pub extern "C" fn maxeltu_offer(meter: &mut Meter, minute: u32, size: u32, left: &mut u32) -> u32
    ensures { (result ≡ (stepped meter.old minute size).answer.number)
        × (meter.new ≡ (stepped meter.old minute size).meter)
        × (left.new ≡ told_or (stepped meter.old minute size).answer.left left.old) }
{
    maxeltu::maxeltu_offer(meter, minute, size, left)
}

// Whether numbers are a week table that opens a minute.
#[unsafe(no_mangle)]
pub extern "C" fn maxeltu_week_table(table: &[u16]) -> u32
    ensures { result ≡ table_number (table_of table.now) }
{
    maxeltu::maxeltu_week_table(table)
}

// The calendar minute of a duty minute.
#[unsafe(no_mangle)]
pub extern "C" fn maxeltu_calendar_minute(table: &[u16], duty: u32, calendar: &mut u64) -> u32
    ensures { (result ≡ (calendar_call table.now duty).number)
        × (calendar.new ≡ held_after 0 0 (calendar_call table.now duty) calendar.old) }
{
    maxeltu::maxeltu_calendar_minute(table, duty, calendar)
}

// The duty minute of an open calendar minute.
#[unsafe(no_mangle)]
pub extern "C" fn maxeltu_duty_minute(table: &[u16], calendar: u32, duty: &mut u32) -> u32
    ensures { (result ≡ (duty_call table.now calendar).number)
        × (duty.new ≡ held_after 0 0 (duty_call table.now calendar) duty.old) }
{
    maxeltu::maxeltu_duty_minute(table, calendar, duty)
}
