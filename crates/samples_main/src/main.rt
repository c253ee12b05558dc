// The marked samples of document 01, run through the functions: what this program prints is compared with the file `stdout`. Crate
// `samples` has the same samples as a table, with one proof that the definitions give every value.
#![tactic(auto)]

use consistency::Unfit;
use cost::Bill;
use cycle::margins::{self, Margin};
use dated::InForce;
use families::{Family, Scheduled};
use meter::Meter;
use pairs::Pair;
use plan::moments::Contents;
use plan::{Kind, Plan, Report};
use spec::refusal::{Refusal, answer_number};
use spec::{Range, Rate, Spec};
use std::io;

// A sample with a second range of gaps, which may be absent.
fn sample_with(
    second: Option<Range>,
    sizes: (u16, u16),
    gaps: (u16, u16),
    supply: (u16, u16),
    demand: (u16, u16),
) -> Spec {
    Spec {
        dmin: sizes.0,
        dmax: sizes.1,
        smin: gaps.0,
        smax: gaps.1,
        supply: Some(Rate::from(supply)),
        demand: Some(Rate::from(demand)),
        duration: None,
        second,
    }
}

// "Written (sizes), (gaps), (B, R), (L, P)."
fn sample(sizes: (u16, u16), gaps: (u16, u16), supply: (u16, u16), demand: (u16, u16)) -> Spec {
    sample_with(None, sizes, gaps, supply, demand)
}

fn refused(rt: &impl Print, refusal: Refusal) -> io::Result<()> {
    println!(rt; " refused {}", refusal.number())
}

// The condition that failed first, or the refusal.
fn not_fit(rt: &impl Print, unfit: Unfit) -> io::Result<()> {
    match unfit {
        Unfit::Inconsistent(c) => println!(rt; " inconsistent {}", answers::condition_number(c)),
        Unfit::Refused(refusal) => refused(rt, refusal),
    }
}

// k, period and total.
fn numbers_of(rt: &impl Print, p: Plan) -> io::Result<()> {
    print!(rt; " {} {} {}", p.count, p.period, p.total)
}

fn report(rt: &impl Print, found: Result<Report, Refusal>) -> io::Result<()> {
    match found {
        Ok(x) => print!(rt; " {} {}", x.minute, x.size),
        Err(refusal) => print!(rt; " {}", refusal.number()),
    }
}

// Minutes and sizes of the first four reports.
fn reports(rt: &impl Print, p: Plan) -> io::Result<()> {
    print!(rt; "  reports")?;
    for i in 0..4 {
        report(rt, p.report(i))?;
    }
    println!(rt)
}

fn schedule(rt: &impl Print, found: Result<Scheduled, Refusal>) -> io::Result<()> {
    match found {
        Ok(x) => {
            numbers_of(rt, x.plan)?;
            println!(rt; " {}", x.supply)?;
            reports(rt, x.plan)
        }
        Err(refusal) => refused(rt, refusal),
    }
}

// One function for both families, or for both kinds of cost, would have to be told the words too: no plainer than two of two lines.
fn minimum_demand(rt: &impl Print, s: Spec, k: u32) -> io::Result<()> {
    print!(rt; "  minimum demand")?;
    schedule(rt, families::schedule_for(Family::MinimumDemand, s, k))
}

fn maximum_supply(rt: &impl Print, s: Spec, k: u32) -> io::Result<()> {
    print!(rt; "  maximum supply")?;
    schedule(rt, families::schedule_for(Family::MaximumSupply, s, k))
}

fn consistency(rt: &impl Print, s: Spec) -> io::Result<()> {
    print!(rt; "  consistency")?;
    match consistency::consistency_of(s) {
        Ok(()) => println!(rt; " 0"),
        Err(unfit) => not_fit(rt, unfit),
    }
}

fn test(rt: &impl Print, s: Spec) -> io::Result<()> {
    print!(rt; "  test")?;
    match feasibility::test(s) {
        Ok(x) => {
            numbers_of(rt, x.plan)?;
            println!(rt; " {}", x.supply)
        }
        Err(unfit) => not_fit(rt, unfit),
    }
}

fn even_plan(rt: &impl Print, s: Spec) -> io::Result<()> {
    print!(rt; "  even plan")?;
    match even::even_plan(s) {
        Ok(p) => {
            numbers_of(rt, p)?;
            println!(rt)?;
            reports(rt, p)
        }
        Err(refusal) => refused(rt, refusal),
    }
}

// The box plan for a lateness.
fn box_plan(rt: &impl Print, s: Spec, lateness: u32) -> io::Result<()> {
    print!(rt; "  box plan late by {lateness}")?;
    match boxplan::box_plan(s, lateness) {
        Ok(p) => {
            numbers_of(rt, p)?;
            written(rt, p)
        }
        Err(refusal) => refused(rt, refusal),
    }
}

// The bytes of a plan written out, of at most 16.
fn written(rt: &impl Print, p: Plan) -> io::Result<()> {
    let mut file = [0u8; 16];
    match planfile::write(p, &mut file) {
        Ok(length) => {
            print!(rt; ", written")?;
            for byte in file.iter().take(length as usize) {
                print!(rt; " {}", byte)?;
            }
            println!(rt)
        }
        Err(refusal) => refused(rt, refusal),
    }
}

// The number of a report, or that of the refusal.
fn report_number(found: Result<u32, Refusal>) -> u32 {
    match found {
        Ok(i) => i,
        Err(refusal) => refusal.number(),
    }
}

// A minute, the last report at or before it, and the nearest.
fn minute(rt: &impl Print, p: Plan, m: u32) -> io::Result<()> {
    let last = report_number(p.last_report(m));
    let nearest = report_number(p.nearest_report(m));
    println!(rt; "  minute {m} {last} {nearest}")
}

fn contents(rt: &impl Print, found: Result<Contents, Refusal>) -> io::Result<()> {
    match found {
        Ok(x) => println!(rt; " {} {}", x.reports, x.records),
        Err(refusal) => println!(rt; " {}", refusal.number()),
    }
}

// Two minutes, and the reports and records between them.
fn between(rt: &impl Print, p: Plan, a: u32, b: u32) -> io::Result<()> {
    print!(rt; "  between {a} {b}")?;
    contents(rt, p.between(a, b))
}

// Tenths of a cent and whole cents.
fn bill(rt: &impl Print, due: Result<Bill, Refusal>) -> io::Result<()> {
    match due {
        Ok(x) => println!(rt; " {} {}", x.tenths, x.cents),
        Err(refusal) => refused(rt, refusal),
    }
}

// A number of reports, and what so many first ones cost.
fn plan_cost(rt: &impl Print, p: Plan, n: u32) -> io::Result<()> {
    print!(rt; "  cost of {n}")?;
    bill(rt, cost::plan_cost(p, n))
}

fn cycle_cost(rt: &impl Print, s: Spec, words: &[u16], n: u32) -> io::Result<()> {
    print!(rt; "  cycle cost of {n}")?;
    bill(rt, cost::cycle_cost(s, words, n))
}

// The number of a cycle: gap, size, gap, size, ..
fn cycle(rt: &impl Print, s: Spec, words: &[u16]) -> io::Result<()> {
    println!(rt; "  cycle {}", answer_number(cycle::check(s, words)))
}

// That number and, with 15 and 16, the shortest stretch that shows it: the first report's number, and how many.
fn stretch(rt: &impl Print, s: Spec, words: &[u16]) -> io::Result<()> {
    let judged = cycle::shortest_stretch(s, words);
    print!(rt; "  stretch {}", answer_number(judged.answer))?;
    match judged.stretch {
        Some(row) => println!(rt; " {} {}", row.first, row.reports),
        None => println!(rt),
    }
}

// That of a cycle of one pair, where reports may be so many minutes late.
fn late_cycle(rt: &impl Print, s: Spec, gap: u16, size: u16, lateness: u32) -> io::Result<()> {
    let number = answer_number(cycle::check_late(s, &[gap, size], lateness));
    println!(rt; "  late by {lateness} cycle {number}")
}

fn sample_a(rt: &impl Print) -> io::Result<()> {
    println!(rt; "A")?;
    let s = sample((3, 10), (45, 55), (29, 220), (17, 158));
    minimum_demand(rt, s, 2)?;
    minimum_demand(rt, s, 3)?;
    test(rt, s)?;
    even_plan(rt, s)?;
    let p = Plan {
        kind: Kind::WellFormed,
        count: 3,
        period: 158,
        total: 17,
    };
    minute(rt, p, 26)?;
    minute(rt, p, 27)?;
    minute(rt, p, 157)?;
    between(rt, p, 52, 158)?;
    plan_cost(rt, p, 4)
}

fn sample_a_with_28(rt: &impl Print) -> io::Result<()> {
    println!(rt; "A with B = 28")?;
    let less = sample((3, 10), (45, 55), (28, 220), (17, 158));
    test(rt, less)?;
    even_plan(rt, less)
}

fn sample_b(rt: &impl Print) -> io::Result<()> {
    println!(rt; "B")?;
    test(rt, sample((2, 3), (5, 5), (16, 26), (10, 20)))?;
    println!(rt; "B with B = 14")?;
    even_plan(rt, sample((2, 3), (5, 5), (14, 26), (10, 20)))
}

// One offer: its number and the budget left. The meter after it is handed back.
fn offer(rt: &impl Print, m: Meter, minute: u32, size: u32) -> io::Result<Meter> {
    let s = meter::step(m, minute, size);
    print!(rt; " {}", answer_number(s.answer.verdict))?;
    if let Some(n) = s.answer.left {
        print!(rt; " {n}")?;
    }
    Ok(s.meter)
}

// Offers to a meter of B with 15: one that is refused far ahead drops nothing.
fn offers(rt: &impl Print, s: Spec) -> io::Result<()> {
    print!(rt; "  offers")?;
    let mut m = match meter::make(s) {
        Ok(made) => made,
        Err(refusal) => return refused(rt, refusal),
    };
    for (minute, size) in [
        (9, 4),
        (3, 3),
        (8, 3),
        (1000, 9),
        (13, 3),
        (17, 3),
        (18, 3),
        (23, 3),
        (28, 1),
        (28, 3),
        (29, 3),
    ] {
        m = offer(rt, m, minute, size)?;
    }
    println!(rt)
}

// What the even plan of B with 15 costs: of ten reports half a cent goes up.
fn bills(rt: &impl Print, p: Plan) -> io::Result<()> {
    plan_cost(rt, p, 0)?;
    plan_cost(rt, p, 4)?;
    plan_cost(rt, p, 5)?;
    plan_cost(rt, p, 10)
}

// What to send back of the cycles of G, of one that is begun at its last pair, and of those that get another number.
fn stretches(rt: &impl Print, s: Spec) -> io::Result<()> {
    stretch(rt, s, &[5, 3, 5, 3, 5, 2, 5, 2])?;
    stretch(rt, s, &[5, 3, 5, 2, 5, 2, 5, 3])?;
    stretch(rt, s, &[5, 2, 5, 2, 5, 2, 5, 3])?;
    stretch(rt, s, &[5, 3, 5, 2])?;
    stretch(rt, s, &[6, 3, 6, 2])?;
    stretch(rt, s, &[])
}

// B with 15, from its file, the cycles of G, and offers to a meter.
fn sample_g(rt: &impl Print) -> io::Result<()> {
    println!(rt; "B with B = 15, G")?;
    let file = [15u8, 0, 2, 0, 3, 0, 5, 0, 5, 0, 15, 0, 26, 0, 10, 0, 20];
    let s = match spec::read_spec(&file) {
        Ok(accepted) => accepted,
        Err(refusal) => return refused(rt, refusal),
    };
    test(rt, s)?;
    even_plan(rt, s)?;
    let p = Plan {
        kind: Kind::Even,
        count: 4,
        period: 20,
        total: 10,
    };
    minute(rt, p, 12)?;
    minute(rt, p, 13)?;
    between(rt, p, 5, 25)?;
    bills(rt, p)?;
    cycle(rt, s, &[5, 3, 5, 2])?;
    cycle_cost(rt, s, &[5, 3, 5, 2], 5)?;
    cycle(rt, s, &[5, 3, 5, 3, 5, 2, 5, 2])?;
    cycle_cost(rt, s, &[5, 3, 5, 3, 5, 2, 5, 2], 0)?;
    cycle(rt, s, &[5, 2, 5, 2, 5, 2, 5, 3])?;
    stretches(rt, s)?;
    offers(rt, s)
}

fn samples_c_and_d(rt: &impl Print) -> io::Result<()> {
    println!(rt; "C")?;
    let c = sample((5, 6), (45, 46), (10, 79), (17, 159));
    maximum_supply(rt, c, 2)?;
    test(rt, c)?;
    even_plan(rt, c)?;
    println!(rt; "D")?;
    let d = sample((3, 5), (35, 46), (10, 79), (17, 158));
    test(rt, d)?;
    even_plan(rt, d)
}

fn samples_e_and_f(rt: &impl Print) -> io::Result<()> {
    println!(rt; "E")?;
    test(rt, sample((3, 10), (45, 80), (10, 79), (17, 159)))?;
    println!(rt; "F")?;
    let f = sample((5, 5), (4, 4), (10, 10), (5, 20));
    consistency(rt, f)?;
    test(rt, f)?;
    println!(rt; "F with B = 15")?;
    let kept = sample((5, 5), (4, 4), (15, 10), (5, 20));
    consistency(rt, kept)?;
    test(rt, kept)
}

// A van of two shifts: gaps 5 to 15, or those of the second range.
fn shifts(min: u16, max: u16) -> Spec {
    sample_with(
        Some(Range { min, max }),
        (1, 10),
        (5, 15),
        (22, 60),
        (8, 90),
    )
}

fn two_shifts(rt: &impl Print) -> io::Result<()> {
    println!(rt; "Two shifts")?;
    let s = shifts(60, 90);
    consistency(rt, s)?;
    minimum_demand(rt, s, 1)?;
    test(rt, s)?;
    even_plan(rt, s)?;
    cycle(rt, s, &[15, 5, 15, 5, 5, 4, 90, 8, 60, 8])?;
    cycle(rt, s, &[15, 8, 30, 4, 90, 8])?;
    late_cycle(rt, s, 15, 4, 1)?;
    late_cycle(rt, s, 40, 4, 25)
}

// Ranges that touch are two, and a gap that was between them is allowed; ranges that overlap are refused.
fn ranges_that_touch(rt: &impl Print) -> io::Result<()> {
    println!(rt; "Ranges that touch, that overlap")?;
    let touching = shifts(16, 90);
    cycle(rt, touching, &[15, 8, 30, 4, 90, 8])?;
    late_cycle(rt, touching, 15, 4, 10)?;
    late_cycle(rt, touching, 40, 4, 11)?;
    let overlapping = shifts(15, 90);
    consistency(rt, overlapping)?;
    test(rt, overlapping)?;
    even_plan(rt, overlapping)
}

// Reports that arrive late: a cycle that is passed, each number that one is refused with, and P minutes of no more than J.
fn late_reports(rt: &impl Print) -> io::Result<()> {
    println!(rt; "Late reports")?;
    let s = sample((1, 2), (2, 6), (4, 6), (2, 8));
    late_cycle(rt, s, 4, 2, 2)?;
    late_cycle(rt, s, 4, 2, 3)?;
    late_cycle(rt, s, 4, 2, 1441)?;
    late_cycle(rt, s, 4, 3, 2)?;
    late_cycle(rt, s, 3, 2, 1)?;
    late_cycle(rt, s, 4, 1, 1)?;
    late_cycle(rt, sample((1, 9), (1, 9), (9, 1), (1, 3)), 4, 9, 3)
}

fn pair(gap: u16, size: u16) -> Pair {
    Pair { gap, size }
}

// The pairs of a cycle's normal form, where so many places are lent, of at most eight.
fn normal_form(rt: &impl Print, cycle: &[Pair], places: usize) -> io::Result<()> {
    print!(rt; "  normal form")?;
    let mut lent = [pair(0, 0); 8];
    match normal::normal_form(cycle, &mut lent[..places.min(8)]) {
        Ok(count) => {
            for x in lent.iter().take(count as usize) {
                print!(rt; " {} {}", x.gap, x.size)?;
            }
            println!(rt)
        }
        Err(refusal) => refused(rt, refusal),
    }
}

// Cycles of B with 15 and of two shifts; of each one is begun at another pair and written out twice. Too few places, and no pair. Last a cycle
// that would begin elsewhere by size.
fn normal_forms(rt: &impl Print) -> io::Result<()> {
    println!(rt; "Normal forms")?;
    let (two, three) = (pair(5, 2), pair(5, 3));
    normal_form(rt, &[three, two], 2)?;
    normal_form(rt, &[two, three, two, three], 2)?;
    normal_form(rt, &[three, two, two, two], 4)?;
    normal_form(rt, &[two, three, two, three], 1)?;
    normal_form(rt, &[], 0)?;
    let [a, b, c, d] = [pair(15, 5), pair(5, 4), pair(90, 8), pair(60, 8)];
    normal_form(rt, &[a, a, b, c, d], 5)?;
    normal_form(rt, &[c, d, a, a, b, c, d, a, a, b], 5)?;
    normal_form(rt, &[pair(30, 4), c, pair(15, 8)], 3)
}

// Box plans of A, of B with 15 and 14, of two shifts, with ranges that touch, and of late reports; of each one whose lateness leaves no gap, and one
// with a lateness that is too long.
fn box_plans(rt: &impl Print) -> io::Result<()> {
    println!(rt; "Box plans")?;
    let a = sample((3, 10), (45, 55), (29, 220), (17, 158));
    for lateness in [0, 5, 6] {
        box_plan(rt, a, lateness)?;
    }
    for budget in [15, 14] {
        box_plan(rt, sample((2, 3), (5, 5), (budget, 26), (10, 20)), 0)?;
    }
    for lateness in [5, 15, 16] {
        box_plan(rt, shifts(60, 90), lateness)?;
    }
    box_plan(rt, shifts(16, 90), 10)?;
    let late = sample((1, 2), (2, 6), (4, 6), (2, 8));
    for lateness in [2, 3, 1441] {
        box_plan(rt, late, lateness)?;
    }
    Ok(())
}

// A margin, where there is one: what its stretch holds, and its report's number.
fn margin(rt: &impl Print, found: Option<Margin>) -> io::Result<()> {
    match found {
        Some(m) => print!(rt; " {} {}", m.records, m.report),
        None => print!(rt; " none"),
    }
}

// How close a flat cycle comes to its limits, and how late its reports may be.
fn leeway(rt: &impl Print, s: Spec, words: &[u16]) -> io::Result<()> {
    print!(rt; "  margins")?;
    match margins::margins_of(s, words) {
        Ok(m) => {
            margin(rt, m.fullest)?;
            margin(rt, m.thinnest)?;
        }
        Err(refusal) => print!(rt; " refused {}", refusal.number())?,
    }
    match tolerance::tolerance(s, words) {
        Ok(lateness) => println!(rt; ", late by up to {}", lateness),
        Err(refusal) => println!(rt; ", not even on time {}", refusal.number()),
    }
}

// The most tolerant plan, with its lateness.
fn tolerant_plan(rt: &impl Print, s: Spec) -> io::Result<()> {
    print!(rt; "  most tolerant plan")?;
    match tolerance::tolerant_plan(s) {
        Ok(most) => {
            print!(rt; " late by up to {}:", most.lateness)?;
            numbers_of(rt, most.found)?;
            println!(rt)
        }
        Err(refusal) => refused(rt, refusal),
    }
}

// The cycles of B with 15, one that obeys, three with a stretch too full or too thin, one with a wrong gap and one with no pairs; cycles with leeway; and
// plans, of ranges that touch too, of which the first alone would allow less.
fn leeways(rt: &impl Print) -> io::Result<()> {
    println!(rt; "Leeway")?;
    let b = sample((2, 3), (5, 5), (15, 26), (10, 20));
    leeway(rt, b, &[5, 3, 5, 2])?;
    leeway(rt, b, &[5, 3, 5, 3, 5, 2, 5, 2])?;
    leeway(rt, b, &[5, 3, 5, 2, 5, 2, 5, 3])?;
    leeway(rt, b, &[5, 2, 5, 2, 5, 2, 5, 3])?;
    leeway(rt, b, &[6, 3, 6, 2])?;
    leeway(rt, b, &[])?;
    leeway(rt, shifts(60, 90), &[75, 8])?;
    leeway(rt, shifts(16, 90), &[40, 4])?;
    let late = sample((1, 2), (2, 6), (4, 6), (2, 8));
    leeway(rt, late, &[4, 2])?;
    tolerant_plan(rt, sample((3, 10), (45, 55), (29, 220), (17, 158)))?;
    tolerant_plan(rt, b)?;
    tolerant_plan(rt, sample((2, 3), (5, 5), (14, 26), (10, 20)))?;
    tolerant_plan(rt, shifts(60, 90))?;
    tolerant_plan(rt, shifts(16, 90))?;
    tolerant_plan(rt, late)
}

// Which of two dated files is in force, and the bytes of its cycle part.
fn in_force(rt: &impl Print, first: &[u8], second: &[u8]) -> io::Result<()> {
    match dated::in_force(first, second) {
        Ok(InForce::First) => print!(rt; "  the first, part")?,
        Ok(InForce::Second) => print!(rt; "  the second, part")?,
        Err(refusal) => print!(rt; "  refused {}, part", refusal.number())?,
    }
    for byte in dated::part_in_force(first, second) {
        print!(rt; " {}", byte)?;
    }
    println!(rt)
}

// The files of samples/*.dated: the later day, whose second byte is the lower one; equal files, and others of one day; a file that can't be
// read beside one that can; two that can't.
fn dated_files(rt: &impl Print) -> io::Result<()> {
    println!(rt; "Which file is in force")?;
    let good = [0, 255, 0, 2, 3, 0, 5, 0, 3, 2, 0, 2];
    let full = [1, 0, 0, 4, 3, 0, 5, 0, 3, 0, 2, 0, 2, 0];
    let thin = [1, 0, 0, 4, 3, 0, 5, 0, 2, 0, 0, 2, 0, 3];
    let over = [1, 1, 0, 2, 3, 0, 5, 0, 3, 2, 0, 2, 0];
    in_force(rt, &good, &full)?;
    in_force(rt, &full, &good)?;
    in_force(rt, &good, &good)?;
    in_force(rt, &full, &thin)?;
    in_force(rt, &over, &good)?;
    in_force(rt, &over, &[1])?;
    in_force(rt, &[1], &over)
}

fn main(rt: HostRuntime) -> io::Result<()> {
    sample_a(&rt)?;
    sample_a_with_28(&rt)?;
    sample_b(&rt)?;
    sample_g(&rt)?;
    samples_c_and_d(&rt)?;
    samples_e_and_f(&rt)?;
    two_shifts(&rt)?;
    ranges_that_touch(&rt)?;
    late_reports(&rt)?;
    box_plans(&rt)?;
    leeways(&rt)?;
    normal_forms(&rt)?;
    dated_files(&rt)
}
