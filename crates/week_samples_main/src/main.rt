// Samples of week tables, run through the functions: what this program prints is compared with the file `stdout`. Crate
// `week_samples` has the same samples as a table, with one proof that the definitions give every value.
#![tactic(auto)]

use std::io;

// A duty minute and its calendar minute.
fn duty_minute(rt: &impl Print, table: [[u16; 4]; 7], d: u32) -> io::Result<()> {
    match duty::calendar_minute(table, d) {
        Ok(m) => println!(rt; "  duty minute {d} {m}"),
        Err(refusal) => println!(rt; "  duty minute {d} refused {}", refusal.number()),
    }
}

// A calendar minute and its duty minute, in a function of its own: one for both ways, which differ in the call and the type, is no shorter.
fn calendar_minute(rt: &impl Print, table: [[u16; 4]; 7], m: u32) -> io::Result<()> {
    match duty::duty_minute(table, m) {
        Ok(d) => println!(rt; "  calendar minute {m} {d}"),
        Err(refusal) => println!(rt; "  calendar minute {m} refused {}", refusal.number()),
    }
}

// A week of which five days are alike, Saturday has one window or none, and Sunday none.
fn week(weekday: [u16; 4], opens: u16, closes: u16) -> [[u16; 4]; 7] {
    [
        weekday,
        weekday,
        weekday,
        weekday,
        weekday,
        [opens, closes, 0, 0],
        [0, 0, 0, 0],
    ]
}

// From 6 to 12 and from 13 to 18 o'clock, on Saturdays from 8 to 12; and windows that overlap.
fn duty_hours(rt: &impl Print) -> io::Result<()> {
    println!(rt; "Duty hours")?;
    let table = week([360, 720, 780, 1080], 480, 720);
    duty_minute(rt, table, 0)?;
    duty_minute(rt, table, 360)?;
    duty_minute(rt, table, 3539)?;
    duty_minute(rt, table, 3540)?;
    duty_minute(rt, table, 4294967295)?;
    calendar_minute(rt, table, 719)?;
    calendar_minute(rt, table, 720)?;
    calendar_minute(rt, table, 10440)?;
    let overlapping = week([360, 720, 719, 1080], 0, 0);
    duty_minute(rt, overlapping, 0)?;
    calendar_minute(rt, overlapping, 720)
}

fn main(rt: HostRuntime) -> io::Result<()> {
    duty_hours(&rt)
}
