// Which of two dated cycle files is in force, and its cycle part. A dated file is an issue day of 2 bytes and a cycle file behind it.
// Nothing is written and no cycle is stored: a file is only judged. Refusal 29, and those of reading a cycle file.
#![tactic(auto)]

ghost use Rattle.std.specs.Prelude.{◌≡◌, bytes_eq};
ghost use Rattle.spec.specs.Refusals.{numbered};
ghost use Rattle.dated.specs.InForce.{read_day, later_of, in_force, part_in_force, part_place};

use cyclefile::reading;
use spec::refusal::Refusal;

// The file in force.
#[derive(Clone, Copy, Debug, PartialEq, Eq)]
pub enum InForce {
    First = 1,
    Second = 2,
}

// The issue day of a dated file that can be read.
#[tactic(auto, unfolding(crate::specs::InForce::read_day, crate::specs::InForce::read_dated))]
fn read_day(file: &[u8]) -> Result<u16, Refusal>
    ensures { numbered result ≡ read_day file.now }
{
    let [high, low, part @ ..] = file else {
        return Err(Refusal::Cut);
    };
    reading::judge(part, pairs::MOST_PAIRS)?;
    Ok(u16::from_be_bytes([*high, *low]))
}

// Of two files that can be read, by their days. The bytes are compared only where the days are equal.
fn later_of(
    first: &[u8],
    first_day: u16,
    second: &[u8],
    second_day: u16,
) -> Result<InForce, Refusal>
    ensures { numbered result ≡ later_of first_day second_day (bytes_eq first.now second.now) }
{
    if second_day < first_day {
        Ok(InForce::First)
    } else if first_day < second_day {
        Ok(InForce::Second)
    } else if first == second {
        Ok(InForce::First)
    } else {
        Err(Refusal::SameDay)
    }
}

// Which of two dated files is in force.
#[tactic(auto, unfolding(crate::specs::InForce::in_force))]
pub fn in_force(first: &[u8], second: &[u8]) -> Result<InForce, Refusal>
    ensures { numbered result ≡ in_force first.now second.now }
{
    match (read_day(first), read_day(second)) {
        (Ok(first_day), Ok(second_day)) => later_of(first, first_day, second, second_day),
        (Ok(_), Err(_)) => Ok(InForce::First),
        (Err(_), Ok(_)) => Ok(InForce::Second),
        (Err(refusal), Err(_)) => Err(refusal),
    }
}

// The cycle part of the file in force: that file itself, past its issue day. Empty where none is.
#[tactic(auto, unfolding(crate::specs::InForce::part_in_force), using(crate::proofs::Chosen::first_long, crate::proofs::Chosen::second_long))]
pub fn part_in_force<'a>(first: &'a [u8], second: &'a [u8]) -> &'a [u8]
    ensures bytes { result.now ≡ part_in_force first.now second.now }
    ensures place { result.ref_ptr ≡ part_place (in_force first.now second.now) first.entry.ref_ptr second.entry.ref_ptr }
{
    match in_force(first, second) {
        Ok(InForce::First) => &first[2..],
        Ok(InForce::Second) => &second[2..],
        Err(_) => &first[..0],
    }
}
