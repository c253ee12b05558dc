// One pair of a cycle file.
ghost use Rattle.std.specs.Prelude.{◌≡◌, ◌+◌, ◌≤◌, IfOk, cond, length};
ghost use Rattle.spec.specs.Refusals.{numbered};
ghost use Rattle.spec.specs.File.{word};
ghost use Rattle.cyclefile.specs.File.{read_pair, gap_stands, size_stands, map_byte, has_gap, has_size, map_is_wrong, last_pair, field_length, bytes_taken};

use crate::{differs, field_length, map_byte};
use pairs::Pair;
use spec::refusal::Refusal;

// A pair that is read, and how many bytes it takes.
#[derive(Clone, Copy)]
pub(crate) struct Taken {
    pub pair: Pair,
    pub bytes: usize,
}

// A field of a pair, and the place behind it.
#[derive(Clone, Copy)]
struct Field {
    number: u16,
    end: usize,
}

// The first byte of a pair: a bit for each of its fields that stands.
#[derive(Clone, Copy)]
struct PairMap(u8);

impl PairMap {
    // Two tests of a line each: one over the number of a bit would be no plainer.
    fn has_gap(self) -> bool
        ensures { result ≡ has_gap self.0 }
    {
        self.0 % 2 == 1
    }

    fn has_size(self) -> bool
        ensures { result ≡ has_size self.0 }
    {
        self.0 / 2 % 2 == 1
    }

    // How many bytes a pair with this map takes: 1, 3 or 5.
    fn bytes_taken(self) -> usize
        ensures { result ≡ bytes_taken self.0 }
    {
        1 + field_length(self.has_gap()) + field_length(self.has_size())
    }

    // Whether bits 2 to 7 stand, or a first pair lacks a field.
    fn is_wrong(self, before: &Option<Pair>) -> bool
        ensures { result ≡ map_is_wrong before.now self.0 }
    {
        (3 < self.0) | (before.is_none() & !(self.has_gap() & self.has_size()))
    }
}

// The map that a pair is written with, after the one before.
fn written_map(before: &Option<Pair>, pair: Pair) -> u8
    ensures { result ≡ map_byte (gap_stands before.now pair) (size_stands before.now pair) }
{
    map_byte(
        differs(before.as_ref().map(|last| last.gap), pair.gap),
        differs(before.as_ref().map(|last| last.size), pair.size),
    )
}

// A field that stands at `at`, or the one before. One branch gives number and place, so that the next place is known before the bytes are.
fn take_field(bytes: &[u8], stands: bool, at: usize, before: u16) -> Field
    requires { at + field_length stands ≤ length bytes.now }
    ensures number { result.number ≡ cond stands (word bytes.now at) before }
    ensures end { result.end ≡ at + field_length stands }
{
    if stands {
        Field {
            number: u16::from_be_bytes([bytes[at], bytes[at + 1]]),
            end: at + 2,
        }
    } else {
        Field {
            number: before,
            end: at,
        }
    }
}

// What a field left out equals: no first pair that is read lacks one. (Taken apart, as the pair before is lent: see `read_pair`.)
fn last_pair(before: &Option<Pair>) -> Pair
    ensures { result ≡ last_pair before.now }
{
    match before {
        Some(last) => Pair {
            gap: last.gap,
            size: last.size,
        },
        None => Pair { gap: 0, size: 0 },
    }
}

// The pair that the bytes start with, after the one before. That is lent: handed over, its two numbers would be packed into one at each
// pair, which takes longer.
#[tactic(auto, unfolding(crate::specs::File::read_pair), using(crate::proofs::Maps::in_vain_by_map))]
pub(crate) fn read_pair(before: &Option<Pair>, bytes: &[u8]) -> Result<Taken, Refusal>
    ensures pair { numbered result ≡ read_pair before.now bytes.now }
    ensures within { IfOk result (λ t. t.bytes ≤ length bytes.now) }
{
    let Some(first) = bytes.first() else {
        return Err(Refusal::Cut);
    };
    let map = PairMap(*first);
    if map.is_wrong(before) {
        return Err(Refusal::PairMap);
    }
    if bytes.len() < map.bytes_taken() {
        return Err(Refusal::Cut);
    }
    let last = last_pair(before);
    let gap = take_field(bytes, map.has_gap(), 1, last.gap);
    let size = take_field(bytes, map.has_size(), gap.end, last.size);
    let pair = Pair {
        gap: gap.number,
        size: size.number,
    };
    // A field that is left out equals the one before, as it should: so with another map some field stands that should be left out.
    if map.0 != written_map(before, pair) {
        return Err(Refusal::NotLeftOut);
    }
    Ok(Taken {
        pair,
        bytes: size.end,
    })
}
