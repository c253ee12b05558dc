// Writing a cycle file: its length is known before the first byte is stored, so that a refusal leaves the lent bytes alone. The call over
// a lent list of pairs is exported by `maxeltu`. Refusals 12 and 20.
#![tactic(auto)]

ghost use Rattle.std.specs.Prelude.{◌≡◌, ◌+◌, ◌/◌, ◌≤◌, None, IfOk, length};
ghost use Rattle.std.proofs.lemmas.List.Edits.{sets};
ghost use Rattle.spec.specs.Refusals.{answer_number};
ghost use Rattle.pairs.specs.Pairs.{pairs_of};
ghost use Rattle.cyclefile.specs.File.{gap_stands, size_stands, bytes_of, field_length, field_bytes, pair_bytes, pairs_bytes, cycle_bytes, write_number, bytes_after};

use cyclefile::{differs, field_length, map_byte};
use pairs::Pair;
use spec::refusal::Refusal;

// Whether a pair's gap is to stand in the file, and whether its size is, after the pair before. (One function that is given the field would be
// no plainer.)
fn gap_stands(before: Option<Pair>, pair: Pair) -> bool
    ensures { result ≡ gap_stands before pair }
{
    differs(before.map(|last| last.gap), pair.gap)
}

fn size_stands(before: Option<Pair>, pair: Pair) -> bool
    ensures { result ≡ size_stands before pair }
{
    differs(before.map(|last| last.size), pair.size)
}

// How many bytes a pair takes in the file, after the one before.
#[tactic(auto, using(cyclefile::proofs::Fields::length_pair_bytes))]
fn pair_length(before: Option<Pair>, pair: Pair) -> usize
    ensures length { result ≡ length (pair_bytes before pair) }
    ensures most { result ≤ 5 }
{
    1 + field_length(gap_stands(before, pair)) + field_length(size_stands(before, pair))
}

// How many bytes the file of a flat slice has.
fn file_length(words: &[u16]) -> usize
    requires { length words.now / 2 ≤ 512 }
    ensures { result ≡ length (cycle_bytes (pairs_of words.now)) }
{
    let mut length = 2;
    let mut before = None;
    for &[gap, size] in words.as_chunks::<2>().0 {
        let pair = Pair { gap, size };
        length += pair_length(before, pair);
        before = Some(pair);
    }
    length
}

// Stores a number, high byte first.
fn put_number(file: &mut [u8], at: usize, number: u16)
    requires { at + 2 ≤ length file.old }
    ensures { file.new ≡ sets file.old at (bytes_of number) }
{
    let [high, low] = number.to_be_bytes();
    file[at] = high;
    file[at + 1] = low;
}

// Stores a field that stands; gives the place behind it.
fn put_field(file: &mut [u8], at: usize, stands: bool, field: u16) -> usize
    requires { at + field_length stands ≤ length file.old }
    ensures end { result ≡ at + field_length stands }
    ensures stored { file.new ≡ sets file.old at (field_bytes stands field) }
{
    if stands {
        put_number(file, at, field);
        at + 2
    } else {
        at
    }
}

// Stores a pair, after the one before; gives the place behind it.
#[tactic(auto, using(cyclefile::proofs::Fields::length_pair_bytes))]
fn put_pair(file: &mut [u8], at: usize, before: Option<Pair>, pair: Pair) -> usize
    requires { at + length (pair_bytes before pair) ≤ length file.old }
    ensures end { result ≡ at + length (pair_bytes before pair) }
    ensures stored { file.new ≡ sets file.old at (pair_bytes before pair) }
{
    let gap = gap_stands(before, pair);
    let size = size_stands(before, pair);
    file[at] = map_byte(gap, size);
    let next = put_field(file, at + 1, gap, pair.gap);
    put_field(file, next, size, pair.size)
}

// Stores the pairs of a flat slice behind the count.
fn put_pairs(words: &[u16], file: &mut [u8])
    requires { length (cycle_bytes (pairs_of words.now)) ≤ length file.old }
    ensures { file.new ≡ sets file.old 2 (pairs_bytes None (pairs_of words.now)) }
{
    let mut at = 2;
    let mut before = None;
    for &[gap, size] in words.as_chunks::<2>().0 {
        let pair = Pair { gap, size };
        at = put_pair(file, at, before, pair);
        before = Some(pair);
    }
}

// Writes the cycle of a flat slice: gap, size, gap, size, .. Tells the length of the file where it is written: 2,562 bytes at most.
pub fn write(words: &[u16], file: &mut [u8]) -> Result<usize, Refusal>
    ensures number { answer_number result ≡ write_number (length file.old) (pairs_of words.now) }
    ensures length { IfOk result (λ n. n ≡ length (cycle_bytes (pairs_of words.now))) }
    ensures most { IfOk result (λ n. n ≤ 2562) }
    ensures bytes { file.new ≡ bytes_after (pairs_of words.now) file.old }
{
    let count = words.len() / 2;
    if !pairs::count_in(count) {
        return Err(Refusal::Count);
    }
    let length = file_length(words);
    if file.len() < length {
        return Err(Refusal::NoRoom);
    }
    // It fits, as is proved: `try_from` would bring an error that never comes.
    put_number(file, 0, count as u16);
    put_pairs(words, file);
    Ok(length)
}
