// Reading a cycle file in one pass, pair by pair: each pair is stored as it is read, or only judged. A caller that may not write where the
// file is refused lends words of its own.
mod steps;

ghost use Rattle.std.specs.Prelude.{◌≡◌, ◌*◌, ◌/◌, ◌≤◌, None, IfOk, min, length};
ghost use Rattle.spec.specs.Refusals.{numbered};
ghost use Rattle.pairs.specs.Pairs.{flatten, laid_over};
ghost use Rattle.cyclefile.specs.File.{read_count, read_pairs, read_cycle, passed_pairs, stored_pairs, file_answer};

use pairs::Pair;
use spec::refusal::Refusal;
use steps::{Taken, read_pair};

// How many pairs a file says it has, in its first 2 bytes: where that is a count, and there are places for them.
#[tactic(auto, unfolding(crate::specs::File::read_count))]
fn read_count(file: &[u8], places: usize) -> Result<usize, Refusal>
    ensures count { numbered result ≡ read_count places file.now }
    ensures within { IfOk result (λ n. (2 ≤ length file.now) × (n ≤ places)) }
{
    let [high, low, ..] = file else {
        return Err(Refusal::Cut);
    };
    let count = usize::from(u16::from_be_bytes([*high, *low]));
    if !pairs::count_in(count) {
        return Err(Refusal::Count);
    }
    if places < count {
        return Err(Refusal::NoRoom);
    }
    Ok(count)
}

// The pairs of a file, whose count says how many there are, from the bytes behind the count.
fn read_pairs(bytes: &[u8], count: usize, words: &mut [u16]) -> Result<usize, Refusal>
    requires { 2 * count ≤ length words.old }
    ensures answer { numbered result ≡ file_answer (read_pairs count None bytes.now) }
    ensures stored { words.new ≡ laid_over (flatten (passed_pairs count None bytes.now)) words.old }
{
    let mut rest = bytes;
    let mut before = None;
    for i in 0..count {
        let Taken {
            pair: Pair { gap, size },
            bytes: taken,
        } = read_pair(&before, rest)?;
        rest = &rest[taken..];
        // By the index: of words written through `as_chunks_mut` std doesn't say what they hold afterwards.
        words[2 * i] = gap;
        words[2 * i + 1] = size;
        before = Some(Pair { gap, size });
    }
    if !rest.is_empty() {
        return Err(Refusal::BytesOver);
    }
    Ok(count)
}

// Reads a file into lent words: gap, size, gap, size, .. There are as many places as asked for, but no more than the words hold.
#[tactic(auto, unfolding(crate::specs::File::read_cycle, crate::specs::File::stored_pairs))]
pub fn read(file: &[u8], places: usize, words: &mut [u16]) -> Result<usize, Refusal>
    ensures answer { numbered result ≡ file_answer (read_cycle (min places (length words.old / 2)) file.now) }
    ensures stored { words.new ≡ laid_over (flatten (stored_pairs (min places (length words.old / 2)) file.now)) words.old }
{
    let count = read_count(file, places.min(words.len() / 2))?;
    read_pairs(&file[2..], count, words)
}

// Judges the pairs of a file as `read_pairs` does. The loop is its own: one for both would ask at each pair whether there are words to store
// it in.
fn judge_pairs(bytes: &[u8], count: usize) -> Result<usize, Refusal>
    ensures { numbered result ≡ file_answer (read_pairs count None bytes.now) }
{
    let mut rest = bytes;
    let mut before = None;
    for _ in 0..count {
        let Taken {
            pair: Pair { gap, size },
            bytes: taken,
        } = read_pair(&before, rest)?;
        rest = &rest[taken..];
        before = Some(Pair { gap, size });
    }
    if rest.is_empty() {
        Ok(count)
    } else {
        Err(Refusal::BytesOver)
    }
}

// What reading a file into so many places answers, without a place to store a pair in.
#[tactic(auto, unfolding(crate::specs::File::read_cycle))]
pub fn judge(file: &[u8], places: usize) -> Result<usize, Refusal>
    ensures { numbered result ≡ file_answer (read_cycle places file.now) }
{
    let count = read_count(file, places)?;
    judge_pairs(&file[2..], count)
}
