// The cycle file: what it is (specs/File.antt), that what is written reads back and what is read was written so, and a file's bytes read
// into a flat slice, where gap and size alternate, or only judged. Writing is the crate `writer`'s; the call over a lent list of pairs is exported by
// `maxeltu`. What a cycle's gaps and sizes may be is left to the check of cycles. Refusals 12 and 17 to 21.
#![tactic(auto)]

pub mod reading;

ghost use Rattle.std.specs.Prelude.{◌≡◌};
ghost use Rattle.cyclefile.specs.File.{differs, field_length, map_byte};

// Whether a field is to stand in the file: where it differs from that of the pair before, and in the first pair always.
pub fn differs(before: Option<u16>, field: u16) -> bool
    ensures { result ≡ differs before field }
{
    before != Some(field)
}

// How many bytes a field takes.
pub fn field_length(stands: bool) -> usize
    ensures { result ≡ field_length stands }
{
    if stands { 2 } else { 0 }
}

// A pair's map: a bit for each of its fields that stands.
pub fn map_byte(gap: bool, size: bool) -> u8
    ensures { result ≡ map_byte gap size }
{
    u8::from(gap) + 2 * u8::from(size)
}
