// A cycle in memory: a lent list of pairs, gap then size. `unpack` copies such a list into lent 16-bit numbers, and `pack` copies them
// back into a lent list. Every function that works on a cycle, but for those of the crate `normal`, takes a flat slice. What a cycle's gaps and sizes may be, and how a cycle is written to a file, is left to others.
#![tactic(auto)]

ghost use Rattle.std.specs.Prelude.{◌≡◌, ◌==◌, ◌*◌, ◌/◌, length};
ghost use Rattle.std.proofs.Common.{rules};
ghost use Rattle.std.specs.Cmp.Rules.{comparing};
ghost use Rattle.std.specs.Ordering.{on, eq_of_both};
ghost use Rattle.pairs.specs.Pairs.{count_in, flatten, pairs_of, laid_over, that_fit};

// The most pairs that a cycle has.
pub const MOST_PAIRS: usize = 512;

#[repr(C)]
#[derive(Clone, Copy, Debug)]
pub struct Pair {
    // Minutes from this report to the next.
    pub gap: u16,
    // Records of this report.
    pub size: u16,
}

impl PartialEq for Pair {
    ghost eq = { eq_of_both (on (λ p. p.gap) ◌==◌) (on (λ p. p.size) ◌==◌) };

    ghost laws = { Prim.search (comparing, rules) };

    // With no branch between the two, so that slices of pairs are compared many pairs at a time: a derived `==` would have one.
    fn eq(&self, other: &Pair) -> bool {
        (self.gap == other.gap) & (self.size == other.size)
    }
}

impl Eq for Pair {
    ghost laws = { Prim.search (comparing, rules) };
}

// Whether so many pairs are a cycle.
pub fn count_in(count: usize) -> bool
    ensures { result ≡ count_in count }
{
    (1..=MOST_PAIRS).contains(&count)
}

// The numbers of a lent list of pairs, stored in front of lent words: gap, size, gap, size, .. Tells how many words they take. Where the
// words have no room for all of the pairs, none are stored.
pub fn unpack(pairs: &[Pair], words: &mut [u16]) -> usize
    ensures { (result ≡ 2 * length (that_fit (length words.old / 2) pairs.now))
        × (words.new ≡ laid_over (flatten (that_fit (length words.old / 2) pairs.now)) words.old) }
{
    if words.len() / 2 < pairs.len() {
        return 0;
    }
    // Stored by the index: of words written through `as_chunks_mut` std doesn't say what they hold afterwards. Each pair is taken by the index
    // too, whole: so all of this is one copy of memory, which it is not with pairs lent by an iterator.
    for i in 0..pairs.len() {
        let pair = pairs[i];
        words[2 * i] = pair.gap;
        words[2 * i + 1] = pair.size;
    }
    2 * pairs.len()
}

// The pairs that flat words hold, stored in front of a lent list. Where the list has no place for all of them, none are stored.
pub fn pack(words: &[u16], places: &mut [Pair])
    ensures { places.new ≡ laid_over (that_fit (length places.old) (pairs_of words.now)) places.old }
{
    let (numbers, _) = words.as_chunks::<2>();
    if places.len() < numbers.len() {
        return;
    }
    for (i, &[gap, size]) in numbers.iter().enumerate() {
        places[i] = Pair { gap, size };
    }
}
