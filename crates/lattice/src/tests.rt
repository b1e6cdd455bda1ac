// The tests of the words of an order.
ghost use Rattle.std.specs.Prelude.{◌≡◌, Bool, ℕ, ◌^◌, ◌<◌, ◌≤◌, length};
ghost use Rattle.theory.specs.Lists.{Filled};
ghost use Rattle.theory.specs.Test.{all_below};
ghost use Rattle.elements.specs.Words.{within};
ghost use Rattle.lattice_codes.specs.Tests.{FoundAt, words_in, both, is_word, pair_ordered, ordered, pair_closed, closed, irreducible, irreducibles, all_of, codes_by, ordered_by};

use crate::places;

// The words of at most 64 elements, and the table of where each may stand.
#[derive(Clone, Copy)]
pub(crate) struct Words<'a> {
    pub words: &'a [u64],
    pub places: &'a [u8; 256],
    pub ghost most: { length words.now ≤ 64 },
}

fn bit(a: usize) -> u64
    requires { a < 64 }
    ensures { result ≡ 2 ^ a }
{
    1 << a
}

// x has bit b exactly where z is within y, and y and z are the same only for a and b the same. One test of both sides, so that no branch goes by
// the order.
#[tactic(auto, unfolding(lattice_codes::specs::Tests::ordered_by))]
fn pair_ordered(x: u64, y: u64, z: u64, a: usize, b: usize) -> bool
    requires { b < 64 }
    ensures { result ≡ ordered_by x y z a b }
{
    let k = bit(b);
    let p = (k & x) == k;
    let q = (z & y) == z;
    p == q && (y != z || a == b)
}

// The word with the bits of all n elements. (A fold of the numbers would say the same in the same words, and `irreducibles` below likewise.)
pub(crate) fn all_of(n: usize) -> u64
    requires { n ≤ 64 }
    ensures { result ≡ all_of n }
{
    let mut x = 0;
    for a in 0..n {
        x |= 1 << a;
    }
    x
}

impl<'a> Words<'a> {
    // The words, with the table filled from them.
    pub(crate) fn new(words: &'a [u64], places: &'a mut [u8; 256]) -> Words<'a>
        requires { length words.now ≤ 64 }
        ensures { result.words.now ≡ words.now }
    {
        places::fill(words, places);
        Words { words, places }
    }
}

impl Words<'_> {
    // Where x stands among the words.
    pub(crate) fn find(self, x: u64) -> Option<usize>
        ensures { FoundAt self.entry.words.now (length self.entry.words.now) x result }
    {
        if let Some(a) = self.guess(x) {
            return Some(a);
        }
        self.words.iter().position(|y| *y == x)
    }

    // ---- the order, by codes

    // `pair_ordered` for one a and each b. A function of its own, as a closure round a chain would need these clauses too.
    fn row_ordered(self, codes: &[u64], a: usize) -> bool
        requires { (length codes.now ≡ length self.words.now) × (a < length codes.now) }
        ensures { result ≡ all_below (length codes.now) (pair_ordered (words_in self.entry.words.now) (words_in codes.now) a) }
    {
        let x = self.words[a];
        let y = codes[a];
        (0..codes.len()).all(|b| pair_ordered(x, y, codes[b], a, b))
    }

    // The order is that of the codes, and no two codes are the same.
    pub(crate) fn is_ordered(self, codes: &[u64]) -> bool
        requires { length codes.now ≡ length self.words.now }
        ensures { result ≡ ordered (length codes.now) (words_in self.entry.words.now) (words_in codes.now) }
    {
        (0..codes.len()).all(|a| self.row_ordered(codes, a))
    }

    // ---- each & or each | of two words is a word

    // z is a word: that of a or of b, or another.
    fn has(self, z: u64, a: usize, b: usize) -> bool
        requires { (a < length self.words.now) × (b < length self.words.now) }
        ensures { result ≡ is_word (length self.entry.words.now) (words_in self.entry.words.now) z }
    {
        z == self.words[a] || z == self.words[b] || self.find(z).is_some()
    }

    // For each a that has its bit in the mask, and each b, the & or the | of the two words is a word.
    pub(crate) fn is_closed<F: Fn(u64, u64) -> u64>(self, mask: u64, op: F) -> bool
        ghost joins: { Bool }
        requires callable { F.IsAlwaysCallable op }
        requires gives { (x y r : ℕ) → F.post op x y r → r ≡ both joins x y }
        ensures { result ≡ closed (length self.entry.words.now) (words_in self.entry.words.now) mask joins }
    {
        let n = self.words.len();
        // A `for`, as nothing is known outside a closure of what a chain inside it answers.
        for a in 0..n {
            let k = bit(a);
            if (k & mask) != k {
                continue;
            }
            let x = self.words[a];
            let closed = (0..n).all(
                |b|
                    requires { (a < length self.words.now) × (b < length self.words.now) × F.IsAlwaysCallable op }
                { self.has(op(x, self.words[b]), a, b) },
            );
            if !closed {
                return false;
            }
        }
        true
    }

    // ---- codes

    // The others at or below a are those at or below one element.
    fn is_irreducible(self, a: usize) -> bool
        requires { a < length self.words.now }
        ensures { result ≡ irreducible (length self.entry.words.now) (words_in self.entry.words.now) a }
    {
        self.find(self.words[a].saturating_sub(bit(a))).is_some()
    }

    // The word of the irreducible elements.
    pub(crate) fn irreducibles(self) -> u64
        ensures { result ≡ irreducibles (length self.entry.words.now) (words_in self.entry.words.now) }
    {
        let mut x = 0;
        for a in 0..self.words.len() {
            x |= u64::from(self.is_irreducible(a)) << a;
        }
        x
    }

    // The code of each element.
    pub(crate) fn fill_codes(self, mask: u64, codes: &mut [u64])
        requires { length codes.old ≡ length self.words.now }
        ensures { Filled (codes_by self.entry.words.now mask) (length codes.new) codes.new }
    {
        // An index into `codes`: a loop over a zipped `iter_mut` leaves nothing known of what it writes.
        for (a, x) in self.words.iter().enumerate() {
            codes[a] = *x & mask;
        }
    }
}
