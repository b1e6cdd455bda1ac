// The 128 codes of an accepted part: those of its elements and of their complements, and the rules of the complement tested on them.
ghost use Rattle.std.specs.Prelude.{◌≡◌, ◌+◌, ◌<◌, ◌≤◌, length};
ghost use Rattle.theory.specs.Lists.{Filled};
ghost use Rattle.theory.specs.Part.{element};
ghost use Rattle.theory.specs.Test.{all_below};
ghost use Rattle.elements.specs.Words.{within};
ghost use Rattle.lattice.specs.Reading.{lattice_of};
ghost use Rattle.lattice.specs.Filling.{words_by, antitone_pair, antitone, involutive};

use crate::part::Part;
use elements::{Codes, Element};

// The place of the first complement's code.
const COMPLEMENTS: usize = 64;

// Any number as an element. (`as`, as a remainder by 64 is within a byte: there is no `From`.)
#[tactic(auto, unfolding(theory::specs::Part::element))]
fn element_of(n: u8, k: usize) -> Element
    ensures { result.0 ≡ element n k }
{
    let r = (k % 64) as u8;
    if r < n { Element(r) } else { Element(0) }
}

// Where a is at or below b, not-b is at or below not-a.
#[tactic(auto, unfolding(crate::specs::Filling::antitone_pair))]
fn pair_antitone(w: &Codes, a: usize, b: usize) -> bool
    requires { (a < 64) × (b < 64) }
    ensures { result ≡ antitone_pair w.now.words a b }
{
    let x = w.words[a];
    let u = w.words[64 + b];
    x & w.words[b] != x || u & w.words[64 + a] == u
}

// The same for one a and each b. A function of its own, as a closure round a chain would need these clauses too.
fn row_antitone(w: &Codes, n: usize, a: usize) -> bool
    requires { (n ≤ 64) × (a < 64) }
    ensures { result ≡ all_below n (antitone_pair w.now.words a) }
{
    (0..n).all(|b| pair_antitone(w, a, b))
}

impl Part<'_> {
    // The word at place k: the code of an element, from 64 on that of its complement.
    fn word_at(self, codes: &[u64], k: usize) -> u64
        requires { length codes.now ≡ (lattice_of self.bytes.now).size }
        ensures { result ≡ words_by (lattice_of self.entry.bytes.now) codes.now k }
    {
        let e = element_of(self.size(), k);
        let a = if k < COMPLEMENTS {
            e
        } else {
            self.complement(e)
        };
        codes[usize::from(a.0)]
    }

    // The words at all places, by their numbers, as `words_by` says.
    pub(crate) fn fill_words(self, codes: &[u64], w: &mut Codes)
        requires { length codes.now ≡ (lattice_of self.bytes.now).size }
        ensures { Filled (words_by (lattice_of self.entry.bytes.now) codes.now) 128 w.new.words }
    {
        for k in 0..128 {
            w.words[k] = self.word_at(codes, k);
        }
    }

    // The complement of the complement is the element.
    pub(crate) fn is_involutive(self) -> bool
        ensures { result ≡ all_below (lattice_of self.entry.bytes.now).size (involutive (lattice_of self.entry.bytes.now)) }
    {
        (0..self.size()).all(|a| self.complement(self.complement(Element(a))).0 == a)
    }

    // Where an element is at or below another, the other's complement is at or below its own.
    pub(crate) fn is_antitone(self, w: &Codes) -> bool
        ensures { result ≡ antitone (lattice_of self.entry.bytes.now).size w.now.words }
    {
        let n = usize::from(self.size());
        (0..n).all(|a| row_antitone(w, n, a))
    }
}
