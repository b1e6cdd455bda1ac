// The codes of a lattice's elements and of their complements: meet is &, join is |.
ghost use Rattle.std.specs.Prelude.{◌≡◌, ◌≤◌, length, get_or, replicate};
ghost use Rattle.std.specs.List.{list_all, zip};
ghost use Rattle.theory.specs.Lists.{tab, written};
ghost use Rattle.elements.specs.Words.{code_in, negated_code_in, value_code, within, at_most_in};

use crate::Element;

// The codes of a lattice: that of element i at place i, that of its complement at 64 + i.
#[derive(Clone, Copy, PartialEq, Eq)]
pub struct Codes {
    pub words: [u64; 128],
}

impl Codes {
    // Room for the codes of a lattice.
    pub fn new() -> Codes
        ensures { result.words ≡ replicate 128 0 }
    {
        Codes { words: [0; 128] }
    }

    // The code of an element.
    pub fn code(&self, a: Element) -> u64
        ensures { result ≡ code_in self.now.words a.0 }
    {
        self.words[usize::from(a.0 % 64)]
    }

    // The code of its complement.
    pub fn negated_code(&self, a: Element) -> u64
        ensures { result ≡ negated_code_in self.now.words a.0 }
    {
        self.words[64 + usize::from(a.0 % 64)]
    }

    // The code of an element, or that of its complement: `negated` is the Bool of `value_code` of specs/Words.
    pub fn value_code(&self, negated: bool, a: Element) -> u64
        ensures { result ≡ value_code negated self.now.words a.0 }
    {
        if negated {
            self.negated_code(a)
        } else {
            self.code(a)
        }
    }

    // a is at or below b.
    pub fn at_most(&self, a: Element, b: Element) -> bool
        ensures { result ≡ at_most_in self.now.words a.0 b.0 }
    {
        let x = self.code(a);
        x & self.code(b) == x
    }

    // Each byte of s is at or below the element whose code stands at its place in `codes`. They are compared up to the first that is not.
    pub fn all_at_most(&self, s: &[u8], codes: &[u64]) -> bool
        requires { length s.now ≤ length codes.now }
        ensures { result ≡ list_all (λ p. within (code_in self.now.words p.0) p.1) (zip s.now codes.now) }
    {
        s.iter().zip(codes).all(|(&a, &y)| {
            let x = self.code(Element(a));
            x & y == x
        })
    }

    // The codes of the bytes of s, written at the front of out.
    pub fn encode(&self, s: &[u8], out: &mut [u64])
        requires { length s.now ≤ length out.old }
        ensures { out.new ≡ written 0 (tab (λ i. code_in self.now.words (get_or s.now i 0)) (length s.now) 0) out.old }
    {
        // An index into `out`: a loop over a zipped `iter_mut` leaves nothing known of what it writes.
        for (i, &a) in s.iter().enumerate() {
            out[i] = self.code(Element(a));
        }
    }
}
