// A lattice with the codes of its elements.
ghost use Rattle.std.specs.Prelude.{◌≡◌};
ghost use Rattle.elements.specs.Words.{decode_in, Coded};
ghost use Rattle.elements.specs.Unique.{Coded-prop};

use crate::{Codes, Element, Lattice};

// A lattice, and the codes of its elements.
#[derive(Clone, Copy)]
pub struct Algebra<'a> {
    pub codes: &'a Codes,
    pub lattice: Lattice,
    pub ghost coded: { Coded codes.now.words lattice } by { Coded-prop codes.now.words lattice },
}

impl<'a> Algebra<'a> {
    // The first number with the code x, 64 for none: what `decode_in` of specs/Words says, by which contracts above are equations, so that this is no
    // Option. The guess is tried first.
    pub fn decode(&self, x: u64, guess: Element) -> Element
        ensures { result.0 ≡ decode_in self.now.codes.now.words x }
    {
        if guess.0 < self.lattice.size && self.codes.code(guess) == x {
            return guess;
        }
        match (0..64).find(|&a| self.codes.words[usize::from(a)] == x) {
            Some(a) => Element(a),
            None => Element(64),
        }
    }
}
