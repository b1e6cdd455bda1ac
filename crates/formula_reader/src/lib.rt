// Reading a formula part: its facts, and going through it token by token, with a struct that holds the part's bytes and a place. The work is in
// functions over a slice and a place (formula_tokens), by which `formula::check` and the valuer go as well.
#![tactic(auto)]

ghost use Rattle.std.specs.Prelude.{◌≡◌};
ghost use Rattle.formula_tokens.specs.Tokens.{token_at, token_end};
ghost use Rattle.formula.specs.Answer.{IsFormula, FactsIn};

use formula::FormulaFacts;
use formula_tokens::{Token, token_at, token_end};

// The facts of a part that is a formula over k propositions.
pub fn facts(part: &[u8], k: u8) -> FormulaFacts
    requires { IsFormula k part.now }
    ensures { FactsIn k part.now result }
{
    formula::check(part, k).unwrap()
}

// A formula part with a place in it. No Iterator: a caller looks at a token before it is passed, and a broken place, which is not passed, would
// come again without end.
#[derive(Clone, Copy)]
pub struct FormulaReader<'a> {
    pub bytes: &'a [u8],
    pub at: usize,
}

impl<'a> FormulaReader<'a> {
    // A reader at the beginning of a part.
    pub fn new(bytes: &'a [u8]) -> Self
        ensures { (result.bytes ≡ bytes.entry) × (result.at ≡ 0) }
    {
        FormulaReader { bytes, at: 0 }
    }

    // The token at the reader's place.
    pub fn peek(self) -> Token
        ensures { result ≡ token_at self.entry.bytes.now self.entry.at }
    {
        token_at(self.bytes, self.at)
    }

    // The reader moved on past the token at its place.
    pub fn advance(self) -> Self
        ensures { (result.bytes ≡ self.entry.bytes) × (result.at ≡ token_end self.entry.bytes.now self.entry.at) }
    {
        FormulaReader {
            at: token_end(self.bytes, self.at),
            ..self
        }
    }
}
