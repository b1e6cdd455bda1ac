// The tokens of a formula part: what stands at a place, a code with its number, and how many bytes it has. `token_at` is the one function
// that decides by a formula's code; whoever goes over a part (formula, reader, valuer) goes by the token that it answers.
#![tactic(auto)]

ghost use Rattle.std.specs.Prelude.{◌≡◌};
ghost use Rattle.formula_tokens.specs.Tokens.{token_of, token_at, token_end, token_size};

use model::Proposition;

// What stands at a place of a formula part: a code with its number, if it has one; the part's end; or neither. Its Bools are those over which
// `token_of` and `node_of` of specs/Tokens and the theorems are stated; End and Broken are two answers, so that a token is no Option.
#[derive(Clone, Copy)]
pub enum Token {
    Bottom,
    Top,
    // A proposition, negated or not.
    Literal { p: Proposition, negated: bool },
    // The count of binders between the variable and its own.
    Variable(u8),
    // Or, else and: two formulas follow.
    Two { or: bool },
    // AX, else EX.
    Next { all: bool },
    // The least fixpoint, else the greatest.
    Fixpoint { least: bool },
    End,
    // A code from 11 to 255, or a code without the number that belongs to it.
    Broken,
}

// The token at the front of the bytes that are left.
#[tactic(auto, using(crate::proofs::Laws::front))]
fn token_of(left: &[u8]) -> Token
    ensures { result ≡ token_of left.now }
{
    match *left {
        [] => Token::End,
        [0, ..] => Token::Bottom,
        [1, ..] => Token::Top,
        [2, p, ..] => Token::Literal {
            p: Proposition(p),
            negated: false,
        },
        [3, p, ..] => Token::Literal {
            p: Proposition(p),
            negated: true,
        },
        [4, v, ..] => Token::Variable(v),
        [5, ..] => Token::Two { or: true },
        [6, ..] => Token::Two { or: false },
        [7, ..] => Token::Next { all: true },
        [8, ..] => Token::Next { all: false },
        [9, ..] => Token::Fixpoint { least: true },
        [10, ..] => Token::Fixpoint { least: false },
        // The number that belongs to the code is missing.
        [2..=4] => Token::Broken,
        [11..=255, ..] => Token::Broken,
    }
}

// The token at a place; past the part's end, the end.
#[tactic(auto, using(crate::specs::Sizes::at_end))]
pub fn token_at(f: &[u8], at: usize) -> Token
    ensures { result ≡ token_at f.now at }
{
    match f.get(at..) {
        Some(left) => token_of(left),
        None => Token::End,
    }
}

impl Token {
    // How many bytes the token has: its code, and its number if it has one. The end and a broken place have none.
    #[tactic(auto, unfolding(crate::specs::Tokens::token_size))]
    pub fn size(self) -> usize
        ensures { result ≡ token_size self }
    {
        match self {
            Token::Literal { .. } => 2,
            Token::Variable(_) => 2,
            Token::End | Token::Broken => 0,
            Token::Bottom
            | Token::Top
            | Token::Two { .. }
            | Token::Next { .. }
            | Token::Fixpoint { .. } => 1,
        }
    }
}

// Where the token at a place ends and the next one begins; the end of the part and a broken place are not passed.
#[tactic(auto, using(crate::specs::Sizes::end_most))]
pub fn token_end(f: &[u8], at: usize) -> usize
    ensures { result ≡ token_end f.now at }
{
    at + token_at(f, at).size()
}
