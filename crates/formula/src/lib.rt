// Formula parts: whether the rules of the formula are obeyed, and the facts of the formula, in one pass over the tokens (formula_tokens).
//   two_of, next_of, fixpoint_of: the facts of a formula, from those of the formulas directly within it
#![tactic(auto)]

ghost use Rattle.std.specs.Prelude.{◌≡◌, ◌≤◌, ◌<◌, ltb, length};
ghost use Rattle.formula.specs.Bytes.{formula_reading};
ghost use Rattle.formula.specs.Answer.{checked};
ghost use Rattle.formula.specs.Check.{leaf_facts, two_facts, next_facts, fixpoint_facts, end_if, NodeIs};

use formula_tokens::{Token, token_at};

// What is reported of a formula as written. Fixpoints are not unrolled.
#[derive(Clone, Copy, PartialEq, Eq)]
pub struct FormulaFacts {
    // The deepest nesting of AX: at most 254, a part having at most 255 bytes.
    pub nesting: u8,
    // A fixpoint occurs.
    pub fixpoint: bool,
    // EX occurs.
    pub ex: bool,
}

// What is known of a formula inside a part that keeps the rules: where it ends, and its facts.
#[derive(Clone, Copy)]
struct NodeRead {
    end: usize,
    facts: FormulaFacts,
}

// A formula of one token.
fn leaf(end: usize) -> NodeRead
    ensures { result ≡ record { end = end; facts = leaf_facts } }
{
    NodeRead {
        end,
        facts: FormulaFacts {
            nesting: 0,
            fixpoint: false,
            ex: false,
        },
    }
}

// A number that has to be below a limit: the formula ends after it.
fn number_below(number: u8, limit: u8, end: usize) -> Option<NodeRead>
    ensures { result ≡ end_if (ltb number limit) end leaf_facts }
{
    (number < limit).then_some(leaf(end))
}

// Or and and.
fn two_of(first: FormulaFacts, second: FormulaFacts) -> FormulaFacts
    ensures { result ≡ two_facts first second }
{
    FormulaFacts {
        nesting: first.nesting.max(second.nesting),
        fixpoint: first.fixpoint | second.fixpoint,
        ex: first.ex | second.ex,
    }
}

// AX, else EX: `all` is the Bool of `next_facts` of specs/Check.
fn next_of(all: bool, within: FormulaFacts) -> FormulaFacts
    requires { within.nesting < 255 }
    ensures { result ≡ next_facts all within }
{
    FormulaFacts {
        nesting: within.nesting + u8::from(all),
        ex: within.ex | !all,
        ..within
    }
}

// Either fixpoint.
fn fixpoint_of(within: FormulaFacts) -> FormulaFacts
    ensures { result ≡ fixpoint_facts within }
{
    FormulaFacts {
        fixpoint: true,
        ..within
    }
}

// The formula that begins at a position, with k propositions, under as many binders as depth says; none where a rule is broken. It takes the
// part and a place, as `token_at` does: `NodeIs` says what is answered at a place.
#[tactic(auto, using(formula_tokens::specs::Sizes::end_most))]
fn node(f: &[u8], at: usize, k: u8, depth: u8) -> Option<NodeRead>
    requires { (depth ≤ 3) × (length f.now ≤ 255) }
    ensures { NodeIs f.now at k depth result }
{
    let token = token_at(f, at);
    let next = at + token.size();
    match token {
        Token::Bottom | Token::Top => Some(leaf(next)),
        Token::Literal { p, .. } => number_below(p.0, k, next),
        Token::Variable(v) => number_below(v, depth, next),
        Token::Two { .. } => {
            let first = node(f, next, k, depth)?;
            let second = node(f, first.end, k, depth)?;
            let facts = two_of(first.facts, second.facts);
            Some(NodeRead { facts, ..second })
        }
        Token::Next { all } => {
            let within = node(f, next, k, depth)?;
            let facts = next_of(all, within.facts);
            Some(NodeRead { facts, ..within })
        }
        Token::Fixpoint { .. } => {
            if depth >= 3 {
                return None;
            }
            let within = node(f, next, k, depth + 1)?;
            let facts = fixpoint_of(within.facts);
            Some(NodeRead { facts, ..within })
        }
        Token::End | Token::Broken => None,
    }
}

// The facts of a part that is a formula over k propositions and keeps every rule; none where a rule is broken, refusal 10.
#[tactic(auto, using(crate::proofs::Laws::whole_part))]
pub fn check(part: &[u8], k: u8) -> Option<FormulaFacts>
    ensures { result ≡ checked (formula_reading k part.now) }
{
    if part.len() > 255 {
        return None;
    }
    let whole = node(part, 0, k, 0)?;
    (whole.end == part.len()).then_some(whole.facts)
}
