// The calls that only read the desk, with the standing by value.
//   tables: `show`, `score`, `share` and `judge`
//   formulas: `whole` and `value`
//   writing: `write`
#![tactic(auto)]

mod formulas;
mod tables;
mod writing;

use elements::Element;
use formula::FormulaFacts;
pub use formulas::{value, whole};
pub use tables::{judge, score, share, show};
pub use writing::write;

// What value and whole answer: the element, and the facts of the formula.
#[derive(Clone, Copy)]
pub struct Valued {
    pub value: Element,
    pub facts: FormulaFacts,
}
