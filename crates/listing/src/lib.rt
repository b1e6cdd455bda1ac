// The text that the program `report` prints for a case.
//   writing: bytes, numbers and lines
//   accepted: the models of a case, and the values of its formulas
//   settling: the rounds, and the lines of the settled table
#![tactic(auto)]

mod accepted;
mod settling;
mod writing;

ghost use Rattle.std.specs.Prelude.{◌+◌, ◌≤◌, ◌<◌, length};
ghost use Rattle.listing.specs.Text.{refused_text, formula_text, listing_text, Lists};
ghost use Rattle.listing.specs.Accepting.{FormulaFits, PutsFormula, FormulasFit, PutsFormulas};
ghost use Rattle.listing.specs.Lines.{Room, Puts};

use accepted::Accepted;
use elements::{Codes, Element};
use refusal::Refusal;
use settling::put_settled;
use writing::Text;

// ---- a refused case

// The line of a refusal.
#[tactic(auto, using(crate::specs::Decimal::decimal_three))]
fn put_refused(f: Refusal, text: &mut Text)
    requires { text.old.at + 16 ≤ length text.old.bytes.now }
    ensures { Puts text.old (refused_text f) text.new }
{
    let number = usize::from(f.number());
    let part = usize::from(f.part());
    text.put_item(b"refused ", number);
    text.put_last(b" ", part);
}

// ---- the formulas

// The line of a formula, from its values on models 1 and 2.
#[tactic(auto, unfolding(crate::specs::Text::formula_text))]
fn put_values(f: u8, v1: Element, v2: Element, text: &mut Text)
    requires { Room text.old (formula_text f v1.0 v2.0) }
    ensures { Puts text.old (formula_text f v1.0 v2.0) text.new }
{
    text.put_heading(b"formula ", usize::from(f));
    text.put_entry(v1.0);
    text.put_last(b" ", usize::from(v2.0));
}

// The line of formula f.
fn put_formula(case: &Accepted, f: u8, text: &mut Text)
    requires { (f < case.now.sizes.formulas) × FormulaFits case.now.bytes.now f text.old }
    ensures { PutsFormula case.now.bytes.now f text.old text.new }
{
    let v1 = case.whole(f, 1);
    let v2 = case.whole(f, 2);
    put_values(f, v1, v2, text);
}

// The lines of all formulas.
fn put_formulas(case: &Accepted, text: &mut Text)
    requires { FormulasFit case.now.bytes.now text.old }
    ensures { PutsFormulas case.now.bytes.now text.old text.new }
{
    for f in 0..case.sizes.formulas {
        put_formula(case, f, text);
    }
}

// ---- the whole text

// The text of an accepted case.
fn put_accepted(case: &Accepted, text: &mut Text)
    requires { text.old.at + 12957 ≤ length text.old.bytes.now }
    ensures { Puts text.old (listing_text case.now.bytes.now) text.new }
{
    put_settled(&case.algebra(), &case.models(), text);
    put_formulas(case, text);
}

// Writes what `report` prints for a case at the start of the text, and says how many bytes it has. The bytes after it are unchanged.
pub fn listing(case: &[u8], text: &mut [u8; 16384]) -> usize
    ensures { Lists case.now text.old text.new result }
{
    let mut codes = Codes::new();
    let mut text = Text { bytes: text, at: 0 };
    match casefile::check(case, &mut codes) {
        Err(f) => put_refused(f, &mut text),
        Ok(sizes) => {
            let accepted = Accepted {
                bytes: case,
                codes: &codes,
                sizes,
            };
            put_accepted(&accepted, &mut text)
        }
    }
    text.at
}
