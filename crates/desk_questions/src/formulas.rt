// The calls that value a formula.
ghost use Rattle.std.specs.Prelude.{ℕ, ◌≡◌, ◌+◌, true, take, IfOk, IfErr};
ghost use Rattle.formula.specs.Answer.{FactsIn};
ghost use Rattle.casefile.specs.Directory.{part_at};
ghost use Rattle.desk.specs.Desk.{Question};
ghost use Rattle.desk.specs.Refused.{number_reply};
ghost use Rattle.desk_check.specs.Read.{desk_in};
ghost use Rattle.desk_check.specs.Held.{HeldDesk};
ghost use Rattle.desk_questions.specs.Answer.{Asks, value_reply};
ghost use Rattle.desk_questions.specs.Questions.{range_test};

use crate::Valued;
use casefile::Sizes;
use desk_check::Desk;
use elements::{Algebra, Codes};
use formula::FormulaFacts;
use model::{Model, State};
use refusal::Refusal;

// There is a formula f, and m is 1 or 2.
fn in_range(f: u8, m: u8, formulas: u8) -> bool
    ensures { result ≡ range_test f m formulas }
{
    f < formulas && matches!(m, 1 | 2)
}

// A formula and a model of a held desk, its lattice, and the facts of the formula.
#[derive(Clone, Copy)]
struct Asked<'a> {
    algebra: Algebra<'a>,
    model: Model<'a>,
    formula: &'a [u8],
    facts: FormulaFacts,
}

// Formula f and model m, where there is that formula and m is 1 or 2.
fn formula_on_model<'a>(
    d: Desk<'a, '_>,
    z: Sizes,
    w: &'a Codes,
    f: u8,
    m: u8,
) -> Result<Asked<'a>, Refusal>
    requires { HeldDesk (desk_in d) z w.now.words }
    ensures ok { IfOk result (λ a. (range_test f m z.formulas ≡ true)
        × (a.algebra.codes.now.words ≡ w.now.words) × (a.algebra.lattice ≡ z.lattice)
        × (a.model.bytes.now ≡ part_at (take 24576 d.entry.store.now) m)
        × (a.formula.now ≡ part_at (take 24576 d.entry.store.now) (3 + f))
        × FactsIn z.propositions a.formula.now a.facts) }
    ensures no_whole { IfErr result (λ r. Asks (Question.Whole f m) (desk_in d.entry) (number_reply r)) }
    ensures no_value { IfErr result (λ r. (q : ℕ) → Asks (Question.Value f m q) (desk_in d.entry) (number_reply r)) }
{
    if !in_range(f, m, z.formulas) {
        return Err(Refusal::OutOfRange);
    }
    let case = d.case();
    let model = Model {
        bytes: case.part(m),
    };
    let formula = case.part(3 + f);
    let algebra = Algebra {
        codes: w,
        lattice: z.lattice,
    };
    Ok(Asked {
        algebra,
        model,
        formula,
        facts: formula_reader::facts(formula, z.propositions),
    })
}

// A formula's value on model 1 or 2, with its facts.
pub fn whole(d: Desk, f: u8, m: u8) -> Result<Valued, Refusal>
    ensures { Asks (Question.Whole f m) (desk_in d.entry) (value_reply result) }
{
    let mut w = Codes::new();
    let z = d.examine(&mut w)?;
    let a = formula_on_model(d, z, &w, f, m)?;
    Ok(Valued {
        value: valuer::whole(&a.algebra, &a.model, a.formula),
        facts: a.facts,
    })
}

// A formula's element at a state of model 1 or 2, with its facts.
pub fn value(d: Desk, f: u8, m: u8, q: State) -> Result<Valued, Refusal>
    ensures { Asks (Question.Value f m q.0) (desk_in d.entry) (value_reply result) }
{
    let mut w = Codes::new();
    let z = d.examine(&mut w)?;
    let a = formula_on_model(d, z, &w, f, m)?;
    if a.model.states() <= usize::from(q.0) {
        return Err(Refusal::OutOfRange);
    }
    Ok(Valued {
        value: valuer::value(&a.algebra, &a.model, a.formula, q),
        facts: a.facts,
    })
}
