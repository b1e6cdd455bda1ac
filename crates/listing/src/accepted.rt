// A case that is accepted: its lattice, its models, and the values of its formulas.
ghost use Rattle.std.specs.Prelude.{◌≡◌, ◌<◌, true, Ok};
ghost use Rattle.theory.specs.Value.{whole_value};
ghost use Rattle.casefile.specs.Directory.{part_at};
ghost use Rattle.casefile.specs.Reading.{Content, content, case_reading};
ghost use Rattle.casefile.specs.Answer.{CaseAnswered};
ghost use Rattle.desk.specs.Case.{ops, model_in, formula_in};
ghost use Rattle.desk.specs.Refused.{is_model};
ghost use Rattle.listing.specs.Unique.{CaseAnswered-prop};

use casefile::{Case, Sizes};
use elements::{Algebra, Codes, Element};
use entries::Models;
use model::Model;

// The bytes of a case that is accepted, the codes of its lattice, and its sizes.
#[derive(Clone, Copy)]
pub struct Accepted<'a> {
    pub bytes: &'a [u8],
    pub codes: &'a Codes,
    pub sizes: Sizes,
    pub ghost answered: { CaseAnswered bytes.now (Ok sizes) codes.now.words } by { CaseAnswered-prop bytes.now (Ok sizes) codes.now.words },
}

impl<'a> Accepted<'a> {
    // Its lattice.
    pub fn algebra(&self) -> Algebra<'a>
        ensures { (result.codes.now.words ≡ self.now.codes.now.words) × (result.lattice ≡ self.now.sizes.lattice) }
    {
        Algebra {
            codes: self.codes,
            lattice: self.sizes.lattice,
        }
    }

    // Model m, 1 or 2: a number, since `InCase` and the desk's `is_model` of specs say by number which model it is.
    fn model(&self, m: u8) -> Model<'a>
        requires { is_model m ≡ true }
        ensures { result.bytes.now ≡ part_at self.now.bytes.now m }
    {
        let case = Case { bytes: self.bytes };
        let bytes = case.part(m);
        Model { bytes }
    }

    // Both models, as `Desk::models` makes a desk's: those of a case that is answered, and not of a store that is held.
    pub fn models(&self) -> Models<'a>
        ensures { (result.first.bytes.now ≡ part_at self.now.bytes.now 1) × (result.second.bytes.now ≡ part_at self.now.bytes.now 2) }
    {
        let first = self.model(1);
        let second = self.model(2);
        Models { first, second }
    }

    // The value of formula f on model m, 1 or 2.
    pub fn whole(&self, f: u8, m: u8) -> Element
        requires { (f < self.now.sizes.formulas) × (is_model m ≡ true) }
        ensures { (c : Content) → case_reading self.now.bytes.now ≡ content c
            → result.0 ≡ whole_value (ops c) (model_in c m) (formula_in c f) }
    {
        let case = Case { bytes: self.bytes };
        let formula = case.part(3 + f);
        valuer::whole(&self.algebra(), &self.model(m), formula)
    }
}
