// The values of formulas at the states of a model. A map from states to elements is 64 words, of which the first N count: the codes of its
// values (elements). It is written into the lent array `out`, and a value is decoded at the end, once. f is a formula part (formula).
//   valuation: the maps of the formulas within it, by the token at each place (formula_tokens)
#![tactic(auto)]

mod valuation;

ghost use Rattle.std.specs.Prelude.{◌≡◌, ◌<◌, get_or};
ghost use Rattle.valuer.specs.Values.{ModelOver, Reads, ValueAt, WholeValue};
ghost use Rattle.valuer.specs.Node.{CodedValues, whole_code};

use elements::{Algebra, Element};
use model::{Model, State};
use valuation::Valuation;
use valuer_maps::{Scope, Successors, all_step, list_successors};

// The values of a formula part at all states, in codes.
fn valued<'a>(a: &Algebra<'a>, m: &Model<'a>, f: &'a [u8]) -> [u64; 64]
    requires { ModelOver a.now.codes.now.words a.now.lattice m.now.bytes.now × Reads m.now.bytes.now f.now }
    ensures { CodedValues a.now.codes.now.words a.now.lattice m.now.bytes.now f.now result }
{
    let mut rows = [0u8; 4160];
    list_successors(a.codes, a.lattice, m, &mut rows);
    let successors = Successors {
        codes: a.codes,
        lattice: a.lattice,
        model: *m,
        rows: &rows,
    };
    let valuation = Valuation {
        successors,
        formula: f,
    };
    let none = [0u64; 64];
    let scope = Scope {
        near: &none,
        mid: &none,
        far: &none,
    };
    let mut spare = [0u64; 64];
    let mut out = [0u64; 64];
    let _ = valuation.node(0, &scope, &mut spare, &mut out);
    out
}

// The value at one state. That the model is over the lattice, and that the part is read as a formula, are clauses: callers have these facts at hand, and
// the second may hold in more than one way, which a ghost field does not take. That q is one of the states is a clause too: a State does not hold its
// model.
pub fn value(a: &Algebra, m: &Model, f: &[u8], q: State) -> Element
    requires { ModelOver a.now.codes.now.words a.now.lattice m.now.bytes.now × Reads m.now.bytes.now f.now × (q.0 < get_or m.now.bytes.now 0 0) }
    ensures { ValueAt a.now.codes.now.words a.now.lattice m.now.bytes.now f.now q.0 result.0 }
{
    let x = valued(a, m, f);
    a.decode(x[usize::from(q.0)], a.lattice.top)
}

// The code of the meet over all states of initial value → x. (q is a usize, since x is indexed by it.)
fn from_initial(a: &Algebra, m: &Model, x: &[u64; 64]) -> u64
    ensures { result ≡ whole_code a.now.codes.now.words a.now.lattice m.now.bytes.now x.now }
{
    let mut y = a.codes.code(a.lattice.top);
    for q in 0..m.states() {
        y &= all_step(a.codes, m.initial(State(q as u8)), x[q]);
    }
    y
}

// The value of a formula part on the whole model.
pub fn whole(a: &Algebra, m: &Model, f: &[u8]) -> Element
    requires { ModelOver a.now.codes.now.words a.now.lattice m.now.bytes.now × Reads m.now.bytes.now f.now }
    ensures { WholeValue a.now.codes.now.words a.now.lattice m.now.bytes.now f.now result.0 }
{
    let x = valued(a, m, f);
    a.decode(from_initial(a, m, &x), a.lattice.top)
}
