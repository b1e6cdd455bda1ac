// The propositions' part of a row's entries. States and propositions are made by `as` of numbers that fit: there is no `From` of a usize.
ghost use Rattle.std.specs.Prelude.{◌≡◌, ◌≤◌, ◌<◌, length, get_or};
ghost use Rattle.std.specs.Int.Bits.{bit_and};
ghost use Rattle.theory.specs.Part.{model_of};
ghost use Rattle.theory.specs.Lists.{Filled};
ghost use Rattle.entries.specs.Words.{Replaced};
ghost use Rattle.entries.specs.Codes.{iff_code, propositions_code};

use crate::Models;
use elements::{Codes, Element};
use model::{Model, Proposition, State};

// Meets the word of each q2 with the code of a ↔ the value of p at q2; a is the value of p at q1.
fn meet_equivalent(w: &Codes, a: Element, m2: &Model, p: Proposition, out: &mut [u64])
    requires { (p.0 < get_or m2.now.bytes.now 1 0) × (length out.old ≡ get_or m2.now.bytes.now 0 0) }
    ensures { Replaced (λ q x. bit_and x (iff_code w.now.words a.0 ((model_of m2.now.bytes.now).label q p.0))) (get_or m2.now.bytes.now 0 0)
        out.old out.new }
{
    let x = w.negated_code(a);
    let y = w.code(a);
    for (q, z) in out.iter_mut().enumerate() {
        let b = m2.label(State(q as u8), p);
        *z = *z & ((x | w.code(b)) & (w.negated_code(b) | y));
    }
}

// The codes of the meet over all propositions of p1 ↔ p2, for each q2; `top` is the code of the top. (Codes and a word, and no Algebra: nothing is asked
// of them.)
pub fn propositions(w: &Codes, top: u64, m: &Models, q1: State, out: &mut [u64])
    requires { (q1.0 < get_or m.now.first.bytes.now 0 0) × (get_or m.now.second.bytes.now 0 0 ≤ length out.old) }
    ensures { Filled (propositions_code w.now.words top m.now.first.bytes.now m.now.second.bytes.now q1.0) (get_or m.now.second.bytes.now 0 0) out.new }
{
    let row = &mut out[..m.second.states()];
    row.fill(top);
    for p in 0..m.first.propositions() {
        let p = Proposition(p as u8);
        meet_equivalent(w, m.first.label(q1, p), &m.second, p, row);
    }
}
