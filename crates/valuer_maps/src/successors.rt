// The successors of each state, listed once for a formula: AX and EX go along them alone, since a transition that is bottom takes nothing
// from a meet and adds nothing to a join.
ghost use Rattle.std.specs.Prelude.{◌≡◌, ℕ, ◌*◌, ◌<◌, length, get_or};
ghost use Rattle.theory.specs.Loop.{fold};
ghost use Rattle.theory.specs.Part.{model_of};
ghost use Rattle.elements.specs.Words.{code_in};
ghost use Rattle.valuer_maps.specs.Code.{map_words, all_next_code, some_next_code, NextMap};
ghost use Rattle.valuer_maps.specs.Successors.{list_bytes, leads, leads_to, RowListed, RowOf, SuccessorsOf};

use crate::{all_step, some_step, write_first};
use elements::{Codes, Element, Lattice};
use model::{Model, State};

// The successors of each state of a model, whose transitions are values of a lattice.
#[derive(Clone, Copy)]
pub struct Successors<'a> {
    pub codes: &'a Codes,
    pub lattice: Lattice,
    pub model: Model<'a>,
    // Row q has 65 bytes: how many successors q has, then their numbers in order. (The rows are of fixed size, since a call allocates nothing.)
    pub rows: &'a [u8; 4160],
    pub ghost listed: { SuccessorsOf codes.now.words lattice model.bytes.now rows.now },
}

impl<'a> Successors<'a> {
    // The numbers of the successors of q.
    fn of(&self, q: State) -> &'a [u8]
        requires { q.0 < get_or self.now.model.bytes.now 0 0 }
        ensures { let w = self.now.codes.now.words in let m = self.now.model.bytes.now in
            RowOf (leads_to w (code_in w self.now.lattice.top.0) m q.0) (get_or m 0 0) result.now }
    {
        let rows = self.rows;
        let at = usize::from(q.0) * 65;
        let count = usize::from(rows[at]);
        &rows[at + 1..][..count]
    }

    // AX of a map at q: the meet of what its transitions give to it.
    fn all_next(&self, top: u64, x: &[u64; 64], q: State) -> u64
        requires { (top ≡ code_in self.now.codes.now.words self.now.lattice.top.0) × (q.0 < get_or self.now.model.bytes.now 0 0) }
        ensures { result ≡ all_next_code self.now.codes.now.words top self.now.model.bytes.now x.now q.0 }
    {
        along(
            &self.model,
            q,
            self.of(q),
            x,
            top,
            |y, r, v| y & all_step(self.codes, r, v),
        )
    }

    // EX of a map at q: the join of what they give to it.
    fn some_next(&self, x: &[u64; 64], q: State) -> u64
        requires { q.0 < get_or self.now.model.bytes.now 0 0 }
        ensures { result ≡ some_next_code self.now.codes.now.words self.now.model.bytes.now x.now q.0 }
    {
        along(
            &self.model,
            q,
            self.of(q),
            x,
            0,
            |y, r, v| y | some_step(self.codes, r, v),
        )
    }

    // AX (all) or EX of a map, as a bool says in the definition NextMap.
    pub fn next_values(&self, all: bool, x: &[u64; 64], out: &mut [u64])
        requires { length out.old ≡ map_words }
        ensures { NextMap self.now.codes.now.words self.now.lattice self.now.model.bytes.now all x.now out.new }
    {
        let n = self.model.states();
        let top = self.codes.code(self.lattice.top);
        if all {
            write_first(n, |q| self.all_next(top, x, State(q as u8)), out)
        } else {
            write_first(n, |q| self.some_next(x, State(q as u8)), out)
        }
    }
}

// A fold along the transitions from q to the states of `row`: f takes what there is so far, a transition's value, and the word of x at the state that it
// leads to.
fn along<F: Fn(u64, Element, u64) -> u64>(
    m: &Model,
    q: State,
    row: &[u8],
    x: &[u64; 64],
    start: u64,
    f: F,
) -> u64
    requires callable { F.IsAlwaysCallable f }
    requires states { (q.0 < get_or m.now.bytes.now 0 0) × ((i : ℕ) → i < length row.now → get_or row.now i 0 < get_or m.now.bytes.now 0 0) }
    ensures { (h g : ℕ → ℕ → ℕ) → ((y : ℕ) → (r : Element) → (v z : ℕ) → F.post f y r v z → z ≡ h y (g r.0 v))
        → result ≡ fold h start
        (λ i. g ((model_of m.now.bytes.now).transition q.0 (get_or row.now i 0)) (get_or x.now (get_or row.now i 0) 0)) (length row.now) }
{
    let mut y = start;
    for &r in row {
        y = f(y, m.transition(q, State(r)), x[usize::from(r)]);
    }
    y
}

// Whether a transition of this value is to be looked at: it is not bottom, or else its complement is not top.
fn leads(w: &Codes, top: u64, e: Element) -> bool
    ensures { result ≡ leads w.now.words top e.0 }
{
    (w.code(e) != 0) | (w.negated_code(e) != top)
}

// Writes the row of q: each state is written, and stays where it is a successor. (By an index: what a loop over a zipped iter_mut writes is not known
// to a proof.)
fn list_row(w: &Codes, top: u64, m: &Model, q: State, row: &mut [u8])
    requires { (q.0 < get_or m.now.bytes.now 0 0) × (length row.old ≡ 65) }
    ensures { RowListed (leads_to w.now.words top m.now.bytes.now q.0) (get_or m.now.bytes.now 0 0) 0 row.new }
{
    let mut count = 0;
    for r in 0..m.bytes[0] {
        row[1 + count] = r;
        count += usize::from(leads(w, top, m.transition(q, State(r))));
    }
    row[0] = count as u8;
}

// The successors of every state. (By places, as SuccessorsOf says where a row stands: an iterator over chunks of 65 bytes would still be cut off after
// the states, and counted.)
pub fn list_successors(w: &Codes, l: Lattice, m: &Model, out: &mut [u8])
    requires { length out.old ≡ list_bytes }
    ensures { SuccessorsOf w.now.words l m.now.bytes.now out.new }
{
    let top = w.code(l.top);
    for q in 0..m.states() {
        list_row(w, top, m, State(q as u8), &mut out[q * 65..q * 65 + 65]);
    }
}
