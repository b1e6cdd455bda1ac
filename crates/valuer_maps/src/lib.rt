// The maps of single nodes of a formula. A map from states to elements is 64 words, of which the first N count: the codes of its values
// (elements). w and l are a lattice's codes and numbers, apart, since an Algebra would ask that the codes are a lattice's; m is a model. A map is
// written into the lent array `out`.
// `out` is a slice with a clause of its length (map_words, list_bytes): an array's type would refuse callers that lend a slice of that length.
// A state's number is a usize here, since maps are indexed by it; with a u8 range each index would need a conversion in place of `State(q as u8)`.
//   successors: the states that AX and EX look at
#![tactic(auto)]

mod successors;

ghost use Rattle.std.specs.Prelude.{◌≡◌, ℕ, ◌*◌, ◌≤◌, ◌<◌, eqb, length, get_or};
ghost use Rattle.std.specs.Int.Bits.{bit_and, bit_or};
ghost use Rattle.theory.specs.Test.{all_below};
ghost use Rattle.elements.specs.Words.{code_in, negated_code_in};
ghost use Rattle.valuer_maps.specs.Code.{map_words, start_code, slot_of, Literals, Combined};

use elements::{Codes, Element, Lattice};
use model::{Model, Proposition, State};
pub use successors::{Successors, list_successors};

// Where a least fixpoint starts, the bottom's code, or a greatest one, the top's. (A bool says which, as in its definition start_code.)
#[tactic(auto, unfolding(crate::specs::Code::start_code))]
pub fn start_of(w: &Codes, l: Lattice, least: bool) -> u64
    ensures { result ≡ start_code w.now.words l least }
{
    if least { 0 } else { w.code(l.top) }
}

// The first n words are the same. (Whole maps with n beside them, as callers have: a map is 64 words, since a call allocates nothing.)
pub fn same(n: usize, x: &[u64; 64], y: &[u64; 64]) -> bool
    requires { n ≤ 64 }
    ensures { result ≡ all_below n (λ q. eqb (get_or x.now q 0) (get_or y.now q 0)) }
{
    x[..n] == y[..n]
}

// ---- the maps of nodes

// The maps of the variables: that of the nearest binder, and those of the binders one and two further out.
#[derive(Clone, Copy)]
pub struct Scope<'a> {
    pub near: &'a [u64; 64],
    pub mid: &'a [u64; 64],
    pub far: &'a [u64; 64],
}

impl<'a> Scope<'a> {
    // The map of variable v.
    #[tactic(auto, unfolding(crate::specs::Code::slot_of))]
    pub fn of(&self, v: u8) -> &'a [u64; 64]
        ensures { result.now ≡ slot_of self.now.near.now self.now.mid.now self.now.far.now v }
    {
        match v {
            0 => self.near,
            1 => self.mid,
            _ => self.far,
        }
    }
}

// A proposition, negated or not, as a bool says in the definition Literals.
pub fn literals(w: &Codes, m: &Model, negated: bool, p: Proposition, out: &mut [u64])
    requires { (p.0 < get_or m.now.bytes.now 1 0) × (length out.old ≡ map_words) }
    ensures { Literals w.now.words m.now.bytes.now negated p.0 out.new }
{
    write_first(
        m.states(),
        |q| w.value_code(negated, m.label(State(q as u8), p)),
        out,
    )
}

// The joins (up) or the meets of the first n words of two maps: `up` and n as in the definition Combined.
pub fn combined(up: bool, n: usize, x: &[u64; 64], y: &[u64; 64], out: &mut [u64])
    requires { (n ≤ 64) × (length out.old ≡ map_words) }
    ensures { Combined up x.now y.now n out.new }
{
    if up {
        write_first(n, |q| x[q] | y[q], out)
    } else {
        write_first(n, |q| x[q] & y[q], out)
    }
}

// Writes what f gives for each number below n.
fn write_first<F: Fn(usize) -> u64>(n: usize, f: F, out: &mut [u64])
    requires callable { (q : ℕ) → q < n → F.pre f q }
    requires room { n ≤ length out.old }
    ensures { (q : ℕ) → q < n → F.post f q (get_or out.new q 0) }
{
    for (q, word) in out[..n].iter_mut().enumerate() {
        *word = f(q);
    }
}

// ---- AX and EX

// What a transition of value r to a state whose value has the code x gives to AX: not-r | x, the code of r → x.
pub fn all_step(w: &Codes, r: Element, x: u64) -> u64
    ensures { result ≡ bit_or (negated_code_in w.now.words r.0) x }
{
    w.value_code(true, r) | x
}

// What it gives to EX: r & x.
fn some_step(w: &Codes, r: Element, x: u64) -> u64
    ensures { result ≡ bit_and (code_in w.now.words r.0) x }
{
    w.code(r) & x
}
