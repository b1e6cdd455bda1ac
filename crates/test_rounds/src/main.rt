// The worked examples 1 to 4 and 6 of document 01, and one for request 103, by the functions on tables: each round, how many pairs its entries looked at,
// whether its table is at or below F of it (request 104), T, score, and the shares as of request 101.
#![tactic(auto)]

ghost use Rattle.std.specs.Prelude.{◌≡◌, ◌+◌, ◌*◌, ◌≤◌, ◌<◌, length, get_or};
ghost use Rattle.theory.specs.Part.{ModelShape};

use elements::{Algebra, Codes, Element};
use entries::{Models, Table};
use model::{Model, State};
use std::io;

// ---- printing

// A row by its number and its entries, on a line.
fn show_row(rt: &impl Print, q1: usize, entries: &[u8]) -> io::Result<()> {
    print!(rt; "row {q1}:")?;
    test_printing::bytes(rt, entries)?;
    println!(rt; "")
}

fn show_round(rt: &impl Print, r: usize, t: &Table) -> io::Result<()> {
    println!(rt; "round {r}")?;
    for q in 0..t.models.first.states() {
        show_row(rt, q, t.row(State(q as u8)))?;
    }
    Ok(())
}

// How many pairs working each entry of row q1 of F of a table looks at, on a line.
fn show_pairs(rt: &impl Print, a: &Algebra, t: &Table, q1: State) -> io::Result<()>
    requires { q1.0 < get_or t.now.models.first.bytes.now 0 0 }
{
    let q = q1.0;
    print!(rt; "pairs of row {q}:")?;
    for q2 in 0..t.models.second.states() {
        let n = entries::entry_of(a, t, q1, State(q2 as u8)).pairs;
        print!(rt; " {n}")?;
    }
    println!(rt; "")
}

// The same of every row.
fn show_all_pairs(rt: &impl Print, a: &Algebra, t: &Table) -> io::Result<()> {
    for q1 in 0..t.models.first.states() {
        show_pairs(rt, a, t, State(q1 as u8))?;
    }
    Ok(())
}

// Whether each entry of a table is at or below that of F of the table.
fn show_sound(rt: &impl Print, a: &Algebra, t: &Table) -> io::Result<()> {
    if rounds::is_post_fixed(a, t) {
        println!(rt; "sound")
    } else {
        println!(rt; "not sound")
    }
}

// What is said of the round that changed nothing.
fn show_settled(rt: &impl Print, a: &Algebra, t: &Table, r: usize) -> io::Result<()> {
    println!(rt; "settled {r}")?;
    let e = rounds::score(a, t).0;
    println!(rt; "score {e}")
}

// ---- an example

// Works rounds, from all top, up to the first that changes nothing.
fn settle(rt: &impl Print, a: &Algebra, m: &Models) -> io::Result<()>
    requires { get_or m.now.first.bytes.now 0 0 * get_or m.now.second.bytes.now 0 0 ≤ 64 }
{
    let top = a.lattice.top.0;
    let mut s = [top; 64];
    let mut out = [top; 64];
    for r in 1..17 {
        let shown = Table {
            models: *m,
            bytes: &s,
        };
        let changed = rounds::round(a, &shown, &mut out);
        let next = Table {
            models: *m,
            bytes: &out,
        };
        show_round(rt, r, &next)?;
        show_all_pairs(rt, a, &shown)?;
        show_sound(rt, a, &next)?;
        if !changed {
            return show_settled(rt, a, &next, r);
        }
        s = out;
    }
    Ok(())
}

// One example, over the lattice of a lattice part.
fn example<'x>(
    rt: &impl Print,
    number: usize,
    part: &[u8],
    m1: &'x [u8],
    m2: &'x [u8],
) -> io::Result<()>
    requires { ModelShape m1.now × ModelShape m2.now × (get_or m1.now 1 0 ≡ get_or m2.now 1 0) × (get_or m1.now 0 0 * get_or m2.now 0 0 ≤ 64) }
{
    println!(rt; "example {number}")?;
    let mut w = Codes::new();
    match lattice::check(part, &mut w) {
        Err(r) => test_printing::refused(rt, r),
        Ok(l) => {
            let a = Algebra {
                codes: &w,
                lattice: l,
            };
            let m = Models {
                first: Model { bytes: m1 },
                second: Model { bytes: m2 },
            };
            settle(rt, &a, &m)
        }
    }
}

// The lattice parts of the chains of one, two and three elements: n, the complements, the order.
const L1: [u8; 3] = [1, 0, 1];

const L2: [u8; 7] = [2, 1, 0, 1, 1, 0, 1];

const L3: [u8; 13] = [3, 2, 1, 0, 1, 1, 1, 0, 1, 1, 0, 0, 1];

fn first_examples(rt: &impl Print) -> io::Result<()> {
    let a = [1u8, 1, 2, 1, 0];
    example(rt, 1, &L3, &a, &a)?;
    let b = [1u8, 0, 1, 1];
    let c = [1u8, 0, 1, 0];
    example(rt, 2, &L2, &b, &c)?;
    example(rt, 2, &L2, &c, &b)
}

fn last_examples(rt: &impl Print) -> io::Result<()> {
    let a = [1u8, 0, 2, 1];
    let b = [1u8, 0, 2, 0];
    example(rt, 3, &L3, &a, &b)?;
    let c = [2u8, 1, 1, 0, 0, 1, 0, 1, 0, 0];
    let d = [2u8, 1, 1, 0, 0, 0, 0, 1, 0, 0];
    example(rt, 4, &L2, &c, &d)?;
    let e = [1u8, 0, 0, 0];
    example(rt, 6, &L1, &e, &e)
}

// For request 103: in row 0 the join of entry (0, 0) is top with its first pair, and the meet of entry (0, 1) is bottom after its first state.
fn early_ends(rt: &impl Print) -> io::Result<()> {
    let a = [2u8, 0, 1, 0, 1, 1, 0, 0];
    let b = [2u8, 0, 1, 0, 1, 0, 0, 0];
    example(rt, 103, &L2, &a, &b)
}

// ---- share

// The share of entries at or above 1, of a table of n entries the first c of which are 1.
fn share(rt: &impl Print, c: usize, n: usize) -> io::Result<()>
    requires { (c ≤ n) × (0 < n) × (n ≤ 200) }
{
    let mut w = Codes::new();
    let _ = lattice::check(&L2, &mut w);
    let mut s = [0u8; 200];
    s[..c].fill(1);
    let share = share::share(&w, Element(1), &s[..n]);
    println!(rt; "share of {c} in {n}: {share}")
}

fn main(rt: HostRuntime) -> io::Result<()> {
    first_examples(&rt)?;
    last_examples(&rt)?;
    early_ends(&rt)?;
    share(&rt, 1, 8)?;
    share(&rt, 3, 8)?;
    share(&rt, 5, 8)?;
    share(&rt, 7, 8)?;
    share(&rt, 8, 8)?;
    share(&rt, 1, 200)?;
    share(&rt, 3, 200)?;
    share(&rt, 199, 200)
}
