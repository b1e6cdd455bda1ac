// The crates at the greatest sizes. For each of three lattices, made by the check of its part, of 64, 64 and 27 elements: the last row of F of
// a table between models of 64 states and 16 propositions, and the score of F of it; then, at every state of model 1 and on the whole
// of it, the values of formulas of 255 bytes and of 1 to 3 nested binders.
#![tactic(auto)]

mod filling;

ghost use Rattle.std.specs.Prelude.{◌≡◌, ◌+◌, ◌≤◌, length};
ghost use Rattle.valuer.specs.Values.{ModelOver, Reads};
ghost use Rattle.valuer.specs.Unique.{ModelOver-prop};
ghost use Rattle.test_limits.specs.Full.{Full};

use elements::{Algebra, Codes};
use entries::{Models, Table};
use filling::Filling;
use model::{Model, State};
use std::io;

// Bytes as numbers, a blank after each.
fn show_values(rt: &impl Print, x: &[u8]) -> io::Result<()> {
    for &v in x {
        print!(rt; "{v} ")?;
    }
    Ok(())
}

fn rows(a: &Algebra, t: &Table, out: &mut [u8])
    requires { Full t.now.models.first.bytes.now × Full t.now.models.second.bytes.now × (length out.old ≡ 4096) }
{
    for q in 0..64u8 {
        rounds::row(a, t, out, State(q));
    }
}

// The last row of F of a table, and the score of F of it.
fn show_row(rt: &impl Print, a: &Algebra, t: &Table) -> io::Result<()>
    requires { Full t.now.models.first.bytes.now × Full t.now.models.second.bytes.now }
{
    let mut out = [0u8; 4096];
    rows(a, t, &mut out);
    print!(rt; "row 63 ")?;
    show_values(rt, &out[4032..])?;
    let next = Table {
        models: t.models,
        bytes: &out,
    };
    let score = rounds::score(a, &next).0;
    println!(rt; "{score}")
}

// A model of 64 states and 16 propositions over a lattice.
#[derive(Clone, Copy)]
struct FullModel<'a> {
    algebra: Algebra<'a>,
    model: Model<'a>,
    ghost over: { ModelOver algebra.codes.now.words algebra.lattice
        model.bytes.now } by { ModelOver-prop algebra.codes.now.words algebra.lattice model.bytes.now },
    ghost full: { Full model.bytes.now },
}

// The values of a formula at the states, and that on the whole model.
fn show_value(rt: &impl Print, v: &FullModel, f: &[u8]) -> io::Result<()>
    requires { Reads v.now.model.bytes.now f.now }
{
    for q in 0..64u8 {
        let value = valuer::value(&v.algebra, &v.model, f, State(q)).0;
        print!(rt; "{value} ")?;
    }
    let whole = valuer::whole(&v.algebra, &v.model, f).0;
    println!(rt; "{whole}")
}

fn show(rt: &impl Print, name: &str, v: &FullModel, f: &[u8]) -> io::Result<()> {
    print!(rt; "{name}")?;
    match formula::check(f, 16) {
        Some(_) => show_value(rt, v, f),
        None => println!(rt; "refused"),
    }
}

// Formulas of 255 bytes: AX 253 times, and p; 'AX p or' 63 times, and EX p.
fn show_long(rt: &impl Print, v: &FullModel) -> io::Result<()> {
    let mut f = [7u8; 255];
    f[253] = 2;
    f[254] = 0;
    show(rt, "253 AX ", v, &f)?;
    filling::fill(&mut f, Filling::Joined, 64);
    f[252] = 8;
    f[253] = 2;
    f[254] = 0;
    show(rt, "63 or ", v, &f)
}

fn show_fixpoint(rt: &impl Print, v: &FullModel) -> io::Result<()> {
    show(rt, "nu z. p and AX z ", v, b"\x0a\x06\x02\x00\x07\x04\x00")
}

fn show_fixpoints(rt: &impl Print, v: &FullModel) -> io::Result<()> {
    show(rt, "mu z. p or AX z ", v, b"\x09\x05\x02\x00\x07\x04\x00")?;
    show(
        rt,
        "nu y. mu z. (p and AX y) or AX z ",
        v,
        b"\x0a\x09\x05\x06\x02\x00\x07\x04\x01\x07\x04\x00",
    )?;
    show(
        rt,
        "nu x. mu y. nu z. (p and EX x) or (AX y and EX z) ",
        v,
        b"\x0a\x09\x0a\x05\x06\x02\x00\x08\x04\x02\x06\x07\x04\x01\x08\x04\x00",
    )
}

fn show_all(rt: &impl Print, v: &FullModel) -> io::Result<()> {
    show_fixpoint(rt, v)?;
    show_long(rt, v)?;
    show_fixpoints(rt, v)
}

fn over(rt: &impl Print, a: &Algebra, t: &Table) -> io::Result<()>
    requires { Full t.now.models.first.bytes.now × Full t.now.models.second.bytes.now }
{
    show_row(rt, a, t)?;
    let m1 = &t.models.first;
    match model::check(m1.bytes, a.lattice.size) {
        None => println!(rt; "refused"),
        Some(_) => {
            let v = FullModel {
                algebra: *a,
                model: *m1,
            };
            show_all(rt, &v)
        }
    }
}

// The lattice of a part, and the work over it.
fn checked<'x>(
    rt: &impl Print,
    part: &[u8],
    m1: &'x [u8],
    m2: &'x [u8],
    s: &'x [u8],
) -> io::Result<()>
    requires { Full m1.now × Full m2.now × (length s.now ≡ 4096) }
{
    let mut w = Codes::new();
    match lattice::check(part, &mut w) {
        Err(r) => {
            let n = r.number();
            println!(rt; "refused {n}")
        }
        Ok(l) => {
            let n = l.size;
            println!(rt; "{n}")?;
            let a = Algebra {
                codes: &w,
                lattice: l,
            };
            let m = Models {
                first: Model { bytes: m1 },
                second: Model { bytes: m2 },
            };
            let t = Table {
                models: m,
                bytes: s,
            };
            over(rt, &a, &t)
        }
    }
}

// The part of a lattice of n elements, with models and a table.
fn work(rt: &impl Print, name: &str, part: &[u8], n: usize) -> io::Result<()>
    requires { (9 ≤ n) × (n ≤ 64) }
{
    print!(rt; "{name}")?;
    let mut m1 = [0u8; 5186];
    filling::fill_model(&mut m1, Filling::First, n);
    let mut m2 = [0u8; 5186];
    filling::fill_model(&mut m2, Filling::Second, n);
    let mut s = [0u8; 4096];
    filling::fill(&mut s, Filling::Table, n);
    checked(rt, part, &m1, &m2, &s)
}

fn work_large(rt: &impl Print, name: &str, what: Filling) -> io::Result<()> {
    let mut part = [0u8; 4161];
    filling::fill(&mut part, what, 64);
    work(rt, name, &part, 64)
}

fn main(rt: HostRuntime) -> io::Result<()> {
    work_large(&rt, "a chain ", Filling::Chain)?;
    work_large(&rt, "the subsets of six things ", Filling::Subsets)?;
    work(&rt, "the panel lattice ", &[0], 27)
}
