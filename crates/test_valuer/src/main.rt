// Worked example 5 and Table 1 of 000 by the running valuer, over the subsets of {a, b, c}. A set is the number with 1 for a, 2 for b
// and 4 for c. From q0 two transitions of {b, c}, p being {a, b}, {b} and {b, c}. The transitions of q1 and q2, which 000 gives in a
// figure, are here those of {a, b, c} to q1, with which the rounds of Table 1 come out.
#![tactic(auto)]

ghost use Rattle.std.specs.Prelude.{◌≡◌, get_or};
ghost use Rattle.valuer.specs.Values.{ModelOver, Reads};

use elements::{Algebra, Codes};
use model::{Model, State};
use std::io;

fn show_set(rt: &impl Print, x: u8) -> io::Result<()> {
    print!(rt; " {{")?;
    for (i, name) in ["a", "b", "c"].iter().enumerate() {
        if x & (1 << i) != 0 {
            print!(rt; "{name}")?;
        }
    }
    print!(rt; "}}")
}

// A formula's values at all states, and on the whole model.
fn show(rt: &impl Print, name: &str, a: &Algebra, m: &Model, f: &[u8]) -> io::Result<()>
    requires { ModelOver a.now.codes.now.words a.now.lattice m.now.bytes.now × Reads m.now.bytes.now f.now }
{
    print!(rt; "{name}")?;
    for q in 0..m.bytes[0] {
        show_set(rt, valuer::value(a, m, f, State(q)).0)?;
    }
    print!(rt; " whole")?;
    show_set(rt, valuer::whole(a, m, f).0)?;
    println!(rt; "")
}

fn show_all(rt: &impl Print, a: &Algebra, m: &Model) -> io::Result<()>
    requires { ModelOver a.now.codes.now.words a.now.lattice m.now.bytes.now × (get_or m.now.bytes.now 1 0 ≡ 1) }
{
    show(rt, "p", a, m, b"\x02\x00")?;
    show(rt, "not p", a, m, b"\x03\x00")?;
    show(rt, "AX p", a, m, b"\x07\x02\x00")?;
    show(rt, "EX p", a, m, b"\x08\x02\x00")?;
    show(
        rt,
        "nu z. p and AX z",
        a,
        m,
        b"\x0a\x06\x02\x00\x07\x04\x00",
    )?;
    show(rt, "mu z. p or EX z", a, m, b"\x09\x05\x02\x00\x08\x04\x00")?;
    show(
        rt,
        "nu y. mu z. (p and AX y) or AX z",
        a,
        m,
        b"\x0a\x09\x05\x06\x02\x00\x07\x04\x01\x07\x04\x00",
    )
}

// The model, over the lattice.
fn work(rt: &impl Print, a: &Algebra) -> io::Result<()> {
    let bytes = [3u8, 1, 7, 0, 0, 3, 2, 6, 0, 6, 6, 0, 7, 0, 0, 7, 0];
    match model::check(&bytes, a.lattice.size) {
        Some(_) => show_all(rt, a, &Model { bytes: &bytes }),
        None => println!(rt; "refused"),
    }
}

// The part of the subsets: their number, the complements, and for each which it is a subset of.
fn main(rt: HostRuntime) -> io::Result<()> {
    let part = b"\x08\x07\x06\x05\x04\x03\x02\x01\x00\
          \x01\x01\x01\x01\x01\x01\x01\x01\x00\x01\x00\x01\x00\x01\x00\x01\
          \x00\x00\x01\x01\x00\x00\x01\x01\x00\x00\x00\x01\x00\x00\x00\x01\
          \x00\x00\x00\x00\x01\x01\x01\x01\x00\x00\x00\x00\x00\x01\x00\x01\
          \x00\x00\x00\x00\x00\x00\x01\x01\x00\x00\x00\x00\x00\x00\x00\x01";
    let mut codes = Codes::new();
    match lattice::check(part, &mut codes) {
        Ok(lattice) => work(
            &rt,
            &Algebra {
                codes: &codes,
                lattice,
            },
        ),
        Err(_) => println!(rt; "refused"),
    }
}
