// The boundary examples of lattice parts: each part's name with its refusal, or that it is accepted and its n.
#![tactic(auto)]

ghost use Rattle.std.specs.Prelude.{◌+◌, ◌*◌, ◌≤◌, length};

use elements::Codes;
use std::io;

fn run(rt: &impl Print, name: &str, part: &[u8]) -> io::Result<()> {
    let mut w = Codes::new();
    match lattice::check(part, &mut w) {
        Ok(l) => println!(rt; "{name}: accepted {}", l.size),
        Err(f) => println!(rt; "{name}: refused {}", f.number()),
    }
}

// The order of a chain of n elements; n is at most 65 in this program, and a byte by `as`, there being no `From`.
fn chain_order(part: &mut [u8], n: usize)
    requires { (1 ≤ n) × (n ≤ 65) × (1 + n + n * n ≤ length part.old) }
{
    let order = &mut part[1 + n..1 + n + n * n];
    for (k, b) in order.iter_mut().enumerate() {
        *b = u8::from(k / n <= k % n);
    }
}

// Its complements: that of i is n - 1 - i.
fn chain_complements(part: &mut [u8], n: usize)
    requires { (n ≤ 65) × (1 + n ≤ length part.old) }
{
    for (i, b) in part[1..1 + n].iter_mut().enumerate() {
        *b = (n - 1 - i) as u8;
    }
}

// A chain of n elements: 0 below 1 below 2 and so on.
fn chain(part: &mut [u8], n: usize)
    requires { (1 ≤ n) × (n ≤ 65) × (1 + n + n * n ≤ length part.old) }
{
    chain_order(part, n);
    chain_complements(part, n);
    part[0] = n as u8;
}

fn longest_chains(rt: &impl Print) -> io::Result<()> {
    let mut chain64 = [0u8; 4161];
    chain(&mut chain64, 64);
    run(rt, "a chain of 64", &chain64)?;
    let mut chain65 = [0u8; 4291];
    chain(&mut chain65, 65);
    run(rt, "a chain of 65", &chain65)
}

// Each part is n, the complements and the rows of the order.
fn main(rt: HostRuntime) -> io::Result<()> {
    run(&rt, "the panel lattice", b"\x00")?;
    run(&rt, "one element", b"\x01\x00\x01")?;
    run(
        &rt,
        "L3",
        b"\x03\x02\x01\x00\x01\x01\x01\x00\x01\x01\x00\x00\x01",
    )?;
    run(
        &rt,
        "L3 with its top first",
        b"\x03\x02\x01\x00\x01\x00\x00\x01\x01\x00\x01\x01\x01",
    )?;
    longest_chains(&rt)?;
    run(&rt, "a byte 0 and more", b"\x00\x00")?;
    run(&rt, "a complement not below n", b"\x01\x01\x01")?;
    run(&rt, "an order byte of 2", b"\x01\x00\x02")?;
    run(
        &rt,
        "two elements below one another",
        b"\x02\x01\x00\x01\x01\x01\x01",
    )?;
    run(
        &rt,
        "two unordered elements",
        b"\x02\x01\x00\x01\x00\x00\x01",
    )?;
    run(
        &rt,
        "bottom, three unordered elements and top",
        b"\x05\x04\x01\x02\x03\x00\
        \x01\x01\x01\x01\x01\x00\x01\x00\x00\x01\x00\x00\x01\x00\x01\x00\x00\x00\x01\x01\x00\x00\x00\x00\x01",
    )?;
    run(
        &rt,
        "L3 with each its own complement",
        b"\x03\x00\x01\x02\x01\x01\x01\x00\x01\x01\x00\x00\x01",
    )
}
