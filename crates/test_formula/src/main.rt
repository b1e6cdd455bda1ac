// Formula parts at the limits of each rule, and with some nestings of AX: whether each is accepted, with its facts, a line for each. There are 2
// propositions.
#![tactic(auto)]

use std::io;
use test_printing::say;

fn show(rt: &impl Print, name: &[u8], part: &[u8]) -> io::Result<()> {
    say(rt, name)?;
    match formula::check(part, 2) {
        Some(x) => {
            say(rt, b": accepted")?;
            test_printing::facts(rt, x)?;
        }
        None => say(rt, b": refused 10")?,
    }
    say(rt, b"\n")
}

// AX over and over, and bottom as the last byte.
fn lengths(rt: &impl Print) -> io::Result<()> {
    let mut most = [7u8; 255];
    most[254] = 0;
    show(rt, b"255 bytes", &most)?;
    let mut more = [7u8; 256];
    more[255] = 0;
    show(rt, b"256 bytes", &more)
}

fn binders(rt: &impl Print) -> io::Result<()> {
    show(rt, b"3 binders nested", b"\x09\x0a\x09\x04\x02")?;
    show(rt, b"4 binders nested", b"\x09\x0a\x09\x0a\x04\x00")?;
    show(
        rt,
        b"4 binders, 3 nested",
        b"\x05\x09\x04\x00\x0a\x09\x0a\x04\x01",
    )?;
    show(rt, b"variable 0 under 1 binder", b"\x09\x04\x00")?;
    show(rt, b"variable 1 under 1 binder", b"\x09\x04\x01")?;
    show(rt, b"variable under no binder", b"\x04\x00")
}

fn propositions(rt: &impl Print) -> io::Result<()> {
    show(rt, b"proposition 1", b"\x02\x01")?;
    show(rt, b"proposition 2", b"\x02\x02")?;
    show(rt, b"negated proposition 2", b"\x03\x02")
}

fn forms(rt: &impl Print) -> io::Result<()> {
    show(rt, b"code 10", b"\x0a\x01")?;
    show(rt, b"code 11", b"\x0b\x01")?;
    show(rt, b"code 255", b"\xff")?;
    show(rt, b"used up", b"\x06\x00\x08\x01")?;
    show(rt, b"a byte left over", b"\x06\x00\x08\x01\x00")?;
    show(rt, b"second part missing", b"\x06\x00")?;
    show(rt, b"number missing", b"\x08\x02")
}

// AX in one of two branches, under a fixpoint and under EX.
fn nestings(rt: &impl Print) -> io::Result<()> {
    show(
        rt,
        b"p & AX (q | AX p)",
        b"\x06\x02\x00\x07\x05\x02\x01\x07\x02\x00",
    )?;
    show(rt, b"AX AX p | q", b"\x05\x07\x07\x02\x00\x02\x01")?;
    show(rt, b"nu x. p & AX x", b"\x0a\x06\x02\x00\x07\x04\x00")?;
    show(rt, b"AX EX AX p", b"\x07\x08\x07\x02\x00")
}

fn main(rt: HostRuntime) -> io::Result<()> {
    lengths(&rt)?;
    binders(&rt)?;
    propositions(&rt)?;
    forms(&rt)?;
    nestings(&rt)
}
