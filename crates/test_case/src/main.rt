// Cases at the bounds of each rule. Each line of the input has a name, a colon, and the bytes of a case in hexadecimal. A case is
// accepted, and so is its gapless form, or it is refused with a number and a part.
#![tactic(auto)]

use casefile::Case;
use elements::Codes;
use std::io;
use test_printing::say;

fn show(rt: &impl Print, case: &[u8]) -> io::Result<()> {
    let mut w = Codes::new();
    match casefile::check(case, &mut w) {
        Ok(_) => say(rt, b" accepted"),
        Err(r) => test_printing::refused(rt, r),
    }
}

// Writes the gapless form of an accepted case into a store, and shows how many bytes and formulas it has.
fn keep(rt: &impl Print, bytes: &[u8], store: &mut [u8; 24576]) -> io::Result<()> {
    let mut w = Codes::new();
    let Ok(held) = casefile::check(bytes, &mut w) else {
        return Ok(());
    };
    let case = Case { bytes };
    let n = case.gapless_length();
    case.write(store);
    print!(rt; ", without gaps {n} bytes, {} formulas,", held.formulas)?;
    show(rt, store)
}

fn run(rt: &impl Print, line: &[u8]) -> io::Result<()> {
    let name = test_printing::before(line, b':');
    say(rt, &line[..name])?;
    say(rt, b":")?;
    let mut bytes = [0u8; 256];
    let count = test_printing::hexadecimal(&line[name..], &mut bytes);
    show(rt, &bytes[..count])?;
    let mut store = [238u8; 24576];
    keep(rt, &bytes[..count], &mut store)?;
    say(rt, b"\n")
}

fn run_all(rt: &impl Print, text: &[u8]) -> io::Result<()> {
    for line in text.split_inclusive(|&b| b == b'\n') {
        run(rt, line)?;
    }
    Ok(())
}

// The first line's case at the start of many bytes, which are not read.
fn lengths(rt: &impl Print, text: &[u8]) -> io::Result<()> {
    let name = test_printing::before(text, b':');
    let rest = &text[name..];
    let end = test_printing::before(rest, b'\n');
    let mut most = [0u8; 32768];
    test_printing::hexadecimal(&rest[..end], &mut most);
    say(rt, b"32768 bytes:")?;
    show(rt, &most)?;
    let mut more = [0u8; 32769];
    test_printing::hexadecimal(&rest[..end], &mut more);
    say(rt, b"\n32769 bytes:")?;
    show(rt, &more)?;
    say(rt, b"\n")
}

fn main(rt: HostRuntime) -> io::Result<()> {
    let mut text = [0u8; 65536];
    let count = test_printing::read_full(&mut rt.stdin(), &mut text)?;
    run_all(&rt, &text[..count])?;
    lengths(&rt, &text[..count])
}
