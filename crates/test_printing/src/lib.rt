// What the example programs share: bytes and facts that they print, and lines of text with bytes in hexadecimal that they read.
#![tactic(auto)]

ghost use Rattle.std.specs.Prelude.{◌≤◌, length};

use formula::FormulaFacts;
pub use input::read_full;
use refusal::Refusal;
use std::io;

// ---- printing

// Bytes as they are.
pub fn say(rt: &impl Print, text: &[u8]) -> io::Result<()> {
    rt.write_all(text)
}

// Each byte of a part as a number, with a blank before it.
pub fn bytes(rt: &impl Print, part: &[u8]) -> io::Result<()> {
    for &x in part {
        print!(rt; " {x}")?;
    }
    Ok(())
}

// A refusal's number and part.
pub fn refused(rt: &impl Print, r: Refusal) -> io::Result<()> {
    print!(rt; " refused {} {}", r.number(), r.part())
}

// The facts of a formula: the deepest nesting of AX, whether a fixpoint occurs and whether EX occurs.
pub fn facts(rt: &impl Print, facts: FormulaFacts) -> io::Result<()> {
    let nesting = facts.nesting;
    let fixpoint = if facts.fixpoint { ", fixpoint" } else { "" };
    let ex = if facts.ex { ", EX" } else { "" };
    print!(rt; " (nesting {nesting}{fixpoint}{ex})")
}

// ---- reading

// The byte at a place of a part, or 0 past its end: a byte that a line of a test leaves out is 0, so that no caller would look at an `Option`.
pub fn at(part: &[u8], i: usize) -> u8 {
    part.get(i).copied().unwrap_or(0)
}

// How many bytes stand before the first that is `stop` or a line end.
pub fn before(line: &[u8], stop: u8) -> usize
    ensures { result ≤ length line.now }
{
    line.iter()
        .position(|&b| b == stop || b == b'\n')
        .unwrap_or(line.len())
}

// The value of a hexadecimal digit; `to_digit(16)` takes capitals too.
fn digit(c: u8) -> Option<u8> {
    match c {
        b'0'..=b'9' => Some(c - b'0'),
        b'a'..=b'f' => Some(c - b'a' + 10),
        _ => None,
    }
}

// The bytes that pairs of digits give, as many as there is room for; says how many.
pub fn hexadecimal(text: &[u8], out: &mut [u8]) -> usize
    ensures { result ≤ length out.new }
{
    let mut digits = text.iter().filter_map(|&c| digit(c));
    for (count, place) in out.iter_mut().enumerate() {
        let (Some(high), Some(low)) = (digits.next(), digits.next()) else {
            return count;
        };
        *place = high << 4 | low;
    }
    out.len()
}
