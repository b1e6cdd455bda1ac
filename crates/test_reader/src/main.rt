// A reader goes through some formula parts: what stands at the first three places of each, a line for each part.
#![tactic(auto)]

ghost use Rattle.std.specs.Prelude.{◌≡◌};
ghost use Rattle.formula_reader.specs.Through.{tokens_from};

use formula_reader::FormulaReader;
use formula_tokens::Token;
use std::io;
use test_printing::say;

// What stands at three places, one after the other. The one function that holds a reader: it is made for the part, and moved on twice.
#[tactic(auto, unfolding(formula_reader::specs::Through::tokens_from))]
fn three(part: &[u8]) -> [Token; 3]
    ensures { result ≡ tokens_from 3 part.now 0 }
{
    let a = FormulaReader::new(part);
    let b = a.advance();
    let c = b.advance();
    [a.peek(), b.peek(), c.peek()]
}

// A token in words. No `Display` of Token stands in its own crate, since this test alone prints one.
fn say_token(rt: &impl Print, t: Token) -> io::Result<()> {
    match t {
        Token::Bottom => say(rt, b" bottom"),
        Token::Top => say(rt, b" top"),
        Token::Literal { p, negated } => {
            let sign = if negated { " negated" } else { "" };
            print!(rt; "{sign} proposition {}", p.0)
        }
        Token::Variable(v) => print!(rt; " variable {v}"),
        Token::Two { or } => say(rt, if or { b" or" } else { b" and" }),
        Token::Next { all } => say(rt, if all { b" AX" } else { b" EX" }),
        Token::Fixpoint { least } => say(rt, if least { b" least" } else { b" greatest" }),
        Token::End => say(rt, b" end"),
        Token::Broken => say(rt, b" broken"),
    }
}

fn show(rt: &impl Print, name: &[u8], part: &[u8]) -> io::Result<()> {
    say(rt, name)?;
    let [first, second, third] = three(part);
    say_token(rt, first)?;
    say(rt, b",")?;
    say_token(rt, second)?;
    say(rt, b",")?;
    say_token(rt, third)?;
    say(rt, b"\n")
}

fn main(rt: HostRuntime) -> io::Result<()> {
    show(&rt, b"AX of a proposition:", b"\x07\x02\x00")?;
    show(&rt, b"a greatest fixpoint:", b"\x0a\x04\x00")?;
    show(&rt, b"or, of two:", b"\x05\x03\x0f\x01")?;
    show(&rt, b"code 11 after EX:", b"\x08\x0b\x00")?;
    show(&rt, b"a number missing after and:", b"\x06\x02")?;
    show(&rt, b"no byte:", b"")
}
