// The calls by value on the worked examples of document 01 and of requests 101, 102, 104 and 105. Each line of the input is a call: its word, and the bytes
// that it takes, in hexadecimal. Row, Round and Settled are printed with the count of lowerings (request 107), and the table is shown after each step. A line
// that begins with # is printed as it is.
#![tactic(auto)]

ghost use Rattle.std.specs.Prelude.{◌≤◌, length, IfOk, OnErr, ◌≡◌};

use desk_check::{Desk, Standing};
use elements::Element;
use model::State;
use std::io;
use test_printing::{at, say};

// ---- the calls

// Store and tables are parameters of their own, as in desk_moves: each call lends others of them to be written into.

fn open(
    rt: &impl Print,
    s: Standing,
    case: &[u8],
    store: &mut [u8],
    first: &mut [u8],
    second: &mut [u8],
) -> io::Result<Standing> {
    let o = desk_moves::open(s, case, store, first, second);
    test_answers::opened(rt, o.answer)?;
    Ok(o.standing)
}

fn step(
    rt: &impl Print,
    s: Standing,
    store: &[u8],
    first: &mut [u8],
    second: &mut [u8],
) -> io::Result<Standing> {
    let o = desk_moves::step(s, store, first, second);
    test_answers::stepped(rt, o.answer)?;
    let d = Desk {
        standing: o.standing,
        store,
        first,
        second,
    };
    print!(rt; ", shown")?;
    test_printing::bytes(rt, desk_questions::show(d))?;
    Ok(o.standing)
}

// The case written into a buffer of 21, 22 or 24 bytes of 170, else of 42, and the buffer after it.
fn write(rt: &impl Print, d: Desk, n: u8) -> io::Result<()> {
    let n = match n {
        21 | 22 | 24 => usize::from(n),
        _ => 42,
    };
    let mut room = [170u8; 42];
    let out = &mut room[..n];
    test_answers::length(rt, desk_questions::write(d, out))?;
    print!(rt; ", buffer")?;
    test_printing::bytes(rt, out)
}

// The calls that only read the desk, by the word's letter: the letters are of the input's words, and any other word is no call.
fn ask(rt: &impl Print, d: Desk, letter: u8, bytes: &[u8]) -> io::Result<()> {
    let a = at(bytes, 0);
    let b = at(bytes, 1);
    let q = State(at(bytes, 2));
    match letter {
        b'c' => test_answers::number(rt, desk_questions::score(d).map(|e| e.0)),
        b'h' => test_answers::number(rt, desk_questions::share(d, Element(a))),
        b'j' => test_answers::judged(rt, desk_questions::judge(d, bytes)),
        b'w' => test_answers::valued(rt, desk_questions::whole(d, a, b)),
        b'v' => test_answers::valued(rt, desk_questions::value(d, a, b, q)),
        b'r' => write(rt, d, a),
        _ => Ok(()),
    }
}

// The call of a word, by its letter.
fn call(
    rt: &impl Print,
    s: Standing,
    letter: u8,
    bytes: &[u8],
    store: &mut [u8],
    first: &mut [u8],
    second: &mut [u8],
) -> io::Result<Standing> {
    match letter {
        b'o' => open(rt, s, bytes, store, first, second),
        b't' => step(rt, s, store, first, second),
        _ => {
            let d = Desk {
                standing: s,
                store,
                first,
                second,
            };
            ask(rt, d, letter, bytes)?;
            Ok(s)
        }
    }
}

// ---- the input

// The letter that tells the words apart: the first, or the second of those with an s and of write.
fn letter(line: &[u8]) -> u8 {
    if at(line, 0) == b's' {
        return at(line, 1);
    }
    if at(line, 1) == b'r' {
        return b'r';
    }
    at(line, 0)
}

// Prints the word, or the whole line if it begins with #, and gives the bytes after it.
fn word(rt: &impl Print, line: &[u8], bytes: &mut [u8; 256]) -> io::Result<usize>
    ensures ok { IfOk result (λ n. n ≤ length bytes.new) }
    // A failed write leaves the bytes as they were.
    ensures err { OnErr result (bytes.new ≡ bytes.old) }
{
    let stop = if at(line, 0) == b'#' { b'\n' } else { b' ' };
    let end = test_printing::before(line, stop);
    say(rt, &line[..end])?;
    Ok(test_printing::hexadecimal(&line[end..], bytes))
}

fn run(
    rt: &impl Print,
    s: Standing,
    line: &[u8],
    store: &mut [u8],
    first: &mut [u8],
    second: &mut [u8],
) -> io::Result<Standing> {
    let mut bytes = [0u8; 256];
    let count = word(rt, line, &mut bytes)?;
    let t = call(rt, s, letter(line), &bytes[..count], store, first, second)?;
    println!(rt)?;
    Ok(t)
}

fn run_all(
    rt: &impl Print,
    s: Standing,
    text: &[u8],
    store: &mut [u8],
    first: &mut [u8],
    second: &mut [u8],
) -> io::Result<()> {
    let mut t = s;
    for line in text.split_inclusive(|&b| b == b'\n') {
        t = run(rt, t, line, store, first, second)?;
    }
    Ok(())
}

fn main(rt: HostRuntime) -> io::Result<()> {
    let mut store = [0u8; 24576];
    let mut first = [0u8; 4096];
    let mut second = [0u8; 4096];
    let mut short = [0u8; 4095];
    print!(&rt; "# a desk with a table too short\nstep")?;
    let t = step(&rt, Standing::default(), &store, &mut first, &mut short)?;
    println!(&rt)?;
    let mut text = [0u8; 4096];
    let count = test_printing::read_full(&mut rt.stdin(), &mut text)?;
    run_all(&rt, t, &text[..count], &mut store, &mut first, &mut second)
}
