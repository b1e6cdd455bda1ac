// The calls with the standing lent, on worked example 4 of document 01: from open to Settled(3), the questions, the case written back, and refused calls: on
// a desk of zeros, with an empty case, out of range, and with a buffer too short. The input is the example's case in hexadecimal.
#![tactic(auto)]

use desk_check::Standing;
use elements::Element;
use model::State;
use std::io;

// Store and tables are parameters of their own, as in desk_moves: each call lends others of them to be written into.

// ---- what is printed

// The line of an open.
fn opened(
    rt: &impl Print,
    s: &mut Standing,
    case: &[u8],
    store: &mut [u8],
    first: &mut [u8],
    second: &mut [u8],
) -> io::Result<()> {
    print!(rt; "open")?;
    test_answers::opened(rt, desk_lent::open(s, case, store, first, second))?;
    println!(rt)
}

// The line of a step, and of a show after it.
fn stepped(
    rt: &impl Print,
    s: &mut Standing,
    store: &[u8],
    first: &mut [u8],
    second: &mut [u8],
) -> io::Result<()> {
    print!(rt; "step")?;
    test_answers::stepped(rt, desk_lent::step(s, store, first, second))?;
    print!(rt; ", shown")?;
    test_printing::bytes(rt, desk_lent::show(s, store, first, second))?;
    println!(rt)
}

// The questions of a formula f and a model m: its value at state 1, and on the whole model.
fn valued(
    rt: &impl Print,
    s: &mut Standing,
    f: u8,
    m: u8,
    store: &[u8],
    first: &[u8],
    second: &[u8],
) -> io::Result<()> {
    print!(rt; "value")?;
    test_answers::valued(
        rt,
        desk_lent::value(s, store, first, second, f, m, State(1)),
    )?;
    print!(rt; ", whole")?;
    test_answers::valued(rt, desk_lent::whole(s, store, first, second, f, m))?;
    println!(rt)
}

// The questions of the shown table, with the share of an element e, and judge's answer to a table.
fn asked(
    rt: &impl Print,
    s: &mut Standing,
    e: u8,
    table: &[u8],
    store: &[u8],
    first: &[u8],
    second: &[u8],
) -> io::Result<()> {
    print!(rt; "score")?;
    test_answers::number(rt, desk_lent::score(s, store, first, second).map(|e| e.0))?;
    print!(rt; ", share")?;
    test_answers::number(rt, desk_lent::share(s, store, first, second, Element(e)))?;
    print!(rt; ", judge")?;
    test_answers::judged(rt, desk_lent::judge(s, store, first, second, table))?;
    println!(rt)
}

// The line of a write into a buffer, and the buffer after it.
fn written(
    rt: &impl Print,
    s: &mut Standing,
    store: &[u8],
    first: &[u8],
    second: &[u8],
    out: &mut [u8],
) -> io::Result<()> {
    print!(rt; "write")?;
    test_answers::length(rt, desk_lent::write(s, store, first, second, out))?;
    print!(rt; ", buffer")?;
    test_printing::bytes(rt, out)?;
    println!(rt)
}

// ---- the calls that are made

// On a desk of zeros: the questions, which are refused with 12.
fn spoiled(
    rt: &impl Print,
    s: &mut Standing,
    store: &[u8],
    first: &[u8],
    second: &[u8],
) -> io::Result<()> {
    valued(rt, s, 0, 1, store, first, second)?;
    asked(rt, s, 0, b"", store, first, second)?;
    written(rt, s, store, first, second, &mut [170u8; 1])
}

// On a desk of zeros: all but open are refused with 12, and open refuses an empty case.
fn zeros(
    rt: &impl Print,
    s: &mut Standing,
    store: &mut [u8],
    first: &mut [u8],
    second: &mut [u8],
) -> io::Result<()> {
    println!(rt; "# a desk of zeros")?;
    stepped(rt, s, store, first, second)?;
    spoiled(rt, s, store, first, second)?;
    opened(rt, s, b"", store, first, second)
}

// On the settled desk: a formula, a model, an element and a table that it does not have, and a buffer one byte too short.
fn outside(
    rt: &impl Print,
    s: &mut Standing,
    store: &[u8],
    first: &[u8],
    second: &[u8],
) -> io::Result<()> {
    println!(rt; "# out of range, and a buffer too short")?;
    valued(rt, s, 1, 1, store, first, second)?;
    valued(rt, s, 0, 3, store, first, second)?;
    asked(rt, s, 2, b"", store, first, second)?;
    written(rt, s, store, first, second, &mut [170u8; 46])
}

// On the settled desk: the formula on both models, its table and another judged, and the case written into a buffer with two bytes more.
fn settled(
    rt: &impl Print,
    s: &mut Standing,
    store: &[u8],
    first: &[u8],
    second: &[u8],
) -> io::Result<()> {
    let bottoms = [0u8; 4];
    let tops = [1u8; 4];
    valued(rt, s, 0, 1, store, first, second)?;
    valued(rt, s, 0, 2, store, first, second)?;
    asked(rt, s, 0, &bottoms, store, first, second)?;
    asked(rt, s, 1, &tops, store, first, second)?;
    written(rt, s, store, first, second, &mut [170u8; 49])
}

// The example: opened, stepped until it is settled and once more, and asked.
fn example(
    rt: &impl Print,
    s: &mut Standing,
    case: &[u8],
    store: &mut [u8],
    first: &mut [u8],
    second: &mut [u8],
) -> io::Result<()> {
    println!(rt; "# example 4")?;
    opened(rt, s, case, store, first, second)?;
    for _ in 0..7 {
        stepped(rt, s, store, first, second)?;
    }
    settled(rt, s, store, first, second)?;
    outside(rt, s, store, first, second)
}

fn main(rt: HostRuntime) -> io::Result<()> {
    let mut s = Standing::default();
    let mut store = [0u8; 24576];
    let mut first = [0u8; 4096];
    let mut second = [0u8; 4096];
    let mut text = [0u8; 4096];
    let count = test_printing::read_full(&mut rt.stdin(), &mut text)?;
    let mut case = [0u8; 64];
    let size = test_printing::hexadecimal(&text[..count], &mut case);
    zeros(&rt, &mut s, &mut store, &mut first, &mut second)?;
    example(
        &rt,
        &mut s,
        &case[..size],
        &mut store,
        &mut first,
        &mut second,
    )
}
