// The answers of the desk's calls, as the programs that run them print them.
#![tactic(auto)]

use desk_moves::Progress;
use desk_questions::Valued;
use refusal::Refusal;
use std::io;
use test_printing::refused;

// The refusal, or what `given` prints of the call's answer.
fn answer<P: Print, T, F: FnOnce(T) -> io::Result<()>>(
    rt: &P,
    a: Result<T, Refusal>,
    given: F,
) -> io::Result<()>
    requires { F.IsAlwaysCallable given }
{
    a.map_or_else(|r| refused(rt, r), given)
}

// That a case was taken.
pub fn opened(rt: &impl Print, a: Result<(), Refusal>) -> io::Result<()> {
    answer(rt, a, |()| print!(rt; " Opened"))
}

// How far a step brought the desk, with the count of lowerings.
pub fn stepped(rt: &impl Print, a: Result<Progress, Refusal>) -> io::Result<()> {
    answer(rt, a, |p| match p {
        Progress::Row(n) => print!(rt; " Row {n}"),
        Progress::Round(r, n) => print!(rt; " Round {r} {n}"),
        Progress::Settled(t, n) => print!(rt; " Settled {t} {n}"),
    })
}

// A number: of an element, or a per cent.
pub fn number(rt: &impl Print, a: Result<u8, Refusal>) -> io::Result<()> {
    answer(rt, a, |n| print!(rt; " {n}"))
}

// An element with the facts of its formula.
pub fn valued(rt: &impl Print, a: Result<Valued, Refusal>) -> io::Result<()> {
    answer(rt, a, |v| {
        print!(rt; " {}", v.value.0)?;
        test_printing::facts(rt, v.facts)
    })
}

pub fn judged(rt: &impl Print, a: Result<bool, Refusal>) -> io::Result<()> {
    answer(rt, a, |yes| {
        print!(rt; " {}", if yes { "yes" } else { "no" })
    })
}

pub fn length(rt: &impl Print, a: Result<u32, Refusal>) -> io::Result<()> {
    answer(rt, a, |n| print!(rt; " Length {n}"))
}
