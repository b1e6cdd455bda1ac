// The calls' answers as numbers.
ghost use Rattle.std.specs.Prelude.{◌≡◌, IfOk, IfErr};
ghost use Rattle.desk.specs.Refused.{number_reply};
ghost use Rattle.desk_moves.specs.Answer.{step_reply, open_reply};
ghost use Rattle.desk_questions.specs.Answer.{element_reply, value_reply, share_reply, judge_reply, length_reply};
ghost use Rattle.exports.specs.Numbers.{numbers};

use crate::Answer;
use desk_moves::Progress;
use desk_questions::Valued;
use elements::Element;
use refusal::Refusal;

// The fields that a kind does not use.
const UNUSED: Answer = Answer {
    kind: 0,
    number: 0,
    part: 0,
    byte: 0,
    value: 0,
    second: 0,
    flag1: false,
    flag2: false,
};

fn refused(f: Refusal) -> Answer
    ensures { result ≡ numbers (number_reply f) }
{
    Answer {
        number: f.number(),
        part: f.part(),
        ..UNUSED
    }
}

// A call's answer: the refusal's numbers, or those that `given` makes of what the call gives.
fn answer<T, F: FnOnce(T) -> Answer>(a: Result<T, Refusal>, given: F) -> Answer
    requires { F.IsAlwaysCallable given }
    ensures ok { IfOk a (λ x. F.post given x result) }
    ensures err { IfErr a (λ f. result ≡ numbers (number_reply f)) }
{
    a.map_or_else(refused, given)
}

pub fn opened(a: Result<(), Refusal>) -> Answer
    ensures { result ≡ numbers (open_reply a) }
{
    answer(a, |()| Answer { kind: 1, ..UNUSED })
}

pub fn stepped(a: Result<Progress, Refusal>) -> Answer
    ensures { result ≡ numbers (step_reply a) }
{
    answer(a, |p| match p {
        Progress::Row(n) => Answer {
            kind: 2,
            second: n,
            ..UNUSED
        },
        Progress::Round(r, n) => Answer {
            kind: 3,
            value: r,
            second: n,
            ..UNUSED
        },
        Progress::Settled(t, n) => Answer {
            kind: 4,
            value: t,
            second: n,
            ..UNUSED
        },
    })
}

pub fn element(a: Result<Element, Refusal>) -> Answer
    ensures { result ≡ numbers (element_reply a) }
{
    answer(
        a,
        |e| Answer {
            kind: 5,
            value: u32::from(e.0),
            ..UNUSED
        },
    )
}

pub fn formula_value(a: Result<Valued, Refusal>) -> Answer
    ensures { result ≡ numbers (value_reply a) }
{
    answer(
        a,
        |v| Answer {
            kind: 9,
            byte: v.facts.nesting,
            value: u32::from(v.value.0),
            flag1: v.facts.fixpoint,
            flag2: v.facts.ex,
            ..UNUSED
        },
    )
}

pub fn per_cent(a: Result<u8, Refusal>) -> Answer
    ensures { result ≡ numbers (share_reply a) }
{
    answer(
        a,
        |p| Answer {
            kind: 6,
            value: u32::from(p),
            ..UNUSED
        },
    )
}

pub fn judged(a: Result<bool, Refusal>) -> Answer
    ensures { result ≡ numbers (judge_reply a) }
{
    answer(
        a,
        |yes| Answer {
            kind: 7,
            value: u32::from(yes),
            ..UNUSED
        },
    )
}

pub fn length(a: Result<u32, Refusal>) -> Answer
    ensures { result ≡ numbers (length_reply a) }
{
    answer(
        a,
        |n| Answer {
            kind: 10,
            value: n,
            ..UNUSED
        },
    )
}
