// The calls, with the standing lent. The desk is four parameters, and no struct: open and step lend the tables to be written into, and what show gives
// outlives the call, so that a struct which holds the `&mut` would have to be made anew for each call.
#![tactic(auto)]

ghost use Rattle.std.specs.Prelude.{[], ◌∷◌};
ghost use Rattle.desk.specs.Desk.{Call, Question, Reply};
ghost use Rattle.desk_check.specs.Read.{desk_of};
ghost use Rattle.desk_check.specs.Answer.{Does};
ghost use Rattle.desk_moves.specs.Answer.{step_reply, open_reply};
ghost use Rattle.desk_questions.specs.Answer.{element_reply, value_reply, share_reply, judge_reply, length_reply};
ghost use Rattle.desk_lent.specs.Asked.{ReadsOnly, AsksOnly, AsksOnlyWith};

use desk_check::{Desk, Standing};
use desk_moves::Progress;
use desk_questions::Valued;
use elements::Element;
use model::State;
use refusal::Refusal;

// ---- the calls that move the standing on

// Takes a case, and makes the desk anew.
pub fn open(
    s: &mut Standing,
    case: &[u8],
    store: &mut [u8],
    first: &mut [u8],
    second: &mut [u8],
) -> Result<(), Refusal>
    ensures { Does (Call.Open case.now) (desk_of s.old store.old first.old second.old)
        (open_reply result) (desk_of s.new store.new first.new second.new) }
{
    let o = desk_moves::open(*s, case, store, first, second);
    *s = o.standing;
    o.answer
}

// Works the next row.
pub fn step(
    s: &mut Standing,
    store: &[u8],
    first: &mut [u8],
    second: &mut [u8],
) -> Result<Progress, Refusal>
    ensures { Does Call.Step (desk_of s.old store.now first.old second.old)
        (step_reply result) (desk_of s.new store.now first.new second.new) }
{
    let o = desk_moves::step(*s, store, first, second);
    *s = o.standing;
    o.answer
}

// ---- the calls that read

// The first N1·N2 bytes of the whole table; an empty part where the desk is refused.
pub fn show<'a>(s: &mut Standing, store: &[u8], first: &'a [u8], second: &'a [u8]) -> &'a [u8]
    ensures { ReadsOnly Call.Show
        s.old store.now first.now second.now (Reply.Shown result.now) s.new }
{
    let d = Desk {
        standing: *s,
        store,
        first,
        second,
    };
    desk_questions::show(d)
}

// The score of the shown table.
pub fn score(
    s: &mut Standing,
    store: &[u8],
    first: &[u8],
    second: &[u8],
) -> Result<Element, Refusal>
    ensures { AsksOnly Question.Score
        s.old store.now first.now second.now (element_reply result) s.new }
{
    let d = Desk {
        standing: *s,
        store,
        first,
        second,
    };
    desk_questions::score(d)
}

// The per cent of shown entries at or above e.
pub fn share(
    s: &mut Standing,
    store: &[u8],
    first: &[u8],
    second: &[u8],
    e: Element,
) -> Result<u8, Refusal>
    ensures { AsksOnly (Question.Share e.0)
        s.old store.now first.now second.now (share_reply result) s.new }
{
    let d = Desk {
        standing: *s,
        store,
        first,
        second,
    };
    desk_questions::share(d, e)
}

// Whether each entry of a table is at or below that of F of the table.
pub fn judge(
    s: &mut Standing,
    store: &[u8],
    first: &[u8],
    second: &[u8],
    table: &[u8],
) -> Result<bool, Refusal>
    ensures { AsksOnly (Question.Judge table.now)
        s.old store.now first.now second.now (judge_reply result) s.new }
{
    let d = Desk {
        standing: *s,
        store,
        first,
        second,
    };
    desk_questions::judge(d, table)
}

// A formula's value on model 1 or 2, with its facts.
pub fn whole(
    s: &mut Standing,
    store: &[u8],
    first: &[u8],
    second: &[u8],
    f: u8,
    m: u8,
) -> Result<Valued, Refusal>
    ensures { AsksOnly (Question.Whole f m)
        s.old store.now first.now second.now (value_reply result) s.new }
{
    let d = Desk {
        standing: *s,
        store,
        first,
        second,
    };
    desk_questions::whole(d, f, m)
}

// A formula's element at a state of model 1 or 2, with its facts.
pub fn value(
    s: &mut Standing,
    store: &[u8],
    first: &[u8],
    second: &[u8],
    f: u8,
    m: u8,
    q: State,
) -> Result<Valued, Refusal>
    ensures { AsksOnly (Question.Value f m q.0)
        s.old store.now first.now second.now (value_reply result) s.new }
{
    let d = Desk {
        standing: *s,
        store,
        first,
        second,
    };
    desk_questions::value(d, f, m, q)
}

// Writes the case without gaps at the front of a buffer, and says how many bytes it has. The bytes after it are unchanged.
pub fn write(
    s: &mut Standing,
    store: &[u8],
    first: &[u8],
    second: &[u8],
    out: &mut [u8],
) -> Result<u32, Refusal>
    ensures { AsksOnlyWith (out.new ∷ []) (Question.Write out.old)
        s.old store.now first.now second.now (length_reply result) s.new }
{
    let d = Desk {
        standing: *s,
        store,
        first,
        second,
    };
    desk_questions::write(d, out)
}
