// The calls that move the standing on.
ghost use Rattle.desk.specs.Desk.{Call};
ghost use Rattle.desk_check.specs.Read.{desk_of};
ghost use Rattle.exports.specs.Numbers.{DoneInNumbers};

use crate::Moved;
use crate::numbers::{opened, stepped};
use desk_check::Standing;

// Takes a case, and makes the desk anew.
#[unsafe(no_mangle)]
pub extern "C" fn koelchair_open(
    s: Standing,
    case: &[u8],
    store: &mut [u8],
    first: &mut [u8],
    second: &mut [u8],
) -> Moved
    ensures { DoneInNumbers (Call.Open case.now) (desk_of s store.old first.old second.old)
        result.answer (desk_of result.standing store.new first.new second.new) }
{
    let o = desk_moves::open(s, case, store, first, second);
    Moved {
        standing: o.standing,
        answer: opened(o.answer),
    }
}

// Works the next row.
#[unsafe(no_mangle)]
pub extern "C" fn koelchair_step(
    s: Standing,
    store: &[u8],
    first: &mut [u8],
    second: &mut [u8],
) -> Moved
    ensures { DoneInNumbers Call.Step (desk_of s store.now first.old second.old)
        result.answer (desk_of result.standing store.now first.new second.new) }
{
    let o = desk_moves::step(s, store, first, second);
    Moved {
        standing: o.standing,
        answer: stepped(o.answer),
    }
}
