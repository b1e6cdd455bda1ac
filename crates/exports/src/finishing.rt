// The rest of a round in one call.
ghost use Rattle.desk_check.specs.Read.{desk_of};
ghost use Rattle.exports.specs.Finished.{FinishedInNumbers};

use crate::Moved;
use crate::numbers::stepped;
use desk_check::Standing;

// Works the rows of the round that are left, as so many steps do.
#[unsafe(no_mangle)]
pub extern "C" fn koelchair_finish_round(
    s: Standing,
    store: &[u8],
    first: &mut [u8],
    second: &mut [u8],
) -> Moved
    ensures { FinishedInNumbers (desk_of s store.now first.old second.old)
        result.answer (desk_of result.standing store.now first.new second.new) }
{
    let o = desk_moves::finish_round(s, store, first, second);
    Moved {
        standing: o.standing,
        answer: stepped(o.answer),
    }
}
