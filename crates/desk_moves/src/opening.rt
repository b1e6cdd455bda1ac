// The call that takes a case.
ghost use Rattle.desk.specs.Desk.{Call};
ghost use Rattle.desk_check.specs.Read.{desk_of};
ghost use Rattle.desk_check.specs.Answer.{Does};
ghost use Rattle.desk_moves.specs.Answer.{open_reply};

use crate::Opened;
use casefile::Case;
use desk_check::{Desk, Standing, table_size};
use elements::Codes;
use refusal::Refusal;

// Takes a case, and makes the desk anew: unsettled, at round 0 and next row 0, both tables top.
pub fn open(
    s: Standing,
    case: &[u8],
    store: &mut [u8],
    first: &mut [u8],
    second: &mut [u8],
) -> Opened
    ensures { Does (Call.Open case.now) (desk_of s store.old first.old second.old)
        (open_reply result.answer) (desk_of result.standing store.new first.new second.new) }
{
    let d = Desk {
        standing: s,
        store,
        first,
        second,
    };
    if d.too_short() {
        return Opened {
            standing: s,
            answer: Err(Refusal::ShortDesk),
        };
    }
    let mut w = Codes::new();
    match casefile::check(case, &mut w) {
        Err(f) => Opened {
            standing: s,
            answer: Err(f),
        },
        Ok(z) => {
            let n = table_size(z);
            let top = z.lattice.top.0;
            let taken = Case { bytes: case };
            taken.write(store);
            first[..n].fill(top);
            second[..n].fill(top);
            Opened {
                standing: Standing {
                    states1: z.states1,
                    states2: z.states2,
                    lowerings: 0,
                    ..Standing::default()
                },
                answer: Ok(()),
            }
        }
    }
}
