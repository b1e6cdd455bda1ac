// The call that works the rows of the round that are left.
ghost use Rattle.std.specs.Prelude.{◌≡◌, ◌<◌, get_or};
ghost use Rattle.rounds.specs.Table.{Room};
ghost use Rattle.rounds.specs.Rest.{RestIn};
ghost use Rattle.desk.specs.RoundLeft.{Finishes};
ghost use Rattle.desk_check.specs.Read.{standing_of, desk_of};
ghost use Rattle.desk_moves.specs.Answer.{step_reply};
ghost use Rattle.desk_moves.specs.Stepped.{Movable};
ghost use Rattle.desk_moves.specs.Finished.{round_by};

use crate::Stepped;
use crate::stepping::{answered, begun, next_round};
use desk_check::{Desk, Standing};
use elements::{Algebra, Codes};
use entries::Table;
use model::State;

// Works the rows of F of the whole table from row `from` to the last into the other; says whether one of them differs from the whole table's.
fn work_rows(a: &Algebra, whole: &Table, other: &mut [u8], from: State) -> bool
    requires { Room whole.now.models.first.bytes.now whole.now.models.second.bytes.now other.old
        × (from.0 < get_or whole.now.models.first.bytes.now 0 0) }
    ensures { RestIn a.now.codes.now.words a.now.lattice whole.now.models.first.bytes.now whole.now.models.second.bytes.now whole.now.bytes.now
        from.0 other.old other.new result }
{
    let start = usize::from(from.0);
    let mut changed = false;
    for q in start..whole.models.first.states() {
        changed |= rounds::row(a, whole, other, State(q as u8));
    }
    changed
}

// The same. Where no row is worked yet it is a whole round, which finds codes once for all rows.
fn work_rest(a: &Algebra, whole: &Table, other: &mut [u8], from: State) -> bool
    requires { Room whole.now.models.first.bytes.now whole.now.models.second.bytes.now other.old
        × (from.0 < get_or whole.now.models.first.bytes.now 0 0) }
    ensures { RestIn a.now.codes.now.words a.now.lattice whole.now.models.first.bytes.now whole.now.models.second.bytes.now whole.now.bytes.now
        from.0 other.old other.new result }
{
    if from.0 == 0 {
        rounds::round(a, whole, other)
    } else {
        work_rows(a, whole, other, from)
    }
}

// The standing after the last row, where the rows that were left differed, or did not, and stand in the other table.
fn round_done(s: Standing, differs: bool, whole: &[u8], other: &[u8]) -> Standing
    requires { Movable (standing_of s) whole.now other.now }
    ensures { standing_of result ≡ round_by differs whole.now other.now (standing_of s) }
{
    let changed = s.changed | differs;
    next_round(s, changed, whole, other)
}

// Works the rows of the round that are left, as so many steps do; a refused desk and a settled one are answered as by one step.
pub fn finish_round(s: Standing, store: &[u8], first: &mut [u8], second: &mut [u8]) -> Stepped
    ensures { Finishes (desk_of s store.now first.old second.old)
        (step_reply result.answer) (desk_of result.standing store.now first.new second.new) }
{
    let mut w = Codes::new();
    let d = Desk {
        standing: s,
        store,
        first,
        second,
    };
    match begun(d, &mut w) {
        Err(x) => x,
        Ok(z) => {
            let algebra = Algebra {
                codes: &w,
                lattice: z.lattice,
            };
            let models = d.models();
            // Two branches, as in step. One frame for both calls, with closures, is no plainer: it would ask of its closures, for all desks, what the two
            // contracts Does and Finishes say of each branch.
            if s.second_whole {
                let table = Table {
                    models,
                    bytes: second,
                };
                let differs = work_rest(&algebra, &table, first, State(s.row));
                return answered(round_done(s, differs, second, first));
            }
            let table = Table {
                models,
                bytes: first,
            };
            let differs = work_rest(&algebra, &table, second, State(s.row));
            answered(round_done(s, differs, first, second))
        }
    }
}
