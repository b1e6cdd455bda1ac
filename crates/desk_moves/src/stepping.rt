// The call that works the next row.
ghost use Rattle.std.specs.Prelude.{◌≡◌, ◌+◌, false, IfOk, IfErr};
ghost use Rattle.desk.specs.Desk.{Call};
ghost use Rattle.desk.specs.Moved.{next_round, step_answer};
ghost use Rattle.desk.specs.RoundLeft.{Finishes};
ghost use Rattle.desk_check.specs.Read.{standing_of, desk_of, desk_in};
ghost use Rattle.desk_check.specs.Held.{HeldDesk};
ghost use Rattle.desk_check.specs.Answer.{Does};
ghost use Rattle.desk_moves.specs.Answer.{progress_reply, step_reply, Leaves};
ghost use Rattle.desk_moves.specs.Stepped.{Movable, differing_for, moved_by};

use crate::{Progress, Stepped};
use casefile::Sizes;
use desk_check::{Desk, Standing};
use elements::{Algebra, Codes};
use entries::Table;
use model::State;

// The standing after the last row of a round that has changed something, or has not: the entries in which the two tables differ are counted.
pub fn next_round(s: Standing, changed: bool, whole: &[u8], other: &[u8]) -> Standing
    requires { Movable (standing_of s) whole.now other.now }
    ensures { standing_of result
        ≡ next_round changed (s.lowerings + differing_for (standing_of s) whole.now other.now) (standing_of s) }
{
    let count = rounds::differing(whole, other, usize::from(s.states1), usize::from(s.states2));
    let lowerings = s.lowerings + count;
    Standing {
        round: s.round + 1,
        row: 0,
        changed: false,
        settled: !changed,
        second_whole: !s.second_whole,
        lowerings,
        ..s
    }
}

// The standing after a row that differed, or did not, and that stands in the other table.
fn moved_on(s: Standing, differs: bool, whole: &[u8], other: &[u8]) -> Standing
    requires { Movable (standing_of s) whole.now other.now }
    ensures { standing_of result ≡ moved_by differs whole.now other.now (standing_of s) }
{
    let changed = s.changed | differs;
    if s.row + 1 == s.states1 {
        return next_round(s, changed, whole, other);
    }
    Standing {
        row: s.row + 1,
        changed,
        settled: false,
        ..s
    }
}

// Row, Round(r) or Settled(T), by the standing that the step leaves, and its lowerings.
fn progress(s: Standing) -> Progress
    ensures { progress_reply result ≡ step_answer (standing_of s) }
{
    if s.settled {
        Progress::Settled(s.round, s.lowerings)
    } else if s.row == 0 {
        Progress::Round(s.round, s.lowerings)
    } else {
        Progress::Row(s.lowerings)
    }
}

// What is given where the desk is left with the standing s.
pub fn answered(s: Standing) -> Stepped
    ensures { Leaves (standing_of s) result }
{
    Stepped {
        standing: s,
        answer: Ok(progress(s)),
    }
}

// The sizes of a desk that is held and not settled, or what step and finish_round give of any other; the codes of its lattice are left in w.
pub fn begun(d: Desk, w: &mut Codes) -> Result<Sizes, Stepped>
    ensures held { IfOk result (λ z. HeldDesk (desk_in d.entry) z w.new.words) }
    ensures unsettled { IfOk result (λ z. d.entry.standing.settled ≡ false) }
    ensures stepped { IfErr result (λ x. Does Call.Step (desk_in d.entry)
        (step_reply x.answer) (desk_of x.standing d.entry.store.now d.entry.first.now d.entry.second.now)) }
    ensures finished { IfErr result (λ x. Finishes (desk_in d.entry)
        (step_reply x.answer) (desk_of x.standing d.entry.store.now d.entry.first.now d.entry.second.now)) }
{
    match d.examine(w) {
        Err(f) => Err(Stepped {
            standing: d.standing,
            answer: Err(f),
        }),
        Ok(z) => {
            if d.standing.settled {
                Err(answered(d.standing))
            } else {
                Ok(z)
            }
        }
    }
}

// Works the next row of the next round in the table that is not whole; a settled desk answers Settled again.
pub fn step(s: Standing, store: &[u8], first: &mut [u8], second: &mut [u8]) -> Stepped
    ensures { Does Call.Step (desk_of s store.now first.old second.old)
        (step_reply result.answer) (desk_of result.standing store.now first.new second.new) }
{
    let mut w = Codes::new();
    let d = Desk {
        standing: s,
        store,
        first,
        second,
    };
    match begun(d, &mut w) {
        Err(x) => x,
        Ok(z) => {
            let algebra = Algebra {
                codes: &w,
                lattice: z.lattice,
            };
            let models = d.models();
            // Two branches, since a choice of one `&mut` of two gets no generated proof.
            if s.second_whole {
                let table = Table {
                    models,
                    bytes: second,
                };
                let differs = rounds::row(&algebra, &table, first, State(s.row));
                return answered(moved_on(s, differs, second, first));
            }
            let table = Table {
                models,
                bytes: first,
            };
            let differs = rounds::row(&algebra, &table, second, State(s.row));
            answered(moved_on(s, differs, first, second))
        }
    }
}
