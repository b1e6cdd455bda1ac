// One entry of the next round, with the pairs that working it looks at. It is no call of document 01.
ghost use Rattle.std.specs.Prelude.{◌≡◌};
ghost use Rattle.desk.specs.Desk.{Call};
ghost use Rattle.desk.specs.Refused.{examined};
ghost use Rattle.desk_check.specs.Read.{desk_of};
ghost use Rattle.exports.specs.Worked.{refused_entry, worked_entry};

use crate::WorkedEntry;
use desk_check::{Desk, Standing};
use elements::{Algebra, Codes};
use entries::Table;
use model::State;
use refusal::Refusal;

// What is given for a refusal.
fn refused_entry(f: Refusal) -> WorkedEntry
    ensures { result ≡ refused_entry f }
{
    WorkedEntry {
        number: f.number(),
        part: f.part(),
        value: 0,
        pairs: 0,
    }
}

// Entry (q1, q2) of F of the shown table, and how many pairs (q1', q2') working it looks at.
#[unsafe(no_mangle)]
pub extern "C" fn koelchair_entry<'a>(
    s: Standing,
    store: &[u8],
    first: &'a [u8],
    second: &'a [u8],
    q1: u8,
    q2: u8,
) -> WorkedEntry
    ensures { result ≡ worked_entry q1 q2 (desk_of s store.now first.now second.now)
        (examined Call.Show (desk_of s store.now first.now second.now)) }
{
    let mut w = Codes::new();
    let d = Desk {
        standing: s,
        store,
        first,
        second,
    };
    match d.examine(&mut w) {
        Err(f) => refused_entry(f),
        Ok(z) => {
            if z.states1 <= q1 || z.states2 <= q2 {
                return refused_entry(Refusal::OutOfRange);
            }
            let algebra = Algebra {
                codes: &w,
                lattice: z.lattice,
            };
            let shown = Table {
                models: d.models(),
                bytes: d.whole_table(),
            };
            let e = entries::entry_of(&algebra, &shown, State(q1), State(q2));
            WorkedEntry {
                number: 0,
                part: 0,
                value: e.value.0,
                // At most 4,096; there is no `From` of a usize.
                pairs: e.pairs as u32,
            }
        }
    }
}
