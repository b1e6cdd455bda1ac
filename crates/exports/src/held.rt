// What a desk holds.
ghost use Rattle.std.specs.Prelude.{◌≡◌};
ghost use Rattle.desk.specs.Desk.{Call};
ghost use Rattle.desk.specs.Refused.{examined};
ghost use Rattle.desk_check.specs.Read.{desk_of};
ghost use Rattle.exports.specs.Numbers.{sized};

use crate::DeskSizes;
use desk_check::{Desk, Standing};

const UNUSED: DeskSizes = DeskSizes {
    number: 0,
    part: 0,
    elements: 0,
    propositions: 0,
    states1: 0,
    states2: 0,
    formulas: 0,
};

// The sizes of what a desk holds, or the refusal that it gets.
#[unsafe(no_mangle)]
pub extern "C" fn koelchair_sizes(
    s: Standing,
    store: &[u8],
    first: &[u8],
    second: &[u8],
) -> DeskSizes
    ensures { result ≡ sized (examined Call.Show (desk_of s store.now first.now second.now)) }
{
    let d = Desk {
        standing: s,
        store,
        first,
        second,
    };
    match d.sizes() {
        Err(f) => DeskSizes {
            number: f.number(),
            part: f.part(),
            ..UNUSED
        },
        Ok(z) => DeskSizes {
            elements: z.lattice.size,
            propositions: z.propositions,
            states1: z.states1,
            states2: z.states2,
            formulas: z.formulas,
            ..UNUSED
        },
    }
}
