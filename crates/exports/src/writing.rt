// The call that writes into a lent buffer.
ghost use Rattle.std.specs.Prelude.{[], ◌∷◌};
ghost use Rattle.desk.specs.Desk.{Question};
ghost use Rattle.exports.specs.Numbers.{AskedInNumbersWith};

use crate::Answer;
use crate::numbers::length;
use desk_check::{Desk, Standing};

// Writes the desk's case without gaps at the front of a buffer, and says how many bytes it has. The bytes after it are unchanged.
#[unsafe(no_mangle)]
pub extern "C" fn koelchair_write(
    s: Standing,
    store: &[u8],
    first: &[u8],
    second: &[u8],
    out: &mut [u8],
) -> Answer
    ensures { AskedInNumbersWith (out.new ∷ []) (Question.Write out.old)
        s store.now first.now second.now result }
{
    let d = Desk {
        standing: s,
        store,
        first,
        second,
    };
    length(desk_questions::write(d, out))
}
