// Input that is read into room of fixed size.
#![tactic(auto)]

ghost use Rattle.std.specs.Prelude.{◌≤◌, length, IfOk};

use std::io;
use std::io::Read;

// Reads until the room is full or the input ends; says how many bytes there are. std's `read_exact` does not say it at an early end, and
// `read_to_end` takes memory.
pub fn read_full(input: &mut impl Read, out: &mut [u8]) -> io::Result<usize>
    ensures { IfOk result (λ n. n ≤ length out.new) }
{
    let mut count = 0;
    while count < out.len() {
        let n = input.read(&mut out[count..])?;
        if n == 0 {
            break;
        }
        count += n;
    }
    Ok(count)
}
