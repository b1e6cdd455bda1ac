// The program `report`: reads a case from standard input, works the rounds until one equals the one before, and prints T, the settled table,
// its score and the formulas' values on both models; of a refused case, its number and part. The text is that of crate `listing`.
#![tactic(auto)]

use std::io;

fn main(rt: HostRuntime) -> io::Result<()> {
    // One byte more than a case may have, so that a longer one is refused.
    let mut case = [0u8; 32769];
    let n = input::read_full(&mut rt.stdin(), &mut case)?;
    let mut text = [0u8; 16384];
    let count = listing::listing(&case[..n], &mut text);
    rt.write_all(&text[..count])
}
