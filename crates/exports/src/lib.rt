// The calls, the rest of a round, what a desk holds, one entry of the next round and the listing for C and Rust: exported functions, the calls over
// those by value, with their answers as numbers in structs of C's layout.
// Each takes the standing, the store and the tables one by one, and gives numbers for kinds and refusals: the C interface.
//   numbers: each call's answer as numbers
//   moves: koelchair_open and koelchair_step
//   finishing: koelchair_finish_round
//   questions: koelchair_show, koelchair_value, koelchair_whole, koelchair_score, koelchair_share and koelchair_judge
//   writing: koelchair_write
//   held: koelchair_sizes
//   worked: koelchair_entry
#![tactic(auto)]

mod finishing;
mod held;
mod moves;
mod numbers;
mod questions;
mod worked;
mod writing;

ghost use Rattle.std.specs.Prelude.{◌≡◌, length};
ghost use Rattle.theory.specs.Lists.{written};
ghost use Rattle.listing.specs.Text.{listing_text};

use desk_check::Standing;

// What every call but show answers; specs/Numbers.antt has the kinds. A field that a kind does not use is 0 or false.
#[repr(C)]
#[derive(Clone, Copy)]
pub struct Answer {
    pub kind: u8,
    // The refusal's number, and the part that it names.
    pub number: u8,
    pub part: u8,
    // The deepest nesting of AX, of kind 9.
    pub byte: u8,
    // The round, T, the element, the per cent, 1 for yes, or the length.
    pub value: u32,
    // The lowerings, of kinds 2, 3 and 4.
    pub second: u32,
    // A fixpoint occurs; EX occurs; of kind 9.
    pub flag1: bool,
    pub flag2: bool,
}

// What open, step and finish_round give: the standing after the call, and the answer.
#[repr(C)]
#[derive(Clone, Copy)]
pub struct Moved {
    pub standing: Standing,
    pub answer: Answer,
}

// What show gives: the table that is shown, 1 the first and 2 the second, and its length; both 0 where the desk is refused.
#[repr(C)]
#[derive(Clone, Copy)]
pub struct Shown {
    pub table: u8,
    pub length: usize,
}

// What a desk holds: the elements of its lattice, the propositions and states of its models, and its formulas. A desk that is refused has the refusal's
// number and part, and zeros; any other has number and part 0.
#[repr(C)]
#[derive(Clone, Copy)]
pub struct DeskSizes {
    pub number: u8,
    pub part: u8,
    pub elements: u8,
    pub propositions: u8,
    pub states1: u8,
    pub states2: u8,
    pub formulas: u8,
}

// What working one entry of the next round gives: the entry, and how many pairs it looked at. A desk that is refused, or a state that there is not, has the
// refusal's number and part, and zeros; any other has number and part 0.
#[repr(C)]
#[derive(Clone, Copy)]
pub struct WorkedEntry {
    pub number: u8,
    pub part: u8,
    pub value: u8,
    pub pairs: u32,
}

// Writes what the program `report` prints for a case at the start of the text, and says how many bytes it has. The bytes after it are unchanged.
#[unsafe(no_mangle)]
pub extern "C" fn koelchair_listing(case: &[u8], text: &mut [u8; 16384]) -> usize
    ensures { (result ≡ length (listing_text case.now))
        × (text.new ≡ written 0 (listing_text case.now) text.old) }
{
    listing::listing(case, text)
}
