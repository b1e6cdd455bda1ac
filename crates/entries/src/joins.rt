// The joins inside an entry, over the states of model 2: 16 words at a time, up to the block with which a join is top, and then word by word.
// A block whose transitions are all bottom is passed over: it adds nothing.
ghost use Rattle.std.specs.Prelude.{◌≡◌, ◌+◌, ◌≤◌, false, length};
ghost use Rattle.entries.specs.Codes.{WithinTop};
ghost use Rattle.entries.specs.Joins.{join_code, Gap, words_join, words_met, Listed, Joined, FirstTop, BeforeTop, MayEnd};

use crate::CodeAndPairs;

// The join of the words of `row`. A loop, as below: a chain's fold takes longer.
pub(crate) fn join_words(row: &[u64]) -> u64
    ensures { result ≡ words_join row.now 0 (length row.now) }
{
    let mut x: u64 = 0;
    for y in row {
        x = x | *y;
    }
    x
}

// The join of x and the words of `row`, each met with the word of `codes` at its place. A loop by places is worked two words at a time; a chain over
// `zip` is not, and takes longer.
pub fn join_met(x: u64, row: &[u64], codes: &[u64]) -> u64
    requires { length row.now ≤ length codes.now }
    ensures { result ≡ words_met x row.now codes.now }
{
    let mut joined = x;
    for (i, r) in row.iter().enumerate() {
        joined = joined | (*r & codes[i]);
    }
    joined
}

// Writes where the blocks of 16 words of `row` begin that are not all 0, and says how many there are. From place n on all words are 0. It goes by numbers,
// since the places are what it lists. (An array and a count: a call allocates nothing.)
pub(crate) fn list_blocks(row: &[u64; 64], n: usize, starts: &mut [usize; 4]) -> usize
    requires { Gap row.now n 64 }
    ensures { (result ≤ 4) × Listed row.now starts.new result 64 }
{
    let mut count: usize = 0;
    for b in 0..4usize {
        let i = b * 16;
        if n <= i {
            return count;
        }
        starts[count] = i;
        count += usize::from(join_words(&row[i..i + 16]) != 0);
    }
    count
}

// The transitions that leave a state of model 2, in codes: those to its states, and 0 from there on; where the blocks of 16 of them begin that are not
// all 0; and whether a join over them can be top. 64 words and a count of states, since blocks of 16 are read whole, and with them the zeros; that as many
// codes of a table's row stand beside them is a clause of the four functions that join the two.
#[derive(Clone, Copy)]
pub(crate) struct Leaving<'a> {
    pub top: u64,
    pub row: &'a [u64],
    pub states: usize,
    pub starts: &'a [usize],
    pub ends: bool,
    ghost long: { length row.now ≡ 64 },
    ghost within: { WithinTop top 64 row.now },
    ghost gap: { Gap row.now states 64 },
    ghost few: { length starts.now ≤ 4 },
    ghost listed: { Listed row.now starts.now (length starts.now) 64 },
    ghost may_end: { MayEnd top row.now ends },
}

// How many words it takes until the join is top: x, the join before word i, is not, and with the 16 words from there on it is. It goes by numbers, since
// a number is the answer.
fn end_in_block(x: u64, r: &Leaving, i: usize, codes: &[u64]) -> usize
    requires { (i + 16 ≤ 64) × (64 ≤ length codes.now) × (x ≡ join_code r.now.row.now codes.now 0 i) × (x ≡ r.now.top → ⊥)
        × (join_code r.now.row.now codes.now 0 (i + 16) ≡ r.now.top) }
    ensures { FirstTop r.now.top r.now.row.now codes.now 0 result }
{
    let mut y = x;
    for j in 0..16usize {
        y = y | (r.row[i + j] & codes[i + j]);
        if y == r.top {
            return i + j + 1;
        }
    }
    i + 16
}

// The join of the words of `row` that stand in the listed blocks, each met with the word of `codes` at its place: its code before the block
// with which it is top, and where that block begins, if it ever is. The search for the last word stands outside this loop, so that the blocks are
// joined two words at a time. (That top is not 0 is no ghost field of `Leaving`: in a lattice of one element it is 0, and `meet` ends before any join.)
fn before_top(r: &Leaving, codes: &[u64]) -> (u64, Option<usize>)
    requires { (64 ≤ length codes.now) × (r.now.top ≡ 0 → ⊥) }
    ensures { BeforeTop r.now.top r.now.row.now codes.now 0 result.0 result.1 }
{
    let row = r.row;
    let mut x: u64 = 0;
    for start in r.starts {
        let i = *start;
        let y = join_met(x, &row[i..i + 16], &codes[i..i + 16]);
        if y == r.top {
            return (x, Some(i));
        }
        x = y;
    }
    (x, None)
}

// The same join, and how many of the words it takes until it is top, as many as there are states where it never is.
pub(crate) fn join(r: &Leaving, codes: &[u64]) -> CodeAndPairs
    requires { (64 ≤ length codes.now) × (r.now.top ≡ 0 → ⊥) }
    ensures { Joined r.now.top r.now.row.now codes.now 0 r.now.states result.code result.pairs }
{
    let (code, block) = before_top(r, codes);
    match block {
        None => CodeAndPairs {
            code,
            pairs: r.states,
        },
        Some(i) => CodeAndPairs {
            code: r.top,
            pairs: end_in_block(code, r, i, codes),
        },
    }
}
