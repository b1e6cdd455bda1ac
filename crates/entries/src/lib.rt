// One entry of F: its element, and how many pairs of states working it looks at (request 103). It is worked on the codes of elements, by & and |
// alone, and turned back into its element once. Propositions come first, then the states of model 1 in rising order, up to the first after
// which the meet is bottom; the pairs of such a state are counted up to the first after which its join is top, and worked in blocks.
//   table: the two models, and tables for their states
//   labels: what the propositions give, for all entries of a row
//   row: what the entries of a row have in common
//   joins: the joins over the states of model 2
// A state is made by `as` of a number that is a place too: there is no `From` of a usize.
#![tactic(auto)]

mod joins;
mod labels;
mod row;
mod table;

ghost use Rattle.std.specs.Prelude.{◌≡◌, ◌+◌, ◌*◌, ◌≤◌, ◌<◌, length, get_or};
ghost use Rattle.elements.specs.Laws.{Within};
ghost use Rattle.entries.specs.Table.{EntryIs};
ghost use Rattle.entries.specs.Words.{Rows};
ghost use Rattle.entries.specs.Codes.{table_code};
ghost use Rattle.entries.specs.Prepared.{StateMet, MetSoFar, Prepared};

use elements::{Algebra, Codes, Element, Lattice};
pub use joins::join_met;
use joins::{Leaving, join, join_words, list_blocks};
pub use labels::propositions;
use model::State;
pub use row::Row;
pub use table::{Models, Table};

// An entry of F, and how many pairs (q1', q2') working it looked at.
#[derive(Clone, Copy)]
pub struct Entry {
    pub value: Element,
    pub pairs: usize,
}

// The code of a meet or a join, and how many pairs were looked at.
#[derive(Clone, Copy)]
pub(crate) struct CodeAndPairs {
    pub code: u64,
    pub pairs: usize,
}

// ---- what a row's entries have in common

// The codes of a table's entries, 64 to a row. (By places: of what a loop over `chunks_exact_mut` writes a proof knows the length alone.)
fn encode_rows(w: &Codes, t: &Table, out: &mut [u64])
    requires { get_or t.now.models.first.bytes.now 0 0 * 64 ≤ length out.old }
    ensures { Rows (table_code w.now.words t.now.bytes.now (get_or t.now.models.second.bytes.now 0 0))
        (get_or t.now.models.first.bytes.now 0 0) (get_or t.now.models.second.bytes.now 0 0) out.new }
{
    let n2 = t.models.second.states();
    for q in 0..t.models.first.states() {
        w.encode(t.row(State(q as u8)), &mut out[q * 64..q * 64 + n2]);
    }
}

// What the entries of row q1 of F of a table have in common: what the propositions give for each of them, the complements of the transitions that leave q1,
// and the table, all in codes. (Codes and a lattice, and no Algebra: that they belong together is not asked.)
pub fn prepare(
    w: &Codes,
    l: Lattice,
    t: &Table,
    q1: State,
    alike: &mut [u64],
    left: &mut [u64],
    codes: &mut [u64],
)
    requires { (q1.0 < get_or t.now.models.first.bytes.now 0 0) × (get_or t.now.models.second.bytes.now 0 0 ≤ length alike.old)
        × (get_or t.now.models.first.bytes.now 0 0 ≤ length left.old) × (get_or t.now.models.first.bytes.now 0 0 * 64 ≤ length codes.old) }
    ensures { Prepared w.now.words l t.now.models.first.bytes.now t.now.models.second.bytes.now t.now.bytes.now q1.0 alike.new left.new codes.new }
{
    propositions(w, w.code(l.top), &t.models, q1, alike);
    t.models.first.transition_codes(w, q1, true, left);
    encode_rows(w, t, codes);
}

// ---- an entry

// y met with the join of c, the complement of the transition to a state of model 1, and the join for that state, whose row of the table is `codes`.
// Where the transition is bottom and no join can be top, y stays and all pairs are counted.
fn meet_state(y: u64, c: u64, r: &Leaving, codes: &[u64]) -> CodeAndPairs
    requires { Within y r.now.top × (r.now.top ≡ 0 → ⊥) × (64 ≤ length codes.now) }
    ensures { StateMet y c r.now.top r.now.row.now codes.now 0 r.now.states result.code result.pairs }
{
    if (c == r.top) & !r.ends {
        return CodeAndPairs {
            code: y,
            pairs: r.states,
        };
    }
    let j = join(r, codes);
    CodeAndPairs {
        code: y & (c | j.code),
        pairs: j.pairs,
    }
}

// x met with what each state of model 1 gives; ends once that is bottom. `left` has the complements of the transitions to them, `table` the table in codes.
fn meet(x: u64, left: &[u64], r: &Leaving, table: &[u64]) -> CodeAndPairs
    requires { Within x r.now.top × (length left.now ≤ 64) × (length left.now * 64 ≤ length table.now) }
    ensures { MetSoFar x r.now.top left.now r.now.row.now table.now r.now.states (length left.now) result.code result.pairs }
{
    let mut y = x;
    let mut pairs: usize = 0;
    for (q, c) in left.iter().enumerate() {
        if y == 0 {
            return CodeAndPairs {
                code: 0,
                pairs: pairs,
            };
        }
        let m = meet_state(y, *c, r, &table[q * 64..q * 64 + 64]);
        y = m.code;
        pairs += m.pairs;
    }
    CodeAndPairs {
        code: y,
        pairs: pairs,
    }
}

// Entry (q1, q2) of F of a table, from what was prepared for its row, whatever the propositions give.
fn work_entry(r: &Row, q2: State) -> Entry
    requires { q2.0 < get_or r.now.table.models.second.bytes.now 0 0 }
    ensures { EntryIs r.now.algebra.codes.now.words r.now.algebra.lattice
        r.now.table.models.first.bytes.now r.now.table.models.second.bytes.now r.now.table.bytes.now
        r.now.q1.0 q2.0 result.value.0 result.pairs }
{
    let algebra = &r.algebra;
    let m2 = &r.table.models.second;
    let n2 = m2.states();
    let mut row = [0u64; 64];
    m2.transition_codes(algebra.codes, q2, false, &mut row);
    let mut starts = [0usize; 4];
    let blocks = list_blocks(&row, n2, &mut starts);
    let top = algebra.codes.code(algebra.lattice.top);
    let leaving = Leaving {
        top,
        row: &row,
        states: n2,
        starts: &starts[..blocks],
        ends: join_words(&row) == top,
    };
    let n1 = r.table.models.first.states();
    let m = meet(r.alike[usize::from(q2.0)], &r.left[..n1], &leaving, r.codes);
    Entry {
        value: algebra.decode(m.code, r.table.entry(r.q1, q2)),
        pairs: m.pairs,
    }
}

// The same. Where the propositions meet in bottom, nothing else is done.
pub fn entry_from(r: &Row, q2: State) -> Entry
    requires { q2.0 < get_or r.now.table.models.second.bytes.now 0 0 }
    ensures { EntryIs r.now.algebra.codes.now.words r.now.algebra.lattice
        r.now.table.models.first.bytes.now r.now.table.models.second.bytes.now r.now.table.bytes.now
        r.now.q1.0 q2.0 result.value.0 result.pairs }
{
    if r.alike[usize::from(q2.0)] == 0 {
        return Entry {
            value: r.algebra.lattice.bottom,
            pairs: 0,
        };
    }
    work_entry(r, q2)
}

// Entry (q1, q2) of F of a table alone. (The arrays stand here, and again in a row of crate `rounds`, since a Row borrows them and so cannot be given out
// of the frame that makes it.)
pub fn entry_of(a: &Algebra, t: &Table, q1: State, q2: State) -> Entry
    requires { (q1.0 < get_or t.now.models.first.bytes.now 0 0) × (q2.0 < get_or t.now.models.second.bytes.now 0 0) }
    ensures { EntryIs a.now.codes.now.words a.now.lattice t.now.models.first.bytes.now t.now.models.second.bytes.now t.now.bytes.now
        q1.0 q2.0 result.value.0 result.pairs }
{
    let mut alike = [0u64; 64];
    let mut left = [0u64; 64];
    let mut codes = [0u64; 4096];
    prepare(a.codes, a.lattice, t, q1, &mut alike, &mut left, &mut codes);
    let r = Row {
        algebra: *a,
        table: *t,
        q1,
        alike: &alike,
        left: &left,
        codes: &codes,
    };
    work_entry(&r, q2)
}
