// The simulation operator on tables that are held as bytes: a row, a round, whether a table is at or below F of it, and score; in how many entries two tables
// differ. All but the last is worked on the codes of elements (crate `elements`), and an entry that is written is turned back into its element once. A row
// alone is worked entry by entry (crate `entries`), a round by the inner joins that its rows share.
// Loops go by the numbers of states, which are places in rows too: they are usize, and `State(q as u8)` is the state of a number.
//   columns: the codes of all rows of a round
#![tactic(auto)]

mod columns;

ghost use Rattle.std.specs.Prelude.{◌≡◌, ℕ, ◌*◌, ◌≤◌, ◌<◌, length, get_or};
ghost use Rattle.theory.specs.Lists.{Filled};
ghost use Rattle.rounds.specs.Table.{Room, RowIn, score_in, post_fixed_in, bytes_differing};
ghost use Rattle.rounds.specs.Round.{RoundIn};
ghost use Rattle.rounds.specs.Row.{RowSoFar};
ghost use Rattle.elements.specs.Words.{decode_in};
ghost use Rattle.rounds.specs.Codes.{initial_code, JoinsOf};

use columns::{TableCodes, all_joins, encode_columns, row_from};
use elements::{Algebra, Codes, Element};
use entries::{Row, Table};
use model::{Model, State};

// ---- a row and a round

// Writes into `out` what `f` makes of each place and of the byte of s there; says whether any differs from that byte. (By an index, as
// `replace` of columns.)
fn write_row<F: Fn(usize, u8) -> u8>(s: &[u8], out: &mut [u8], f: F) -> bool
    requires callable { (q x : ℕ) → q < length s.now → F.pre f q x }
    requires same { length out.old ≡ length s.now }
    ensures { (h : ℕ → ℕ) → ((q y : ℕ) → q < length s.now → F.post f q (get_or s.now q 0) y → y ≡ h q)
        → RowSoFar result 0 h (λ q. get_or s.now q 0) out.old (length s.now) out.new }
{
    let mut changed = false;
    for (q, x) in out.iter_mut().enumerate() {
        let old = s[q];
        let e = f(q, old);
        changed = changed | (old != e);
        *x = e;
    }
    changed
}

// Writes the elements of codes; says whether any differs from the byte of s at its place.
fn write_codes(a: &Algebra, codes: &[u64], s: &[u8], out: &mut [u8]) -> bool
    requires { (length out.old ≡ length s.now) × (length s.now ≤ length codes.now) }
    ensures { RowSoFar result 0 (λ q. decode_in a.now.codes.now.words (get_or codes.now q 0)) (λ q. get_or s.now q 0) out.old (length s.now) out.new }
{
    write_row(s, out, |q, old| a.decode(codes[q], Element(old)).0)
}

// Row q1 of F of a table, entry by entry, with room for N codes of the table; says whether any entry differs from that of the table.
// (That there is room in `out` and that q1 is a row are clauses: a type that held the table, `out` and q1 would be no plainer.)
fn work_row<const N: usize>(a: &Algebra, t: &Table, out: &mut [u8], q1: State) -> bool
    requires { Room t.now.models.first.bytes.now t.now.models.second.bytes.now out.old × (q1.0 < get_or t.now.models.first.bytes.now 0 0)
        × (get_or t.now.models.first.bytes.now 0 0 * 64 ≤ N) × (N ≤ 4096) }
    ensures { RowIn a.now.codes.now.words a.now.lattice t.now.models.first.bytes.now t.now.models.second.bytes.now t.now.bytes.now q1.0 out.old out.new result }
{
    let mut alike = [0u64; 64];
    let mut left = [0u64; 64];
    let mut codes = [0u64; N];
    entries::prepare(a.codes, a.lattice, t, q1, &mut alike, &mut left, &mut codes);
    let row = Row {
        algebra: *a,
        table: *t,
        q1,
        alike: &alike,
        left: &left,
        codes: &codes,
    };
    let n2 = t.models.second.states();
    let at = usize::from(q1.0) * n2;
    write_row(
        t.row(q1),
        &mut out[at..at + n2],
        |q, _| entries::entry_from(&row, State(q as u8)).value.0,
    )
}

// Works row q1 of F of a table into the same row of out; says whether any entry differs from that of the table. With at most 16 states of model 1
// the codes of the table take less room, which is faster to clear.
pub fn row(a: &Algebra, t: &Table, out: &mut [u8], q1: State) -> bool
    requires { Room t.now.models.first.bytes.now t.now.models.second.bytes.now out.old × (q1.0 < get_or t.now.models.first.bytes.now 0 0) }
    ensures { RowIn a.now.codes.now.words a.now.lattice t.now.models.first.bytes.now t.now.models.second.bytes.now t.now.bytes.now q1.0 out.old out.new result }
{
    if t.models.first.states() <= 16 {
        work_row::<1024>(a, t, out, q1)
    } else {
        work_row::<4096>(a, t, out, q1)
    }
}

// Works F of a table into the first N1·N2 bytes of `other`, and keeps its other bytes; says whether any entry differs from that of the table.
// (Rows by places: of what a loop over `chunks_exact_mut` writes a proof knows the length alone.)
pub fn round(a: &Algebra, t: &Table, other: &mut [u8]) -> bool
    requires { Room t.now.models.first.bytes.now t.now.models.second.bytes.now other.old }
    ensures { RoundIn a.now.codes.now.words a.now.lattice t.now.models.first.bytes.now t.now.models.second.bytes.now t.now.bytes.now
        other.old other.new result }
{
    let n2 = t.models.second.states();
    let mut joins = [0u64; 4096];
    inner_joins(a, t, &mut joins);
    let mut room = [0u64; 64];
    let codes = &mut room[..n2];
    let mut changed = false;
    for q in 0..t.models.first.states() {
        let q1 = State(q as u8);
        row_from(a, &t.models, &joins, q1, codes);
        let c = write_codes(a, codes, t.row(q1), &mut other[q * n2..q * n2 + n2]);
        changed = changed | c;
    }
    changed
}

// The inner joins of a table, of every q2.
fn inner_joins(a: &Algebra, t: &Table, joins: &mut TableCodes)
    ensures { JoinsOf a.now.codes.now.words t.now.models.first.bytes.now t.now.models.second.bytes.now t.now.bytes.now joins.new }
{
    let mut table = [0u64; 4096];
    encode_columns(a.codes, t, &mut table);
    all_joins(a, &t.models, &table, joins);
}

// ---- the test against F

// Whether each entry of a table is at or below that of F of it: row by row, up to the first entry that is not. No code is turned back into an
// element. (It begins as `round`, but writes nothing and ends early: one loop for both, with a closure for what is done with a row, would be no plainer.)
pub fn is_post_fixed(a: &Algebra, t: &Table) -> bool
    ensures { result ≡ post_fixed_in a.now.codes.now.words a.now.lattice t.now.models.first.bytes.now t.now.models.second.bytes.now t.now.bytes.now }
{
    let mut joins = [0u64; 4096];
    inner_joins(a, t, &mut joins);
    let mut room = [0u64; 64];
    let codes = &mut room[..t.models.second.states()];
    for q in 0..t.models.first.states() {
        let q1 = State(q as u8);
        row_from(a, &t.models, &joins, q1, codes);
        if !a.codes.all_at_most(t.row(q1), codes) {
            return false;
        }
    }
    true
}

// ---- lowerings

// In how many entries two tables with n1 rows of n2 entries differ, by both numbers as `bytes_differing` of specs/Table. (The count fits a u32; there is
// no `From` for it, and `try_from` would leave an error to answer.) A loop by places compares many bytes at once; a chain over `zip` is not compiled so, and
// takes ten times as long.
pub fn differing(a: &[u8], b: &[u8], n1: usize, n2: usize) -> u32
    requires { (n1 * n2 ≤ 4096) × (n1 * n2 ≤ length a.now) × (n1 * n2 ≤ length b.now) }
    ensures { result ≡ bytes_differing a.now b.now n1 n2 }
{
    let n = n1 * n2;
    let mut c: usize = 0;
    for i in 0..n {
        c += usize::from(a[i] != b[i]);
    }
    c as u32
}

// ---- score

// The codes of the initial values.
fn initial_codes(w: &Codes, m: &Model, out: &mut [u64])
    requires { get_or m.now.bytes.now 0 0 ≤ length out.old }
    ensures { Filled (initial_code w.now.words m.now.bytes.now) (get_or m.now.bytes.now 0 0) out.new }
{
    for (q, x) in out[..m.states()].iter_mut().enumerate() {
        *x = w.code(m.initial(State(q as u8)));
    }
}

// The meet over q1 of its initial value → the join over q2 of its initial value met with entry (q1, q2) of the table.
pub fn score(a: &Algebra, t: &Table) -> Element
    ensures { result.0 ≡ score_in a.now.codes.now.words a.now.lattice t.now.models.first.bytes.now t.now.models.second.bytes.now t.now.bytes.now }
{
    let n2 = t.models.second.states();
    let mut right = [0u64; 64];
    initial_codes(a.codes, &t.models.second, &mut right);
    let mut room = [0u64; 64];
    let codes = &mut room[..n2];
    let mut x = a.codes.code(a.lattice.top);
    for q in 0..t.models.first.states() {
        let q1 = State(q as u8);
        a.codes.encode(t.row(q1), codes);
        let y = entries::join_met(0, &right[..n2], codes);
        let z = a.codes.negated_code(t.models.first.initial(q1));
        x = x & (z | y);
    }
    a.decode(x, a.lattice.top)
}
