// The codes of a whole round: the inner joins are worked once and serve all rows. They are worked a row of words at a time, and a transition
// that is bottom is passed over: it adds nothing to a join, and takes nothing from a meet. The joins of a row of words end once all of them are
// top, and the meets once all are bottom.
ghost use Rattle.std.specs.Prelude.{◌≡◌, ℕ, ◌*◌, ◌≤◌, ◌<◌, length, get_or};
ghost use Rattle.elements.specs.Words.{code_in};
ghost use Rattle.theory.specs.Lists.{Filled};
ghost use Rattle.theory.specs.Loop.{fold};
ghost use Rattle.entries.specs.Words.{Rows, Replaced};
ghost use Rattle.entries.specs.Codes.{table_code, inner_code, entry_code};
ghost use Rattle.rounds.specs.Rows.{Spread};
ghost use Rattle.rounds.specs.Codes.{by_row, by_column};

use elements::{Algebra, Codes};
use entries::{Models, Table};
use model::{Model, State};

// The codes of a table, 64 to a column, or of its inner joins, 64 to a row.
pub(crate) type TableCodes = [u64; 4096];

// Writes the words of `row` into a column of `out`, which has 64 words to a row.
fn spread(row: &[u64], out: &mut TableCodes, column: usize)
    requires { (length row.now ≤ 64) × (column < 64) }
    ensures { Spread (λ i. get_or row.now i 0) (length row.now) column out.old out.new }
{
    for (i, x) in row.iter().enumerate() {
        out[i * 64 + column] = *x;
    }
}

// Replaces each word of `row` by what `f` makes of it and of the word of `others` at its place, and folds the new words by `g`: in one pass, as a second
// one over the row would take as long again. (By an index: what a loop over a zipped iter_mut writes is not known to a proof.)
fn replace<F: Fn(u64, u64) -> u64, G: Fn(u64, u64) -> u64>(
    row: &mut [u64],
    others: &[u64],
    f: F,
    start: u64,
    g: G,
) -> u64
    requires callable { F.IsAlwaysCallable f × G.IsAlwaysCallable g }
    requires long { length row.old ≤ length others.now }
    ensures replaced { (h : ℕ → ℕ → ℕ) → ((x y r : ℕ) → F.post f x y r → r ≡ h x y)
        → Replaced (λ i x. h x (get_or others.now i 0)) (length row.old) row.old row.new }
    ensures folded { (h : ℕ → ℕ → ℕ) → ((x y r : ℕ) → G.post g x y r → r ≡ h x y)
        → result ≡ fold h start (λ i. get_or row.new i 0) (length row.old) }
{
    let mut all = start;
    for (i, x) in row.iter_mut().enumerate() {
        let y = f(*x, others[i]);
        *x = y;
        all = g(all, y);
    }
    all
}

// The codes of a table by columns: that of entry (q1, q2) stands at q2·64 + q1.
pub(crate) fn encode_columns(w: &Codes, t: &Table, out: &mut TableCodes)
    ensures { Rows (λ q₂ q₁. table_code w.now.words t.now.bytes.now (get_or t.now.models.second.bytes.now 0 0) q₁ q₂)
        (get_or t.now.models.second.bytes.now 0 0) (get_or t.now.models.first.bytes.now 0 0) out.new }
{
    let mut room = [0u64; 64];
    let row = &mut room[..t.models.second.states()];
    for q in 0..t.models.first.states() {
        w.encode(t.row(State(q as u8)), row);
        spread(row, out, q);
    }
}

// ---- the inner joins

// The inner joins of q2, in a row of zeros: in place q1', the code of the join over q2' of R2(q2, q2') met with entry (q1', q2') of the table.
fn join_columns(a: &Algebra, m2: &Model, q2: State, table: &TableCodes, row: &mut [u64])
    requires { (q2.0 < get_or m2.now.bytes.now 0 0) × (length row.old ≤ 64) × Filled (λ q. 0) (length row.old) row.old }
    ensures { Filled (inner_code a.now.codes.now.words m2.now.bytes.now (by_column table.now) q2.0) (length row.old) row.new }
{
    let top = a.codes.code(a.lattice.top);
    for r in 0..m2.states() {
        let c = a.codes.code(m2.transition(q2, State(r as u8)));
        if c == 0 {
            continue;
        }
        let others = &table[r * 64..r * 64 + 64];
        let all = replace(row, others, |x, y| x | (c & y), top, |all, x| all & x);
        if all == top {
            return;
        }
    }
}

// The inner joins of every q2, that of q1' in row q1' and column q2.
pub(crate) fn all_joins(a: &Algebra, m: &Models, table: &TableCodes, joins: &mut TableCodes)
    ensures { Rows (λ q₁ q₂. inner_code a.now.codes.now.words m.now.second.bytes.now (by_column table.now) q₂ q₁)
        (get_or m.now.first.bytes.now 0 0) (get_or m.now.second.bytes.now 0 0) joins.new }
{
    let n1 = m.first.states();
    for q2 in 0..m.second.states() {
        let mut room = [0u64; 64];
        let row = &mut room[..n1];
        join_columns(a, &m.second, State(q2 as u8), table, row);
        spread(row, joins, q2);
    }
}

// ---- rows

// The codes of row q1 of F, from the inner joins of every q2: its propositions, then one q1' after another. (The loop of `join_columns` begins, steps,
// passes over and ends otherwise; what they share is `replace`, so that one function for both would be no plainer.) It is
// inlined: as a call it finds anew at each turn where a transition stands, a third more instructions where model 2 has few states.
#[inline(always)]
pub(crate) fn row_from(a: &Algebra, m: &Models, joins: &TableCodes, q1: State, out: &mut [u64])
    requires { (q1.0 < get_or m.now.first.bytes.now 0 0) × (length out.old ≡ get_or m.now.second.bytes.now 0 0) }
    ensures { Filled (entry_code a.now.codes.now.words (code_in a.now.codes.now.words a.now.lattice.top.0)
        m.now.first.bytes.now m.now.second.bytes.now (by_row joins.now) q1.0)
        (get_or m.now.second.bytes.now 0 0) out.new }
{
    let top = a.codes.code(a.lattice.top);
    entries::propositions(a.codes, top, m, q1, out);
    for q in 0..m.first.states() {
        let c = a.codes.negated_code(m.first.transition(q1, State(q as u8)));
        if c == top {
            continue;
        }
        let others = &joins[q * 64..q * 64 + 64];
        let any = replace(out, others, |x, y| x & (c | y), 0, |any, x| any | x);
        if any == 0 {
            return;
        }
    }
}
