// The words of an order: the word of an element has the bits of those at or below it.
ghost use Rattle.std.specs.Prelude.{◌≡◌, ◌+◌, ◌*◌, ◌≤◌, ◌<◌, length};
ghost use Rattle.theory.specs.Lists.{Filled};
ghost use Rattle.lattice.specs.Rows.{Bytes, Rowed, down_in};

// Sets bit i of word j where byte j of the row is 1.
fn add_row(row: &[u8], i: usize, down: &mut [u64])
    requires { (length row.now ≡ length down.old) × (i < 64) }
    ensures { Rowed row.now 0 i (length down.old) down.old down.new }
{
    // An index into `down`: a loop over a zipped `iter_mut` leaves nothing known of what it writes.
    for (j, b) in row.iter().enumerate() {
        down[j] |= u64::from(*b) << i;
    }
}

// The words of the order whose bytes stand in s, row by row.
pub(crate) fn fill(s: &[u8], down: &mut [u64])
    requires { (length down.old ≤ 64) × Bytes s.now 0 (length down.old) }
    ensures { Filled (down_in s.now 0 (length down.old)) (length down.old) down.new }
{
    let n = down.len();
    down.fill(0);
    // Not by `chunks_exact`, which may not be asked for rows of no bytes, and s may be longer than n rows.
    for i in 0..n {
        add_row(&s[i * n..i * n + n], i, down);
    }
}
