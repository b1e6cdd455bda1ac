// What the arrays of the program hold.
ghost use Rattle.std.specs.Prelude.{◌≡◌, ◌≤◌, ◌<◌, length};
ghost use Rattle.test_limits.specs.Full.{Full};

// What an array is filled with: a lattice part, one of two model parts, a table, a formula. A name and no closure, since callers pass it on, and what each
// holds is said in one place. A byte is made by `as` of a number that fits: there is no `From` of a usize. That n is 9 to 64 is this program's own.
#[derive(Clone, Copy)]
pub enum Filling {
    Chain,
    Subsets,
    First,
    Second,
    Table,
    Joined,
}

// Byte i of the part of a lattice of 64 elements with the given order.
fn lattice_byte<F: Fn(usize, usize) -> bool>(i: usize, below: F) -> u8
    requires { F.IsAlwaysCallable below }
{
    if i == 0 {
        return 64;
    }
    if i < 65 {
        return (64 - i) as u8;
    }
    u8::from(below((i - 65) / 64, (i - 65) % 64))
}

// A number as one of n elements.
fn element(x: usize, n: usize) -> u8
    requires { (0 < n) × (n ≤ 64) }
{
    (x % n) as u8
}

// Byte i of a model part, from the third on: initial values, propositions' values, transitions: a ring, and some others, which differ by `more`.
fn model_byte(i: usize, n: usize, more: usize) -> u8
    requires { (i < 5186) × (9 ≤ n) × (n ≤ 64) × (more ≤ 9) }
{
    if i < 66 {
        return if i % 4 == 2 { (n - 1) as u8 } else { 0 };
    }
    if i < 1090 {
        return element(29 * (66 + (i - 66) / 16), n) / (1 + (i - 66) % 16) as u8;
    }
    let q = (i - 1090) / 64;
    let r = (i - 1090) % 64;
    if (q + 1) % 64 == r {
        return (n - 1 - q % 8) as u8;
    }
    if (5 * q + 3 * r) % 16 == 0 {
        return element(q + 2 * r + more, n);
    }
    0
}

// Byte i; n is the number of elements.
fn byte(what: Filling, i: usize, n: usize) -> u8
    requires { (i < 5186) × (9 ≤ n) × (n ≤ 64) }
{
    match what {
        Filling::Chain => lattice_byte(i, |a, b| a <= b),

        // The subsets of six things, a number's bits being the things in it.
        Filling::Subsets => lattice_byte(i, |a, b| a & b == a),
        Filling::First => model_byte(i, n, 0),
        Filling::Second => model_byte(i, n, 9),
        Filling::Table => element(37 * i, n),
        Filling::Joined => match i % 4 {
            0 => 5,
            1 => 7,
            2 => 2,
            _ => 0,
        },
    }
}

// Every byte of an array. Any bytes do, so that nothing is claimed of them.
pub(crate) fn fill(out: &mut [u8], what: Filling, n: usize)
    requires { (length out.old ≤ 5186) × (9 ≤ n) × (n ≤ 64) }
{
    for (i, x) in out.iter_mut().enumerate() {
        *x = byte(what, i, n);
    }
}

// A model part of 64 states and 16 propositions.
pub fn fill_model(m: &mut [u8], what: Filling, n: usize)
    requires { (length m.old ≡ 5186) × (9 ≤ n) × (n ≤ 64) }
    ensures { Full m.new }
{
    fill(m, what, n);
    m[0] = 64;
    m[1] = 16;
}
