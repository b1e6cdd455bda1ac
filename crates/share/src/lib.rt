// The share of a table's entries that are at or above an element, in whole per cent: `share`, by a count and its rounding.
#![tactic(auto)]

ghost use Rattle.std.specs.Prelude.{◌≡◌, ◌≤◌, ◌<◌, length, get_or};
ghost use Rattle.theory.specs.Loop.{Counted};
ghost use Rattle.theory.specs.Simulation.{per_cent};
ghost use Rattle.elements.specs.Words.{at_most_in};
ghost use Rattle.share.specs.ShareIn.{share_in};

use elements::{Codes, Element};

// How many of the entries s are at or above e. A loop: a chain of `filter` and `count` takes half as long again.
fn count(w: &Codes, e: Element, s: &[u8]) -> usize
    ensures { Counted (λ i. at_most_in w.now.words e.0 (get_or s.now i 0)) (length s.now) result }
{
    let mut c: usize = 0;
    for x in s {
        c += usize::from(w.at_most(e, Element(*x)));
    }
    c
}

// c of n in whole per cent: the quotient q of 100 c by n, and one more where the rest is over half of n, or is half of n and q is odd.
// (By `as`, since it fits a u8: there is no `From`, and `try_from` would leave an error to answer.)
fn per_cent(c: usize, n: usize) -> u8
    requires { (0 < n) × (n ≤ 4096) × (c ≤ n) }
    ensures { result ≡ per_cent c n }
{
    let q = 100 * c / n;
    let rest = 100 * c % n;
    if n < 2 * rest + q % 2 {
        return (q + 1) as u8;
    }
    q as u8
}

// The per cent of the entries s that are at or above e, an exact half to the even neighbour.
pub fn share(w: &Codes, e: Element, s: &[u8]) -> u8
    requires { (0 < length s.now) × (length s.now ≤ 4096) }
    ensures { result ≡ share_in w.now.words e.0 s.now (length s.now) }
{
    per_cent(count(w, e, s), s.len())
}
