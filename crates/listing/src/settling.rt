// The rounds, and the lines of the settled table.
ghost use Rattle.listing.specs.Settling.{Startable, Settles, text_of_table, Settleable, WroteSettled};
ghost use Rattle.listing.specs.Lines.{Room, Puts};

use crate::writing::Text;
use elements::Algebra;
use entries::{Models, Table};

// Works rounds up to the first that equals the one before, and gives its number T. The first table, which holds round 0, comes to hold
// round T. The tables take turns, so that none is copied.
fn settle(a: &Algebra, models: &Models, first: &mut [u8], second: &mut [u8]) -> usize
    requires { Startable a.now models.now first.old second.old }
    ensures { Settles a.now models.now first.new result }
{
    let mut r: usize = 0;
    loop {
        let even = Table {
            models: *models,
            bytes: first,
        };
        if !rounds::round(a, &even, second) {
            return r + 1;
        }
        let odd = Table {
            models: *models,
            bytes: second,
        };
        if !rounds::round(a, &odd, first) {
            return r + 2;
        }
        r += 2;
    }
}

// The number of the last round, the lines of its table, and its score.
#[tactic(auto, unfolding(crate::specs::Text::table_text))]
fn put_table(a: &Algebra, t: &Table, r: usize, text: &mut Text)
    requires { Room text.old (text_of_table a.now t.now r) }
    ensures { Puts text.old (text_of_table a.now t.now r) text.new }
{
    let score = rounds::score(a, t);
    text.put_last(b"rounds ", r);
    text.put_rows(t);
    text.put_last(b"score ", usize::from(score.0));
}

// Works the rounds, and writes the lines of the settled table.
pub fn put_settled(a: &Algebra, models: &Models, text: &mut Text)
    requires { Settleable a.now models.now text.old }
    ensures { WroteSettled a.now models.now text.old text.new }
{
    let top = a.lattice.top.0;
    let mut first = [top; 4096];
    let mut second = [top; 4096];
    let r = settle(a, models, &mut first, &mut second);
    let table = Table {
        models: *models,
        bytes: &first,
    };
    put_table(a, &table, r, text);
}
