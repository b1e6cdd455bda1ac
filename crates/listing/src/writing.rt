// The text that is written: bytes, numbers and lines, one after the other.
ghost use Rattle.std.specs.Prelude.{[], ◌∷◌, ◌≡◌, ◌+◌, ◌<◌};
ghost use Rattle.listing.specs.Text.{decimal, blank, item, last_item, heading};
ghost use Rattle.listing.specs.Lines.{Room, Puts, row_entries, row_line, table_rows};

use entries::Table;
use model::State;

// A text: the bytes lent for it, and the place after those that are written.
#[derive(Drop)]
pub struct Text<'a> {
    pub bytes: &'a mut [u8],
    pub at: usize,
}

// The byte of a digit, by `as`, as a state of a row's number below: both fit, and there is no `From` of a usize.
fn digit(n: usize) -> u8
    requires { n < 10 }
    ensures { result ≡ 48 + n }
{
    b'0' + n as u8
}

impl Text<'_> {
    pub fn put(&mut self, bytes: &[u8])
        requires { Room self.old bytes.now }
        ensures { Puts self.old bytes.now self.new }
    {
        let end = self.at + bytes.len();
        self.bytes[self.at..end].copy_from_slice(bytes);
        self.at = end;
    }

    // One byte, without the call that `put` takes to copy a slice: most of a text is digits and blanks.
    fn put_byte(&mut self, byte: u8)
        requires { Room self.old (byte ∷ []) }
        ensures { Puts self.old (byte ∷ []) self.new }
    {
        self.bytes[self.at] = byte;
        self.at += 1;
    }

    // A number's decimal digits, as `decimal` of specs/Text has them: the bytes are lent, and nothing is allocated for a text of std's.
    fn put_number(&mut self, n: usize)
        requires { Room self.old (decimal n) }
        ensures { Puts self.old (decimal n) self.new }
    {
        if n < 10 {
            self.put_byte(digit(n));
            return;
        }
        self.put_number(n / 10);
        self.put_byte(digit(n % 10));
    }

    // A label and a number.
    pub fn put_item(&mut self, label: &[u8], n: usize)
        requires { Room self.old (item label.now n) }
        ensures { Puts self.old (item label.now n) self.new }
    {
        self.put(label);
        self.put_number(n);
    }

    // A label and a number at the end of a line.
    #[tactic(auto, using(crate::specs::Lines::puts_then))]
    pub fn put_last(&mut self, label: &[u8], n: usize)
        requires { Room self.old (last_item label.now n) }
        ensures { Puts self.old (last_item label.now n) self.new }
    {
        self.put_item(label, n);
        self.put(b"\n");
    }

    // A label, a number and a colon.
    #[tactic(auto, using(crate::specs::Lines::puts_then))]
    pub fn put_heading(&mut self, label: &[u8], n: usize)
        requires { Room self.old (heading label.now n) }
        ensures { Puts self.old (heading label.now n) self.new }
    {
        self.put_item(label, n);
        self.put(b":");
    }

    // ---- a table

    // An entry with the blank before it.
    pub fn put_entry(&mut self, e: u8)
        requires { Room self.old (item blank e) }
        ensures { Puts self.old (item blank e) self.new }
    {
        self.put_item(b" ", usize::from(e));
    }

    // The entries of a row.
    fn put_entries(&mut self, row: &[u8])
        requires { Room self.old (row_entries row.now) }
        ensures { Puts self.old (row_entries row.now) self.new }
    {
        // By places, as `each` of specs/Text has f 0, f 1, ..: with a loop over the bytes, no edit of it that leaves out the first entry is refused for that.
        for q in 0..row.len() {
            self.put_entry(row[q]);
        }
    }

    // The line of row q1.
    fn put_row(&mut self, q1: usize, row: &[u8])
        requires { Room self.old (row_line q1 row.now) }
        ensures { Puts self.old (row_line q1 row.now) self.new }
    {
        self.put_heading(b"row ", q1);
        self.put_entries(row);
        self.put(b"\n");
    }

    // The lines of all rows of a table.
    pub fn put_rows(&mut self, t: &Table)
        requires { Room self.old (table_rows t.now) }
        ensures { Puts self.old (table_rows t.now) self.new }
    {
        for q1 in 0..t.models.first.states() {
            self.put_row(q1, t.row(State(q1 as u8)));
        }
    }
}
