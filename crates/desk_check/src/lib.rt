// The standing, and the examination that every call but open makes before its own arguments.
#![tactic(auto)]

ghost use Rattle.std.specs.Prelude.{◌≡◌, ◌*◌, ◌-◌, ◌≤◌, ◌<◌, cond, length, take, IfOk, IfErr};
ghost use Rattle.desk_check.specs.Read.{standing_of, desk_in};
ghost use Rattle.desk_check.specs.Answer.{rules_of, examined_answer, DeskExamined};
ghost use Rattle.desk_check.specs.Held.{Stored, ModelsOf, HeldDesk, Refuses};
ghost use Rattle.desk.specs.Desk.{Call};
ghost use Rattle.desk.specs.Refused.{too_short, row_obeys, round_obeys, standing_obeys, table_obeys, examined};

use casefile::{Case, Sizes};
use elements::Codes;
use entries::Models;
use model::Model;
use refusal::Refusal;

// How many bytes a store and a table have at least.
pub const STORE_LENGTH: usize = 24576;

pub const TABLE_LENGTH: usize = 4096;

// Where the desk stands. Its layout is C's, since the exported calls take and give it by value.
#[repr(C)]
#[derive(Clone, Copy, Default)]
pub struct Standing {
    // N1 and N2.
    pub states1: u8,
    pub states2: u8,
    pub round: u32,
    // The next row.
    pub row: u8,
    // Whether this round has changed anything yet.
    pub changed: bool,
    pub settled: bool,
    // The second table is the whole one; else the first is.
    pub second_whole: bool,
    // The entries that differ from the round before, summed over the whole rounds shown.
    pub lowerings: u32,
}

// A desk: its standing, its store and its two tables. The store's lifetime is its own, since what show gives is a part of a table.
#[derive(Clone, Copy)]
pub struct Desk<'s, 't> {
    pub standing: Standing,
    pub store: &'s [u8],
    pub first: &'t [u8],
    pub second: &'t [u8],
}

// N1·N2, the entries of a table.
pub fn table_size(z: Sizes) -> usize
    ensures { (result ≡ z.states1 * z.states2) × (result < 65536) }
{
    usize::from(z.states1) * usize::from(z.states2)
}

// The first `count` bytes of a table are below n: the definition `table_obeys count n table`, which takes the table whole.
pub fn table_obeys(table: &[u8], count: usize, n: u8) -> bool
    requires { count ≤ length table.now }
    ensures { result ≡ table_obeys count n table.now }
{
    elements::below(&table[..count], n)
}

// N1·N2·(n − 1).
fn limit(n1: u8, n2: u8, n: u8) -> usize
    ensures { (result ≡ n1 * n2 * (n - 1)) × (result < 16777216) }
{
    usize::from(n1) * usize::from(n2) * usize::from(n.saturating_sub(1))
}

impl Standing {
    // Next row is below N1; at next row 0 nothing has changed yet.
    fn row_obeys(self, n1: u8) -> bool
        ensures { result ≡ row_obeys n1 (standing_of self) }
    {
        self.row < n1 && (self.row != 0 || !self.changed)
    }

    // Unsettled, the round is at most `most`; settled, it is 1 to one more and next row is 0. Round and lowerings are widened by `as`: a usize has no
    // `From` of a u32.
    fn round_obeys(self, most: usize) -> bool
        requires { most < 16777216 }
        ensures { result ≡ round_obeys most (standing_of self) }
    {
        let at = self.round as usize;
        if self.settled {
            1 <= at && at <= most + 1 && self.row == 0
        } else {
            at <= most
        }
    }

    fn obeys(self, n1: u8, n2: u8, n: u8) -> bool
        ensures { result ≡ standing_obeys n1 n2 n (standing_of self) }
    {
        let most = limit(n1, n2, n);
        self.states1 == n1
            && self.states2 == n2
            && self.row_obeys(n1)
            && self.round_obeys(most)
            && self.lowerings as usize <= most
    }
}

impl<'s, 't> Desk<'s, 't> {
    // The store or a table is shorter than a desk wants.
    pub fn too_short(self) -> bool
        ensures { result ≡ too_short self.entry.store.now self.entry.first.now self.entry.second.now }
    {
        self.store.len() < STORE_LENGTH
            || self.first.len() < TABLE_LENGTH
            || self.second.len() < TABLE_LENGTH
    }

    // The rules of 12 beside the store's reading.
    fn obeys(self, z: Sizes) -> bool
        requires { (z.states1 * z.states2 ≤ length self.first.now) × (z.states1 * z.states2 ≤ length self.second.now) }
        ensures { result ≡ rules_of self.entry.standing z self.entry.first.now self.entry.second.now }
    {
        let n = z.lattice.size;
        let count = table_size(z);
        self.standing.obeys(z.states1, z.states2, n)
            && table_obeys(self.first, count, n)
            && table_obeys(self.second, count, n)
    }

    // The examination that every call but open makes: 11, 12, or what the store holds. The codes of the lattice of a held desk are left in w.
    pub fn examine(self, w: &mut Codes) -> Result<Sizes, Refusal>
        ensures examined { DeskExamined (desk_in self.entry) result w.new.words }
        ensures held { IfOk result (λ z. HeldDesk (desk_in self.entry) z w.new.words) }
        ensures refused { IfErr result (λ f. Refuses (desk_in self.entry) f) }
    {
        if self.too_short() {
            return Err(Refusal::ShortDesk);
        }
        let Ok(z) = casefile::check(&self.store[..STORE_LENGTH], w) else {
            return Err(Refusal::SpoiledDesk);
        };
        if self.obeys(z) {
            Ok(z)
        } else {
            Err(Refusal::SpoiledDesk)
        }
    }

    // What a desk holds: the sizes of its lattice, models and formulas, or the refusal that every call but open gets. It is no call of document 01.
    pub fn sizes(self) -> Result<Sizes, Refusal>
        ensures { result ≡ examined_answer (examined Call.Show (desk_in self.entry)) }
    {
        let mut w = Codes::new();
        self.examine(&mut w)
    }

    // The case in the store of a held desk.
    pub fn case(self) -> Case<'s>
        requires { Stored self.store.now }
        ensures { result.bytes.now ≡ take 24576 self.entry.store.now }
    {
        Case {
            bytes: &self.store[..STORE_LENGTH],
        }
    }

    // Its two models.
    pub fn models(self) -> Models<'s>
        requires { Stored self.store.now }
        ensures { ModelsOf self.entry.store.now result.first.bytes.now result.second.bytes.now }
    {
        let case = self.case();
        let first = Model {
            bytes: case.part(1),
        };
        let second = Model {
            bytes: case.part(2),
        };
        Models { first, second }
    }

    // The table that is shown: the whole one.
    pub fn whole_table(self) -> &'t [u8]
        ensures { result.now ≡ cond self.entry.standing.second_whole self.entry.second.now self.entry.first.now }
    {
        if self.standing.second_whole {
            self.second
        } else {
            self.first
        }
    }
}
