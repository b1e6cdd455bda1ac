// Two models over the same propositions, and tables for their states. (That a state is one of its model's is a clause wherever it is asked: a state with its
// model inside would be no plainer.)
ghost use Rattle.std.specs.Prelude.{◌≡◌, ◌+◌, ◌*◌, ◌≤◌, ◌<◌, length, get_or, take, drop};
ghost use Rattle.entries.specs.Table.{table_of};

use elements::Element;
use model::{Model, State};

// Models 1 and 2, over the same propositions.
#[derive(Clone, Copy)]
pub struct Models<'a> {
    pub first: Model<'a>,
    pub second: Model<'a>,
    pub ghost same_propositions: { get_or first.bytes.now 1 0 ≡ get_or second.bytes.now 1 0 },
}

// A table for their states: entry (q1, q2) is byte q1·N2 + q2.
#[derive(Clone, Copy)]
pub struct Table<'a> {
    pub models: Models<'a>,
    pub bytes: &'a [u8],
    pub ghost held: { get_or models.first.bytes.now 0 0 * get_or models.second.bytes.now 0 0 ≤ length bytes.now },
}

impl<'a> Table<'a> {
    // The entries of row q1.
    pub fn row(&self, q1: State) -> &'a [u8]
        requires { q1.0 < get_or self.now.models.first.bytes.now 0 0 }
        ensures { (result.now ≡ take (get_or self.now.models.second.bytes.now 0 0)
            (drop (q1.0 * get_or self.now.models.second.bytes.now 0 0) self.now.bytes.now))
            × (length result.now ≡ get_or self.now.models.second.bytes.now 0 0) }
    {
        let bytes = self.bytes;
        let n2 = self.models.second.states();
        let at = usize::from(q1.0) * n2;
        &bytes[at..at + n2]
    }

    // Entry (q1, q2).
    pub fn entry(&self, q1: State, q2: State) -> Element
        requires { (q1.0 < get_or self.now.models.first.bytes.now 0 0) × (q2.0 < get_or self.now.models.second.bytes.now 0 0) }
        ensures { result.0 ≡ table_of self.now.bytes.now (get_or self.now.models.second.bytes.now 0 0) q1.0 q2.0 }
    {
        Element(self.row(q1)[usize::from(q2.0)])
    }
}
