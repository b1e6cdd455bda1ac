// What the entries of a row of F have in common.
ghost use Rattle.std.specs.Prelude.{◌<◌, ◌≤◌, length, get_or};
ghost use Rattle.entries.specs.Prepared.{Prepared};

use crate::Table;
use elements::Algebra;
use model::State;

// Row q1 of F of a table: what the propositions give for each of its entries, the complements of the transitions that leave q1, and the table, all in codes.
#[derive(Clone, Copy)]
pub struct Row<'a> {
    pub algebra: Algebra<'a>,
    pub table: Table<'a>,
    pub q1: State,
    pub alike: &'a [u64],
    pub left: &'a [u64],
    pub codes: &'a [u64],
    pub ghost here: { q1.0 < get_or table.models.first.bytes.now 0 0 },
    pub ghost prepared: { Prepared algebra.codes.now.words algebra.lattice table.models.first.bytes.now table.models.second.bytes.now table.bytes.now
        q1.0 alike.now left.now codes.now },
    pub ghost for_each: { get_or table.models.second.bytes.now 0 0 ≤ length alike.now },
    pub ghost to_each: { get_or table.models.first.bytes.now 0 0 ≤ length left.now },
}
