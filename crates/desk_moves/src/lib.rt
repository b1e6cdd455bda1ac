// The two calls that move the standing on, and the rest of a round in one call, with the standing by value: each gives the standing after
// it beside its answer.
//   opening: `open`
//   stepping: `step`
//   finishing: `finish_round`, which is so many steps
// Store and tables are parameters of their own, and no struct with the standing: each call lends others of them to be written into.
// A state is made by `as` of the number of a row, which is below 64. That a standing can be moved on (`Movable`) stays a clause: it speaks of two tables,
// of which one is lent to be written until then.
#![tactic(auto)]

mod finishing;
mod opening;
mod stepping;

use desk_check::Standing;
pub use finishing::finish_round;
pub use opening::open;
use refusal::Refusal;
pub use stepping::step;

// What open gives: the standing after it, and its answer.
#[derive(Clone, Copy)]
pub struct Opened {
    pub standing: Standing,
    pub answer: Result<(), Refusal>,
}

// How far a step brings the desk, and the last step of a round that is finished; each with the count of lowerings after it.
#[derive(Clone, Copy)]
pub enum Progress {
    // The lowerings.
    Row(u32),
    // The round or T, and the lowerings.
    Round(u32, u32),
    Settled(u32, u32),
}

// What step and finish_round give: the standing after it, and its answer.
#[derive(Clone, Copy)]
pub struct Stepped {
    pub standing: Standing,
    pub answer: Result<Progress, Refusal>,
}
