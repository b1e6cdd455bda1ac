// States and propositions, and the values of a model part.
#![tactic(auto)]

mod values;

ghost use Rattle.std.specs.Prelude.{◌≡◌};
ghost use Rattle.model.specs.Reading.{model_answer};

pub use values::Model;

// A state of a model, by its number.
#[derive(Clone, Copy, PartialEq, Eq)]
pub struct State(pub u8);

// A proposition, by its number.
#[derive(Clone, Copy, PartialEq, Eq)]
pub struct Proposition(pub u8);

// How many states and propositions a model has.
#[derive(Clone, Copy, PartialEq, Eq)]
pub struct ModelSize {
    pub states: u8,
    pub propositions: u8,
}

// The size of a part that is a model over a lattice of n elements.
pub fn check(part: &[u8], n: u8) -> Option<ModelSize>
    ensures { result ≡ model_answer n part.now }
{
    if part.len() < 2 {
        return None;
    }
    let states = part[0];
    let propositions = part[1];
    if states == 0 || 64 < states || 16 < propositions {
        return None;
    }
    let w = usize::from(states);
    let k = usize::from(propositions);
    if part.len() != 2 + w + w * k + w * w || !elements::below(&part[2..], n) {
        return None;
    }
    Some(ModelSize {
        states,
        propositions,
    })
}
