// Lattice elements, and a lattice in 128 words: the codes of its elements, on which meet is & and join is |, and those of their complements.
#![tactic(auto)]

mod algebra;
mod codes;

ghost use Rattle.std.specs.Prelude.{◌≡◌, ltb};
ghost use Rattle.std.specs.List.{list_all};

pub use algebra::Algebra;
pub use codes::Codes;

// An element of the lattice, by its number.
#[derive(Clone, Copy, PartialEq, Eq)]
pub struct Element(pub u8);

// What a lattice has beside its codes: n, the number of its elements, and its top and bottom.
#[derive(Clone, Copy, PartialEq, Eq)]
pub struct Lattice {
    pub size: u8,
    pub top: Element,
    pub bottom: Element,
}

// Each byte is below a limit: with n for the limit, each is an element.
pub fn below(s: &[u8], limit: u8) -> bool
    ensures { result ≡ list_all (λ x. ltb x limit) s.now }
{
    s.iter().all(|&x| x < limit)
}
