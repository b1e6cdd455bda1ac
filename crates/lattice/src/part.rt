// A lattice part of the right form, and what its bytes say.
ghost use Rattle.std.specs.Prelude.{◌≡◌, true, ◌<◌, ◌≤◌, length};
ghost use Rattle.theory.specs.Lists.{Filled};
ghost use Rattle.lattice_codes.specs.Tests.{down_of};
ghost use Rattle.lattice.specs.Reading.{is_panel, lattice_of, lattice_form};

use crate::{panel, rows};
use elements::Element;

// A part to which refusal 4 does not apply.
#[derive(Clone, Copy)]
pub(crate) struct Part<'a> {
    pub bytes: &'a [u8],
    pub ghost form: { lattice_form bytes.now ≡ true },
}

#[tactic(auto, unfolding(crate::specs::Reading::is_panel))]
fn is_panel(part: &[u8]) -> bool
    ensures { result ≡ is_panel part.now }
{
    part.len() == 1 && part[0] == 0
}

// The form: refusal 4 does not apply.
pub(crate) fn has_form(part: &[u8]) -> bool
    ensures { result ≡ lattice_form part.now }
{
    if part.is_empty() {
        return false;
    }
    if is_panel(part) {
        return true;
    }
    let limit = part[0];
    let n = usize::from(limit);
    if n < 1 || 64 < n || part.len() != 1 + n + n * n {
        return false;
    }
    elements::below(&part[1..1 + n], limit) && elements::below(&part[1 + n..], 2)
}

impl Part<'_> {
    // n, the number of elements.
    pub(crate) fn size(self) -> u8
        ensures is { result ≡ (lattice_of self.entry.bytes.now).size }
        ensures most { result ≤ 64 }
    {
        if is_panel(self.bytes) {
            return 27;
        }
        self.bytes[0]
    }

    // Not a.
    pub(crate) fn complement(self, a: Element) -> Element
        requires { a.0 < (lattice_of self.bytes.now).size }
        ensures is { result.0 ≡ (lattice_of self.entry.bytes.now).complement a.0 }
        ensures inside { result.0 < (lattice_of self.entry.bytes.now).size }
    {
        if is_panel(self.bytes) {
            return Element(26 - a.0);
        }
        Element(self.bytes[1 + usize::from(a.0)])
    }

    // The words of the order.
    pub(crate) fn fill_order(self, down: &mut [u64])
        requires { length down.old ≡ (lattice_of self.bytes.now).size }
        ensures { Filled (down_of (lattice_of self.entry.bytes.now)) (length down.new) down.new }
    {
        if is_panel(self.bytes) {
            let order = panel::order();
            rows::fill(&order, down);
            return;
        }
        let order = &self.bytes[1 + down.len()..];
        rows::fill(order, down);
    }
}
