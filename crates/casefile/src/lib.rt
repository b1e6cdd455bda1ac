// Cases: the directory, the parts, and the check of all parts.
#![tactic(auto)]

mod writer;

ghost use Rattle.std.specs.Prelude.{◌≡◌, ◌+◌, ◌-◌, ◌<◌, length, MatchOption, MatchResult};
ghost use Rattle.casefile.specs.Directory.{part_count, directory_end, u16_at, part_start, part_size, part_end, size_test, directory_test, misplaced, part_at, parts_from};
ghost use Rattle.casefile.specs.Reading.{formulas_reading, case_reading, refused};
ghost use Rattle.casefile.specs.Answer.{CaseAnswered};
ghost use Rattle.casefile.specs.Conditions.{HasDirectory, Placed};
ghost use Rattle.casefile.specs.Steps.{well_placed, formulas_answer, PartsAnswered};

use elements::{Codes, Lattice};
use refusal::Refusal;

// What an accepted case holds: its lattice, and the sizes of its models and formulas.
#[derive(Clone, Copy)]
pub struct Sizes {
    pub lattice: Lattice,
    pub states1: u8,
    pub states2: u8,
    pub propositions: u8,
    pub formulas: u8,
}

// The bytes of a case whose size and directory are right.
#[derive(Clone, Copy)]
pub struct Directory<'a> {
    pub bytes: &'a [u8],
    pub ghost has: { HasDirectory bytes.now },
}

// The bytes of a case whose parts stand where they may.
#[derive(Clone, Copy)]
pub struct Case<'a> {
    pub bytes: &'a [u8],
    pub ghost placed: { Placed bytes.now },
}

// A number of 16 bits, low byte first.
fn u16_at(bytes: &[u8], at: usize) -> usize
    requires { at + 1 < length bytes.now }
    ensures { (result ≡ u16_at bytes.now at) × (result < 65536) }
{
    usize::from(u16::from_le_bytes([bytes[at], bytes[at + 1]]))
}

fn right_size(bytes: &[u8]) -> bool
    ensures { result ≡ size_test bytes.now }
{
    0 < bytes.len() && bytes.len() <= 32768
}

fn right_directory(bytes: &[u8]) -> bool
    requires { 0 < length bytes.now }
    ensures { result ≡ directory_test bytes.now }
{
    let count = bytes[0];
    3 <= count && count <= 11 && 1 + 4 * usize::from(count) <= bytes.len()
}

impl<'a> Directory<'a> {
    // The directory of a case; else the refusal for the size of the case, or for its directory.
    pub fn of(bytes: &'a [u8]) -> Result<Directory<'a>, Refusal>
        ensures { MatchResult result
            (λ d. d.bytes.now ≡ bytes.now)
            (λ r. case_reading bytes.now ≡ refused r) }
    {
        if !right_size(bytes) {
            return Err(Refusal::CaseSize);
        }
        if !right_directory(bytes) {
            return Err(Refusal::Directory);
        }
        Ok(Directory { bytes })
    }

    // Where the directory ends.
    fn end(self) -> usize
        ensures { result ≡ directory_end self.entry.bytes.now }
    {
        1 + 4 * usize::from(self.bytes[0])
    }

    // Where part i starts.
    #[tactic(auto, unfolding(crate::specs::Directory::part_start))]
    pub fn part_start(self, i: u8) -> usize
        requires { i < part_count self.bytes.now }
        ensures { (result ≡ part_start self.entry.bytes.now i) × (result < 65536) }
    {
        u16_at(self.bytes, 1 + 4 * usize::from(i))
    }

    // How many bytes part i has.
    #[tactic(auto, unfolding(crate::specs::Directory::part_size))]
    pub fn part_size(self, i: u8) -> usize
        requires { i < part_count self.bytes.now }
        ensures { (result ≡ part_size self.entry.bytes.now i) × (result < 65536) }
    {
        u16_at(self.bytes, 3 + 4 * usize::from(i))
    }

    // Where part i ends: a sum that may be past 16 bits.
    pub fn part_end(self, i: u8) -> usize
        requires { i < part_count self.bytes.now }
        ensures { result ≡ part_end self.entry.bytes.now i }
    {
        self.part_start(i) + self.part_size(i)
    }

    // Part i is not empty, starts at `from` or later, and ends within the case.
    fn well_placed(self, i: u8, from: usize) -> bool
        requires { i < part_count self.bytes.now }
        ensures { result ≡ well_placed self.entry.bytes.now i from }
    {
        0 < self.part_size(i) && from <= self.part_start(i) && self.part_end(i) <= self.bytes.len()
    }

    // The first part that does not stand where it may.
    fn first_misplaced(self) -> Option<u8>
        ensures { MatchOption result
            (misplaced self.entry.bytes.now ≡ part_count self.entry.bytes.now)
            (λ i. (i ≡ misplaced self.entry.bytes.now) × (i < part_count self.entry.bytes.now)) }
    {
        let mut from = self.end();
        for i in 0..self.bytes[0] {
            if !self.well_placed(i, from) {
                return Some(i);
            }
            from = self.part_end(i);
        }
        None
    }
}

impl<'a> Case<'a> {
    // The case with a directory; else the refusal for the first part that does not stand where it may.
    pub fn of(directory: Directory<'a>) -> Result<Case<'a>, Refusal>
        ensures { MatchResult result
            (λ c. c.bytes.now ≡ directory.entry.bytes.now)
            (λ r. case_reading directory.entry.bytes.now ≡ refused r) }
    {
        match directory.first_misplaced() {
            Some(i) => Err(Refusal::PartPlace(i)),
            None => Ok(Case {
                bytes: directory.bytes,
            }),
        }
    }

    // Where the parts stand.
    pub fn directory(self) -> Directory<'a>
        ensures { result.bytes.now ≡ self.entry.bytes.now }
    {
        Directory { bytes: self.bytes }
    }

    // The bytes of part i.
    pub fn part(self, i: u8) -> &'a [u8]
        requires { i < part_count self.bytes.now }
        ensures { result.now ≡ part_at self.entry.bytes.now i }
    {
        let directory = self.directory();
        let start = directory.part_start(i);
        let end = directory.part_end(i);
        &self.bytes[start..end]
    }

    // Refuses the first of parts 3, 4, .. that is no formula over k propositions.
    fn check_formulas(self, k: u8) -> Result<(), Refusal>
        ensures { result ≡ formulas_answer (formulas_reading k 3 (parts_from self.entry.bytes.now 3 (part_count self.entry.bytes.now - 3))) }
    {
        match (3..self.bytes[0]).find(|&i| formula::check(self.part(i), k).is_none()) {
            Some(i) => Err(Refusal::BadFormula(i)),
            None => Ok(()),
        }
    }

    // Checks the parts.
    fn check_parts(self, w: &mut Codes) -> Result<Sizes, Refusal>
        ensures { PartsAnswered self.entry.bytes.now result w.new.words }
    {
        let lattice = lattice::check(self.part(0), w)?;
        let first = model::check(self.part(1), lattice.size).ok_or(Refusal::BadModel(1))?;
        let second = model::check(self.part(2), lattice.size).ok_or(Refusal::BadModel(2))?;
        let k = first.propositions;
        if k != second.propositions {
            return Err(Refusal::BadModel(2));
        }
        self.check_formulas(k)?;
        Ok(Sizes {
            lattice,
            states1: first.states,
            states2: second.states,
            propositions: k,
            formulas: self.bytes[0] - 3,
        })
    }
}

// The refusal that a case gets, or what it holds. The codes of an accepted case's lattice are left in w; after a refusal w holds
// anything. To check a store, lend its first 24,576 bytes.
pub fn check(bytes: &[u8], w: &mut Codes) -> Result<Sizes, Refusal>
    ensures { CaseAnswered bytes.now result w.new.words }
{
    let directory = Directory::of(bytes)?;
    let case = Case::of(directory)?;
    case.check_parts(w)
}
