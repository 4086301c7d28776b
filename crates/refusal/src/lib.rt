// Why a call was refused: its number, and what it names.
#![tactic(auto)]

ghost use Rattle.refusal.specs.Told.{number_of, area_name, coefficient_told, counts_text, fault_text, step_text, told};
ghost use Rattle.std.specs.Prelude.{◌≡◌, Some};

pub mod fault;
mod residues;

pub use fault::{Coefficient, Counts, Fault, Step};
pub use residues::check_residues;
use std::fmt;
use words::Mark;

// An area of words that a call is lent.
#[derive(Clone, Copy, Debug, PartialEq, Eq)]
pub enum Area {
    Public,
    Key,
}

#[derive(Clone, Copy, Debug, PartialEq, Eq)]
pub enum Refusal {
    // The share count is not 1 to 8.
    ShareCount,
    // An area is not of its size.
    AreaSize,
    // A word of an area is the modulus or more.
    NotResidue { area: Area, index: usize },
    // A secret coefficient is not −1, 0 or 1.
    NotTernary { index: usize },
    // The number of tries is not 1 to 255.
    Tries,
    // A record is not of its size, or its length field says otherwise.
    RecordSize,
    // A record is not of the set's kind.
    Kind,
    // A coefficient of z lies too far from 0.
    OutOfReach { index: usize },
    // A coefficient of the challenge has the code that means nothing.
    UnusedCode { index: usize },
    // The hash gives another challenge.
    OtherChallenge,
    // The number of words that a source is to have, or the cutoff of its health check, is out of range.
    SourceRange,
    // The counter has come to its last value.
    CounterEnd,
    // The nonce source ended while signing.
    NoncesEndedAt { fault: Fault, counts: Counts },
    // The mask source ended, in a load or a remask.
    MasksEnded { mark: Mark },
    // The mask source ended while signing.
    MasksEndedAt { fault: Fault, counts: Counts },
    // Every try failed its check.
    TriesFailed { counts: Counts },
    // The counter is not above the till's last.
    Stale,
}

impl Refusal {
    // The number by which those outside know the refusal: two ends of the masks have the same one.
    pub fn number(&self) -> u8
        ensures { result ≡ number_of self.now }
    {
        match self {
            Refusal::ShareCount => 1,
            Refusal::AreaSize => 2,
            Refusal::NotResidue { .. } => 3,
            Refusal::NotTernary { .. } => 4,
            Refusal::Tries => 5,
            Refusal::RecordSize => 6,
            Refusal::Kind => 7,
            Refusal::OutOfReach { .. } => 8,
            Refusal::UnusedCode { .. } => 9,
            Refusal::OtherChallenge => 10,
            Refusal::SourceRange => 11,
            Refusal::CounterEnd => 20,
            Refusal::NoncesEndedAt { .. } => 21,
            Refusal::MasksEnded { .. } | Refusal::MasksEndedAt { .. } => 22,
            Refusal::TriesFailed { .. } => 23,
            Refusal::Stale => 24,
        }
    }
}

impl fmt::Display for Area {
    ghost output = { λ a. Some (area_name a) };

    fn fmt<W: fmt::Write>(&self, f: &mut fmt::Formatter<W>) -> fmt::Result {
        match self {
            Area::Public => write!(f, "public"),
            Area::Key => write!(f, "key"),
        }
    }
}

impl fmt::Display for Counts {
    ghost output = { λ c. Some (counts_text c) };

    fn fmt<W: fmt::Write>(&self, f: &mut fmt::Formatter<W>) -> fmt::Result {
        write!(
            f,
            "attempts {} candidates {} nonces {} masks {}",
            self.attempts, self.candidates, self.nonces, self.masks
        )
    }
}

impl fmt::Display for Coefficient {
    ghost output = { λ at. Some (coefficient_told at) };

    fn fmt<W: fmt::Write>(&self, f: &mut fmt::Formatter<W>) -> fmt::Result {
        write!(
            f,
            "polynomial {} coefficient {}",
            self.polynomial, self.index
        )
    }
}

impl fmt::Display for Step {
    ghost output = { λ s. Some (step_text s) };

    fn fmt<W: fmt::Write>(&self, f: &mut fmt::Formatter<W>) -> fmt::Result {
        let number = self.number();
        match self {
            Step::Candidate(at) | Step::Conversion(at) => write!(f, "{number} {at}"),
            _ => write!(f, "{number}"),
        }
    }
}

impl fmt::Display for Fault {
    ghost output = { λ x. Some (fault_text x) };

    fn fmt<W: fmt::Write>(&self, f: &mut fmt::Formatter<W>) -> fmt::Result {
        write!(
            f,
            "mark {} attempt {} step {}",
            self.mark.number(),
            self.attempt,
            self.step
        )
    }
}

impl fmt::Display for Refusal {
    ghost output = { λ r. Some (told r) };

    fn fmt<W: fmt::Write>(&self, f: &mut fmt::Formatter<W>) -> fmt::Result {
        let number = self.number();
        match self {
            Refusal::NotResidue { area, index } => write!(f, "{number} area {area} index {index}"),
            Refusal::NotTernary { index }
            | Refusal::OutOfReach { index }
            | Refusal::UnusedCode { index } => write!(f, "{number} index {index}"),
            Refusal::MasksEnded { mark } => write!(f, "{number} mark {}", mark.number()),
            Refusal::NoncesEndedAt { fault, counts } | Refusal::MasksEndedAt { fault, counts } => {
                write!(f, "{number} {fault} {counts}")
            }
            Refusal::TriesFailed { counts } => write!(f, "{number} {counts}"),
            _ => write!(f, "{number}"),
        }
    }
}
