// Where a signing came to its end, and what it had done by then.
ghost use Rattle.refusal.specs.Numbers.{step_number};
ghost use Rattle.std.specs.Prelude.{◌≡◌};

use words::Mark;

/// What a signing took: attempts begun, candidates whose words were all drawn, nonce words and mask words.
#[derive(Clone, Copy, Debug, PartialEq, Eq)]
pub struct Counts {
    pub attempts: u32,
    pub candidates: u64,
    pub nonces: u64,
    pub masks: u64,
}

/// A coefficient of a nonce: of y1 or of y2, and its index there. The polynomial is the 1 or 2 that is told; nothing branches on it.
#[derive(Clone, Copy, Debug, PartialEq, Eq)]
pub struct Coefficient {
    pub polynomial: u8,
    pub index: usize,
}

/// A step of signing that draws words.
#[derive(Clone, Copy, Debug, PartialEq, Eq)]
pub enum Step {
    Candidate(Coefficient),
    Conversion(Coefficient),
    Commit,
    Check,
    Open,
}

impl Step {
    /// The number by which the step is told. Step 4, the challenge, draws nothing.
    pub fn number(self) -> u8
        ensures { result ≡ step_number self }
    {
        match self {
            Step::Candidate(_) => 1,
            Step::Conversion(_) => 2,
            Step::Commit => 3,
            Step::Check => 5,
            Step::Open => 6,
        }
    }
}

/// A source that ended: its mark, and the attempt and the step that it ended in.
#[derive(Clone, Copy, Debug, PartialEq, Eq)]
pub struct Fault {
    pub mark: Mark,
    pub attempt: u32,
    pub step: Step,
}
