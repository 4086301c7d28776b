// Where an attempt comes to its end.
use refusal::Step;
use steps::Ended;
use words::Mark;

/// Which source ended, with its mark, and in which step.
#[derive(Clone, Copy)]
pub struct Halt {
    pub ended: Ended<Mark>,
    pub step: Step,
}
