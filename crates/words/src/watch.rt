// The state of a health check: how long the words drawn last have been equal.
ghost use Rattle.std.specs.Prelude.{◌≡◌, ◌<◌, ◌≤◌, false};
ghost use Rattle.words.specs.Refusals.{Refuses, Unfit};

use crate::OutOfRange;

/// How many equal words in a row a health check does not let through: 2 to 64.
#[derive(Clone, Copy)]
pub struct Cutoff {
    value: u32,
    ghost low: { 2 ≤ value },
    ghost high: { value ≤ 64 },
}

impl Cutoff {
    pub fn new(value: u32) -> Result<Cutoff, OutOfRange>
        ensures { Refuses (Unfit value) result (λ c. c.value ≡ value) }
    {
        if !(2..=64).contains(&value) {
            return Err(OutOfRange);
        }
        Ok(Cutoff { value })
    }
}

// A plain record with a flag in it, and `run` below `cutoff`: a rule of the project asks for this form.
#[derive(Clone, Copy)]
pub struct Watch {
    pub cutoff: u32,
    pub last: u32,
    pub run: u32,
    pub failed: bool,
    ghost below: { run < cutoff },
    ghost low: { 2 ≤ cutoff },
    ghost high: { cutoff ≤ 64 },
}

impl Watch {
    // No word is seen yet: the run is 0, so that the first word makes a run of 1, whatever `last` is.
    pub fn start(cutoff: Cutoff) -> Watch
        ensures cutoff { result.cutoff ≡ cutoff.value }
        ensures fresh { (result.last ≡ 0) × (result.run ≡ 0) × (result.failed ≡ false) }
    {
        Watch {
            cutoff: cutoff.value,
            last: 0,
            run: 0,
            failed: false,
        }
    }
}
