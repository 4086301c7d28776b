// Which gadgets there are, by number.
ghost use Rattle.std.specs.Prelude.{◌≡◌, ◌≤◌, MatchOption};
ghost use Rattle.gauge.specs.Gauge.{number_of};

/// What is done to a column.
#[derive(Clone, Copy)]
pub enum Gadget {
    RefreshWords,
    RefreshResidues,
    SecAnd,
    SecAdd,
    SecAddModp,
    ToWords,
    ToResidues,
    Open,
    Candidate,
    CheckCoefficient,
}

impl Gadget {
    /// The gadget of this number, counted from 0.
    pub fn from_number(number: u8) -> Option<Gadget>
        ensures { MatchOption result (10 ≤ number) (λ gadget. number_of gadget ≡ number) }
    {
        match number {
            0 => Some(Gadget::RefreshWords),
            1 => Some(Gadget::RefreshResidues),
            2 => Some(Gadget::SecAnd),
            3 => Some(Gadget::SecAdd),
            4 => Some(Gadget::SecAddModp),
            5 => Some(Gadget::ToWords),
            6 => Some(Gadget::ToResidues),
            7 => Some(Gadget::Open),
            8 => Some(Gadget::Candidate),
            9 => Some(Gadget::CheckCoefficient),
            _ => None,
        }
    }
}
