// Why a signing gave no record.
ghost use Rattle.std.specs.Prelude.{◌≡◌};
ghost use Rattle.signing.specs.declared.failure.Failure.TheVariants.{Halted};

use attempt::Stopped;

#[derive(Clone, Copy)]
pub enum Failure {
    // A source ended.
    Halted(Stopped),
    // Every try failed its check.
    TriesFailed,
}

impl From<Stopped> for Failure {
    ghost from_gives = { λ stopped failure. failure ≡ Halted stopped };

    fn from(stopped: Stopped) -> Failure {
        Failure::Halted(stopped)
    }
}
