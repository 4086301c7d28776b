// Why a line gave no command.
ghost use Rattle.script.specs.declared.unread.Unread.TheVariants.{Memory, NotUnderstood};
ghost use Rattle.std.specs.Prelude.{◌≡◌};

use std::alloc::{AllocError, AllocFailed};
use std::array::TryFromSliceError;
use std::num::ParseIntError;
use std::str::Utf8Error;

#[derive(Clone, Copy)]
pub enum Unread {
    NotUnderstood,
    Memory,
}

impl From<AllocError> for Unread {
    ghost from_gives = { λ _ r. r ≡ Memory };

    fn from(_e: AllocError) -> Unread {
        Unread::Memory
    }
}

impl<T: Drop> From<AllocFailed<T>> for Unread {
    ghost from_gives = { λ _ r. r ≡ Memory };

    fn from(_e: AllocFailed<T>) -> Unread {
        Unread::Memory
    }
}

// Three impls that differ in a type: no macro may write an impl with a ghost member.
impl From<ParseIntError> for Unread {
    ghost from_gives = { λ _ r. r ≡ NotUnderstood };

    fn from(_e: ParseIntError) -> Unread {
        Unread::NotUnderstood
    }
}

impl From<TryFromSliceError> for Unread {
    ghost from_gives = { λ _ r. r ≡ NotUnderstood };

    fn from(_e: TryFromSliceError) -> Unread {
        Unread::NotUnderstood
    }
}

impl From<Utf8Error> for Unread {
    ghost from_gives = { λ _ r. r ≡ NotUnderstood };

    fn from(_e: Utf8Error) -> Unread {
        Unread::NotUnderstood
    }
}
