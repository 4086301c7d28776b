// The record of a payment: its layout, a reader and a writer.
#![tactic(auto)]

ghost use Rattle.params.specs.Params.{reach};
ghost use Rattle.record.specs.Layout.{size, kind};
ghost use Rattle.std.specs.Prelude.{◌≡◌};

use params::ParamSet;

mod reader;
pub mod view;
mod writer;

pub use reader::read;
pub use view::{Record, codes};
pub use writer::write;

// How many bytes a record of the set has.
pub fn size<S: ParamSet>() -> usize
    ensures { result ≡ size S.params }
{
    let n = S::degree();
    40 + 4 * n + n / 4
}

// The two bytes that tell a record's set.
pub fn kind<S: ParamSet>() -> u16
    ensures { result ≡ kind S.params }
{
    0x4700 + S::set_number() as u16
}
