// What a card answers. A program's own answers have more kinds, and one enum inside the other would be taken apart twice.
use card::{Report, Signed};
use refusal::Refusal;

#[derive(Clone, Copy)]
pub enum Reply {
    Signed(Result<Signed, Refusal>),
    // How many words the new shares took.
    Remasked(Result<u64, Refusal>),
    Reported(Report),
}
