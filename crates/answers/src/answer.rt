// What a line answers, and how it is told.
ghost use Rattle.std.specs.Prelude.{◌≡◌, Some};
ghost use Rattle.answers.specs.Texts.{answer_is_ok, answer_of, answer_text, told_text};

use crate::text::Hex;
use calls::Reply;
use card::{Report, Signed};
use life::Call;
use refusal::Refusal;
use script::Stream;
use std::fmt;
use till::Payment;

#[derive(Clone, Copy)]
pub enum Answer {
    Checked(Result<Payment, Refusal>),
    NoTill,
    // How many words the masks took.
    Loaded(Result<u64, Refusal>),
    Signed(Result<Signed, Refusal>),
    Remasked(Result<u64, Refusal>),
    Reported(Report),
    // A call that wants a card.
    NoCard(Call),
    Filled(Stream, Result<(), Refusal>),
}

// An answer, and the last record made, which is told behind the answer that made it.
#[derive(Drop)]
pub struct Told<'a> {
    pub answer: Answer,
    pub made: &'a [u8],
}

impl Answer {
    // Whether the line did what it was asked.
    pub fn is_ok(&self) -> bool
        ensures { result ≡ answer_is_ok self.now }
    {
        match self {
            Answer::Checked(result) => result.is_ok(),
            Answer::NoTill => false,
            Answer::Loaded(result) => result.is_ok(),
            Answer::Signed(result) => result.is_ok(),
            Answer::Remasked(result) => result.is_ok(),
            Answer::Reported(_) => true,
            Answer::NoCard(_) => false,
            Answer::Filled(_, result) => result.is_ok(),
        }
    }
}

// What a card's reply is told as.
impl From<Reply> for Answer {
    ghost from_gives = { λ reply r. r ≡ answer_of reply };

    fn from(reply: Reply) -> Answer {
        match reply {
            Reply::Signed(result) => Answer::Signed(result),
            Reply::Remasked(result) => Answer::Remasked(result),
            Reply::Reported(report) => Answer::Reported(report),
        }
    }
}

impl fmt::Display for Answer {
    ghost output = { λ a. Some (answer_text a) };

    fn fmt<W: fmt::Write>(&self, f: &mut fmt::Formatter<W>) -> fmt::Result {
        match self {
            Answer::Checked(Ok(payment)) => {
                let digest = Hex {
                    bytes: &payment.digest,
                };
                write!(f, "check ok counter {} digest {digest}", payment.counter)
            }
            Answer::Checked(Err(refusal)) => write!(f, "check refused {refusal}"),
            Answer::NoTill => write!(f, "check no till"),
            Answer::Loaded(Ok(masks)) => write!(f, "load ok masks {masks}"),
            Answer::Loaded(Err(refusal)) => write!(f, "load refused {refusal}"),
            Answer::Signed(Ok(signed)) => {
                write!(f, "sign ok counter {} {}", signed.counter, signed.counts)
            }
            Answer::Signed(Err(refusal)) => write!(f, "sign refused {refusal}"),
            Answer::Remasked(Ok(masks)) => write!(f, "remask ok masks {masks}"),
            Answer::Remasked(Err(refusal)) => write!(f, "remask refused {refusal}"),
            Answer::Reported(report) => write!(
                f,
                "report counter {} shares {}",
                report.counter, report.shares
            ),
            Answer::NoCard(Call::Sign { .. }) => write!(f, "sign no card"),
            Answer::NoCard(Call::Remask) => write!(f, "remask no card"),
            Answer::NoCard(Call::Report) => write!(f, "report no card"),
            Answer::Filled(stream, Ok(())) => write!(f, "{stream} ok"),
            Answer::Filled(stream, Err(refusal)) => write!(f, "{stream} refused {refusal}"),
        }
    }
}

impl fmt::Display for Told<'_> {
    ghost output = { λ t. Some (told_text t.answer t.made.now) };

    fn fmt<W: fmt::Write>(&self, f: &mut fmt::Formatter<W>) -> fmt::Result {
        match self.answer {
            Answer::Signed(Ok(_)) => {
                write!(f, "{} record {}", self.answer, Hex { bytes: self.made })
            }
            _ => write!(f, "{}", self.answer),
        }
    }
}
