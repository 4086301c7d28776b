// A till that C holds as a plain struct. The key and the record are lent at each call.
ghost use Rattle.std.specs.Prelude.{◌≡◌, ◌≢◌};
ghost use Rattle.exports.specs.Exports.{answer_of, check_status, index_named, last_counter, last_number, verdict_at};
ghost use Rattle.params.specs.Params.{set_i};
ghost use Rattle.till.specs.Verdict.{Accepts, last_after};

use crate::last_counter;
use params::SetI;
use refusal::Refusal;
use ring::LongProduct;
use till::{Payment, Till};

/// A till, of which C keeps the last counter (`struct cavrudez_till`). A number of 65536 or more means that there is none.
#[repr(C)]
#[derive(Clone, Copy)]
pub struct TillState {
    pub last: u32,
}

/// What a verdict tells beside its number (`struct cavrudez_answer`): the index that a refusal names, or the counter and the digest
/// of an accepted record.
#[repr(C)]
#[derive(Clone, Copy)]
pub struct TillAnswer {
    pub index: usize,
    pub counter: u16,
    pub digest: [u8; 32],
}

/// Opens a till with the last counter that it took, or with none.
#[unsafe(no_mangle)]
pub extern "C" fn cavrudez_till_open(till: &mut TillState, last: u32)
    ensures { till.new.last ≡ last }
{
    till.last = last;
}

/// The till's last counter, or 65536 where it has none.
#[unsafe(no_mangle)]
pub extern "C" fn cavrudez_till_last(till: &TillState) -> u32
    ensures { result ≡ last_number (last_counter till.now.last) }
{
    last_counter(till.last).map_or(65536, u32::from)
}

// The index that a till's refusal names, or 0.
fn index_named(refusal: &Refusal) -> usize
    ensures { result ≡ index_named refusal.now }
{
    match refusal {
        Refusal::NotResidue { index, .. }
        | Refusal::OutOfReach { index }
        | Refusal::UnusedCode { index } => *index,
        _ => 0,
    }
}

/// Shows the till a record, under the card's public key: 0 where it is accepted, or the refusal's number. Only an accepted record
/// moves the last counter.
#[unsafe(no_mangle)]
pub extern "C" fn cavrudez_till_check(
    till: &mut TillState,
    answer: &mut TillAnswer,
    key: &[u32],
    bytes: &[u8],
) -> u8
    ensures status { result ≡ check_status (verdict_at till.old.last key.now bytes.now) }
    ensures answer { answer.new ≡ answer_of (verdict_at till.old.last key.now bytes.now) }
    ensures last { last_counter till.new.last ≡ last_after (last_counter till.old.last) (verdict_at till.old.last key.now bytes.now) }
    ensures refused { result ≢ 0 → till.new ≡ till.old }
    ensures accepts { result ≡ 0 → Accepts set_i key.now (last_counter till.old.last) bytes.now }
    ensures accepted { Accepts set_i key.now (last_counter till.old.last) bytes.now → result ≡ 0 }
{
    let mut open = Till::<SetI>::new(key, last_counter(till.last));
    match open.check::<LongProduct>(bytes) {
        Ok(payment) => {
            // Taken apart first: no field that is an array can go straight into a literal.
            let Payment { counter, digest } = payment;
            till.last = u32::from(counter);
            *answer = TillAnswer {
                index: 0,
                counter,
                digest,
            };
            0
        }
        Err(refusal) => {
            *answer = TillAnswer {
                index: index_named(&refusal),
                counter: 0,
                digest: [0; 32],
            };
            refusal.number()
        }
    }
}
