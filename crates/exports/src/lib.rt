// What programs in other languages may link, for the set that cards in the field use. Nothing is asked of a caller: what cannot be taken is refused.
// Its answers are numbers and its areas bare slices, as C's are.
#![tactic(auto)]

ghost use Rattle.std.specs.Prelude.{◌≡◌, true, false, MatchOption, length};
ghost use Rattle.exports.specs.Exports.{is_polynomial, product_left, product_status, last_counter, check_status};
ghost use Rattle.params.specs.Params.{set_i};
ghost use Rattle.shake.specs.Sponge.{shake256};
ghost use Rattle.till.specs.Verdict.{verdict};

mod till_calls;

use params::{ParamSet, SetI};
use ring::{LongProduct, Multiply, Poly};
use search::first_at_least;
use till::Till;
pub use till_calls::{
    TillAnswer, TillState, cavrudez_till_check, cavrudez_till_last, cavrudez_till_open,
};

// Words as a polynomial, if they are the coefficients of one.
fn polynomial(words: &[u32]) -> Option<Poly<'_, SetI>>
    ensures { MatchOption result (is_polynomial words.now ≡ false) (λ lent. (is_polynomial words.now ≡ true) × (lent.words.now ≡ words.now)) }
{
    if words.len() != SetI::degree() || first_at_least(words, SetI::modulus()).is_some() {
        return None;
    }
    Some(Poly::new(words))
}

// The product of two polynomials. The answer is 0; or 1 where an area has another size or holds a word that is no residue, and `out` is then as it was.
#[unsafe(no_mangle)]
pub extern "C" fn cavrudez_product(out: &mut [u32], a: &[u32], b: &[u32]) -> u8
    ensures status { result ≡ product_status out.old a.now b.now }
    ensures after { out.new ≡ product_left out.old a.now b.now }
{
    let (Some(a), Some(b)) = (polynomial(a), polynomial(b)) else {
        return 1;
    };
    if out.len() != SetI::degree() {
        return 1;
    }
    LongProduct::multiply(out, a, b);
    0
}

// A counter, or none where the number is too large to be one.
fn last_counter(number: u32) -> Option<u16>
    ensures { result ≡ last_counter number }
{
    u16::try_from(number).ok()
}

// A till's check of one record: 0 where it is accepted, or the refusal's number. A last counter of 65536 or more means that there is none.
#[unsafe(no_mangle)]
pub extern "C" fn cavrudez_check(key: &[u32], bytes: &[u8], last: u32) -> u8
    ensures { result ≡ check_status (verdict set_i key.now (last_counter last) bytes.now) }
{
    let mut till = Till::<SetI>::new(key, last_counter(last));
    match till.check::<LongProduct>(bytes) {
        Ok(_) => 0,
        Err(refusal) => refusal.number(),
    }
}

// Fills `out` with the front of SHAKE256 of the message.
#[unsafe(no_mangle)]
pub extern "C" fn cavrudez_shake256(message: &[u8], out: &mut [u8])
    ensures { out.new ≡ shake256 message.now (length out.old) }
{
    shake::hash(message, out)
}
