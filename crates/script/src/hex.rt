// Hexadecimal digits, two to a byte.
ghost use Rattle.std.specs.Prelude.{◌≡◌, ℕ, false, List, length, is_some, IfSome};
ghost use Rattle.script.specs.Answers.{NoneIs, Reads};
ghost use Rattle.script.specs.Words.{Pair, Spells};

use crate::unread::Unread;
use std::alloc::Global;

// The byte that two digits spell, in either case.
fn pair(high: u8, low: u8) -> Option<u8>
    ensures value { IfSome result (λ byte. Pair high low byte) }
    ensures none { is_some result ≡ false → (byte : ℕ) → Pair high low byte → ⊥ }
{
    let high = char::from(high).to_digit(16)?;
    let low = char::from(low).to_digit(16)?;
    Some((16 * high + low) as u8)
}

// The bytes that a word spells.
pub fn hex_bytes(heap: Global, word: &[u8]) -> Result<Vec<u8>, Unread>
    ensures { Reads (λ v. Spells word.now v.items) (NoneIs (Spells word.now)) result }
{
    let (pairs, odd) = word.as_chunks::<2>();
    if pairs.is_empty() || !odd.is_empty() {
        return Err(Unread::NotUnderstood);
    }
    let mut bytes = Vec::new(heap);
    'pairs: for digits in pairs {
        bytes.push(pair(digits[0], digits[1]).ok_or(Unread::NotUnderstood)?)?;
    }
    Ok(bytes)
}

// The 32 bytes that a word of 64 digits spells.
pub fn hex_32(heap: Global, word: &[u8]) -> Result<[u8; 32], Unread>
    ensures { Reads (λ v. Spells word.now v × (length v ≡ 32)) ((bytes : List ℕ) → length bytes ≡ 32 → Spells word.now bytes → ⊥) result }
{
    let bytes = hex_bytes(heap, word)?;
    Ok(<[u8; 32]>::try_from(bytes.as_slice())?)
}
