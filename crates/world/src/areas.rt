// Words of areas.
ghost use Rattle.std.specs.Prelude.{◌≡◌, ◌+◌, ◌++◌, length, take, drop, IfOk, nat_lt, slice_set};
ghost use Rattle.world.specs.Areas.{lent};

use std::alloc::{AllocError, Global};

// The size of an area that is lent where so much was asked for: one that is too large is refused whatever its size, so it is
// lent one larger than it should be.
pub(crate) fn lent_size(asked: usize, right: usize) -> usize
    ensures { result ≡ lent asked right }
{
    if asked > right { right + 1 } else { asked }
}

// Writes a word of an area, or says that it has no such word. By its index: of what is written through a slice's `get_mut` a
// proof knows nothing.
pub(crate) fn poke(words: &mut [u32], index: usize, value: u32) -> bool
    ensures within { result ≡ nat_lt index (length words.old) }
    ensures after { words.new ≡ slice_set words.old index value }
{
    if index < words.len() {
        words[index] = value;
        return true;
    }
    false
}

// The words of a, and then those of t, in one piece.
pub(crate) fn joined(heap: Global, a: &[u32], t: &[u32]) -> Result<Vec<u32>, AllocError>
    ensures { IfOk result (λ v. v.items ≡ a.now ++ t.now) }
{
    let mut words = Vec::from_slice(heap, a)?;
    words.extend_from_slice(t)?;
    Ok(words)
}

// The same taken apart again.
pub(crate) fn part(words: &[u32], a: &mut [u32], t: &mut [u32])
    requires { length words.now ≡ length a.old + length t.old }
    ensures a { a.new ≡ take (length a.old) words.now }
    ensures t { t.new ≡ drop (length a.old) words.now }
{
    let count = a.len();
    a.copy_from_slice(&words[0..count]);
    t.copy_from_slice(&words[count..]);
}
