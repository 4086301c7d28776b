// Share by share: operations that need no other share. They keep exclusive ors, so that they act on the word as on each share.
// The clauses `shares` say the first, and the clauses `word` what it comes to.
#![tactic(auto)]

ghost use Rattle.std.specs.Prelude.{◌≡◌, ℕ, ◌-◌, ◌/◌, ◌%◌, ◌^◌, ◌<◌, bit_xor, slice_index, slice_set};
ghost use Rattle.shares.specs.Groups.{word_of};
ghost use Rattle.linear.specs.Words.{ByShare, ByShares, constant, flipped, shifted, spread_top};

use shares::Shares;

/// What `f` makes of each share alone.
// No `map` of the array: that wants to know that M words fit in memory.
pub fn each<const M: usize, F: Fn(u32) -> u32>(x: Shares<M>, f: F) -> Shares<M>
    requires { (k : ℕ) → k < M → F.pre f (slice_index x k) }
    ensures { (k : ℕ) → k < M → F.post f (slice_index x.entry k) (slice_index result k) }
{
    let mut out = x;
    for share in &mut out {
        *share = f(*share);
    }
    out
}

/// Shares of `x ^ y`.
pub fn xor<const M: usize>(x: Shares<M>, y: Shares<M>) -> Shares<M>
    ensures word { word_of result ≡ bit_xor (word_of x.entry) (word_of y.entry) }
    ensures shares { ByShares bit_xor x.entry y.entry result }
{
    let mut out = x;
    // As in `sec_and`, which is of a crate below. By index into the other array, since after a zip over `iter_mut` nothing is known of what was written.
    for (i, share) in out.iter_mut().enumerate() {
        *share ^= y[i];
    }
    out
}

/// Shares of `x << places`.
pub fn shift_left<const M: usize>(x: Shares<M>, places: u32) -> Shares<M>
    requires small { places < 32 }
    ensures word { word_of result ≡ shifted places (word_of x.entry) }
    ensures shares { ByShare (shifted places) x.entry result }
{
    each(x, |share| share << places)
}

/// Shares of the top bit of `x`.
pub fn top_bit<const M: usize>(x: Shares<M>) -> Shares<M>
    ensures word { word_of result ≡ word_of x.entry / 2 ^ 31 }
    ensures shares { ByShare (λ share. share / 2 ^ 31) x.entry result }
{
    each(x, |share| share >> 31)
}

/// Shares of a word that has the top bit of `x` in every place.
pub fn spread_top_bit<const M: usize>(x: Shares<M>) -> Shares<M>
    ensures word { word_of result ≡ spread_top (word_of x.entry) }
    ensures shares { ByShare spread_top x.entry result }
{
    each(x, |share| 0u32.wrapping_sub(share >> 31))
}

/// Shares of the low `bits` bits of `x`.
pub fn low_bits<const M: usize>(x: Shares<M>, bits: u32) -> Shares<M>
    requires small { bits < 32 }
    ensures word { word_of result ≡ word_of x.entry % 2 ^ bits }
    ensures shares { ByShare (λ share. share % 2 ^ bits) x.entry result }
{
    let mask = (1u32 << bits) - 1;
    each(x, |share| share & mask)
}

/// Shares of `!x`: one share changes.
pub fn not<const M: usize>(x: Shares<M>) -> Shares<M>
    requires some { 0 < M }
    ensures word { word_of result ≡ flipped (word_of x.entry) }
    ensures shares { result ≡ slice_set x.entry 0 (flipped (slice_index x.entry 0)) }
{
    let mut out = x;
    out[0] = !x[0];
    out
}

/// Shares of what is no secret: the word itself, and zeros.
pub fn public<const M: usize>(x: u32) -> Shares<M>
    requires some { 0 < M }
    ensures { result ≡ constant M x }
{
    let mut out = [0; M];
    out[0] = x;
    out
}

/// The word that takes `k` away when it is added.
pub fn negated(k: u32) -> u32
    requires some { 0 < k }
    ensures { result ≡ 2 ^ 32 - k }
{
    0u32.wrapping_sub(k)
}
