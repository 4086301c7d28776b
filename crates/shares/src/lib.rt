// Values in shares of a commutative group, and all that may bring two shares of one value together: refresh, sec_and and open.
// Crates above work share by share, or call these.
#![tactic(auto)]

ghost use Rattle.std.specs.Prelude.{◌≡◌, ℕ, ◌-◌, ◌*◌, ◌<◌, ◌∷◌};
ghost use Rattle.words.specs.Spending.{Spends};
ghost use Rattle.shares.specs.Rule.{Rule, Laws, Within, Masks, masks, recombine};
ghost use Rattle.shares.specs.Refresh.{pairs, rows, refreshed, Pair, Refreshed};

pub mod conjunction;
pub mod count;
pub mod groups;
pub mod opening;

pub use conjunction::sec_and;
pub use count::ShareCount;
pub use groups::{Residues, Words};
pub use opening::{open, recombine};
use words::{Mark, Source};

/// One value in `M` shares, each below the group's order.
// Only functions that read or write a first share ask for `0 < M`; xor, sec_and and others hold for no share too, so a type that carried it would ask more. So it is
// with `M ≤ 8`, which those ask for that reckon a place in an area; and words have no bound at all, so that only groups ask for shares within theirs.
pub type Shares<const M: usize> = [u32; M];

/// A call at a share count that is known when the program runs, as `at_share_count!(shares, sign::<_, S>(key))`.
#[macro_export]
macro_rules! at_share_count {
    ($shares:expr, $call:ident::<_ $(, $kind:ty)*>($($argument:expr),* $(,)?)) => {
        match $shares.count {
            1 => $call::<1 $(, $kind)*>($($argument),*),
            2 => $call::<2 $(, $kind)*>($($argument),*),
            3 => $call::<3 $(, $kind)*>($($argument),*),
            4 => $call::<4 $(, $kind)*>($($argument),*),
            5 => $call::<5 $(, $kind)*>($($argument),*),
            6 => $call::<6 $(, $kind)*>($($argument),*),
            7 => $call::<7 $(, $kind)*>($($argument),*),
            8 => $call::<8 $(, $kind)*>($($argument),*),
            _ => unreachable(),
        }
    };
}

/// A commutative group on the words below its order. It is a type with no values, so that a modulus is a constant in compiled code.
pub trait Group {
    ghost rule: { Rule };

    ghost laws: { Laws rule };

    fn unit() -> u32
        ensures { result ≡ rule.unit };

    fn join(a: u32, b: u32) -> u32
        requires { (a < rule.order) × (b < rule.order) }
        ensures { result ≡ rule.op a b };

    fn inverse(a: u32) -> u32
        requires { a < rule.order }
        ensures { result ≡ rule.inverse a };

    // An element made of the next words of a source.
    fn mask<S: Source>(src: &mut S) -> Result<u32, Mark>
        ensures { Spends rule.cost result (S.flow src.old) (S.flow src.new) (Masks rule (S.flow src.old).words) };
}

/// The unit, and then masks in the places behind it.
pub fn draw_masks<const M: usize, G: Group, S: Source>(src: &mut S) -> Result<Shares<M>, Mark>
    requires some { 0 < M }
    ensures { Spends (G.rule.cost * (M - 1)) result (S.flow src.old) (S.flow src.new) (λ xs. (xs ≡ G.rule.unit ∷ masks G.rule (M - 1) (S.flow src.old).words) × Within G.rule xs) }
{
    let mut shares = [G::unit(); M];
    // The first keeps the unit. Not by `skip(1)`, after which nothing is known of what was written.
    for (i, share) in shares.iter_mut().enumerate() {
        if 0 < i {
            *share = G::mask(src)?;
        }
    }
    Ok(shares)
}

// Joins one mask to share i, and its inverse to share j.
fn refresh_pair<const M: usize, G: Group, S: Source>(
    shares: &mut [u32; M],
    i: usize,
    j: usize,
    src: &mut S,
) -> Result<(), Mark>
    requires rising { i < j }
    requires inside { j < M }
    requires within { Within G.rule shares.old }
    ensures { Pair G.rule i j result shares.old shares.new (S.flow src.old) (S.flow src.new) }
{
    let mask = G::mask(src)?;
    let a = G::join(shares[i], mask);
    let inverse = G::inverse(mask);
    let b = G::join(shares[j], inverse);
    shares[i] = a;
    shares[j] = b;
    Ok(())
}

/// New shares of the same value: a mask to each pair of shares, until the source ends.
pub fn refresh<const M: usize, G: Group, S: Source>(
    shares: &mut [u32; M],
    src: &mut S,
) -> Result<(), Mark>
    requires within { Within G.rule shares.old }
    ensures { Refreshed G.rule M result shares.old shares.new (S.flow src.old) (S.flow src.new) }
{
    // Both shares of a pair are of one array, so the pairs go by index.
    for i in 0..M {
        for j in i + 1..M {
            refresh_pair::<M, G, S>(shares, i, j, src)?;
        }
    }
    Ok(())
}

/// Refresh of shares that are passed by value; none come back where the source ends.
pub fn fresh<const M: usize, G: Group, S: Source>(
    shares: Shares<M>,
    src: &mut S,
) -> Result<Shares<M>, Mark>
    requires within { Within G.rule shares }
    ensures { Spends (G.rule.cost * pairs M) result (S.flow src.old) (S.flow src.new) (λ z. (z ≡ refreshed G.rule (rows 0 M) (S.flow src.old).words shares.entry) × Within G.rule z × (recombine G.rule z ≡ recombine G.rule shares.entry)) }
{
    let mut out = shares;
    refresh::<M, G, S>(&mut out, src)?;
    Ok(out)
}
