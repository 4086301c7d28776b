// The shares of one coefficient, in an area and as an array.
ghost use Rattle.std.specs.Prelude.{◌≡◌, ℕ, ◌+◌, ◌*◌, ◌/◌, ◌^◌, ◌<◌, ◌≤◌, ◌≢◌, length};
ghost use Rattle.polys.specs.Area.{place, shares_of};
ghost use Rattle.ring.specs.Ring.{Residues};
ghost use Rattle.shares.specs.Groups.{residue_rule};
ghost use Rattle.shares.specs.Rule.{Within};

use params::ParamSet;
use shares::Shares;

/// How many coefficients two polynomials have.
pub fn coefficients<S: ParamSet>() -> usize
    ensures { result ≡ 2 * S.params.n }
{
    2 * S::degree()
}

// Where share i of coefficient c stands.
fn place(n: usize, m: usize, c: usize, i: usize) -> usize
    requires some { 0 < n }
    requires inside { i < m }
    requires room { (c / n + 1) * m * n < 2 ^ 64 }
    ensures is { result ≡ place n m c i }
    ensures inside { result < (c / n + 1) * m * n }
{
    (c / n * m + i) * n + c % n
}

/// The shares of coefficient c.
// This and `scatter` take n, which need be no set's degree.
pub fn gather<const M: usize>(area: &[u32], n: usize, c: usize) -> Shares<M>
    requires small { (0 < n) × ((n ≤ 1024) × (M ≤ 8)) }
    requires inside { (c / n + 1) * M * n ≤ length area.now }
    ensures { result ≡ shares_of n M area.now c }
{
    let mut shares = [0; M];
    for (i, share) in shares.iter_mut().enumerate() {
        *share = area[place(n, M, c, i)];
    }
    shares
}

/// The shares of coefficient c. Of an area of residues, they are residues.
// Beside the method of `Shared`, since it holds for an area of any length with room for c.
pub fn coefficient<const M: usize, S: ParamSet>(area: &[u32], c: usize) -> Shares<M>
    requires most { M ≤ 8 }
    requires inside { (c / S.params.n + 1) * M * S.params.n ≤ length area.now }
    ensures shares { result ≡ shares_of S.params.n M area.now c }
    ensures within { Residues S.params.p area.now → Within (residue_rule S.params.p) result }
{
    gather::<M>(area, S::degree(), c)
}

/// Writes the shares of coefficient c.
pub fn scatter<const M: usize>(shares: Shares<M>, area: &mut [u32], n: usize, c: usize)
    requires small { (0 < n) × ((n ≤ 1024) × (M ≤ 8)) }
    requires inside { (c / n + 1) * M * n ≤ length area.old }
    ensures written { shares_of n M area.new c ≡ shares.entry }
    ensures others { (k : ℕ) → k ≢ c → shares_of n M area.new k ≡ shares_of n M area.old k }
{
    for (i, share) in shares.iter().enumerate() {
        area[place(n, M, c, i)] = *share;
    }
}
