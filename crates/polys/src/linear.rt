// Products and sums of polynomials in shares, row by row: no two shares of one value meet. The clauses `rows` say so, and the clauses
// `value` what it comes to.
ghost use Rattle.std.specs.Prelude.{◌≡◌, ℕ, ◌+◌, ◌*◌, ◌<◌, ◌++◌, length, take, drop};
ghost use Rattle.polys.specs.Area.{recombined, row, values};
ghost use Rattle.ring.specs.Ring.{Residues, plus, product};

use crate::shared::Shared;
use params::ParamSet;
use ring::{Multiply, Poly, add_assign};

/// a·b + c.
pub fn multiply_add<S: ParamSet, P: Multiply<S>>(
    out: &mut [u32],
    a: Poly<'_, S>,
    b: Poly<'_, S>,
    c: Poly<'_, S>,
)
    requires room { length out.old ≡ S.params.n }
    ensures value { out.new ≡ plus S.params.p (product S.params.p a.entry.words.now b.entry.words.now) c.entry.words.now }
    ensures residues { Residues S.params.p out.new }
{
    P::multiply(out, a, b);
    add_assign(out, c);
}

impl<'a, const K: usize, const M: usize, S: ParamSet> Shared<'a, K, M, S> {
    // Row j of the area.
    fn row(self, j: usize) -> Poly<'a, S>
        requires { j < K * M }
        ensures { result.words.now ≡ row S.params.n j self.entry.area.now }
    {
        let n = S::degree();
        Poly::new(&self.area[j * n..j * n + n])
    }
}

/// Shares of a·y1 + y2, for the shares of y1 and y2 in the area y.
pub fn commit_rows<const M: usize, S: ParamSet, P: Multiply<S>>(
    r: &mut [u32],
    a: Poly<'_, S>,
    y: Shared<'_, 2, M, S>,
)
    requires r { length r.old ≡ M * S.params.n }
    ensures value { values S.params M S.params.n r.new ≡ plus S.params.p (product S.params.p a.entry.words.now (take S.params.n (recombined S.params M y.entry.area.now))) (drop S.params.n (recombined S.params M y.entry.area.now)) }
    ensures rows { (k : ℕ) → k < M → row S.params.n k r.new ≡ plus S.params.p (product S.params.p a.entry.words.now (row S.params.n k y.entry.area.now)) (row S.params.n (M + k) y.entry.area.now) }
    ensures residues { Residues S.params.p r.new }
{
    let n = S::degree();
    // By index: of the rows that `chunks_exact_mut` lends, nothing is known once they are given back.
    'shares: for i in 0..M {
        multiply_add::<S, P>(&mut r[i * n..i * n + n], a, y.row(i), y.row(M + i));
    }
}

/// Shares of s1·c + y1 and s2·c + y2, for the shares of s1 and s2 in the key area, and of y1 and y2 in the area y.
pub fn respond_rows<const M: usize, S: ParamSet, P: Multiply<S>>(
    z: &mut [u32],
    key: Shared<'_, 2, M, S>,
    y: Shared<'_, 2, M, S>,
    c: Poly<'_, S>,
)
    requires z { length z.old ≡ 2 * M * S.params.n }
    ensures value { recombined S.params M z.new ≡ plus S.params.p (product S.params.p (take S.params.n (recombined S.params M key.entry.area.now)) c.entry.words.now) (take S.params.n (recombined S.params M y.entry.area.now)) ++ plus S.params.p (product S.params.p (drop S.params.n (recombined S.params M key.entry.area.now)) c.entry.words.now) (drop S.params.n (recombined S.params M y.entry.area.now)) }
    ensures rows { (k : ℕ) → k < 2 * M → row S.params.n k z.new ≡ plus S.params.p (product S.params.p (row S.params.n k key.entry.area.now) c.entry.words.now) (row S.params.n k y.entry.area.now) }
    ensures residues { Residues S.params.p z.new }
{
    let n = S::degree();
    // By index, as in `commit_rows`.
    'rows: for j in 0..2 * M {
        multiply_add::<S, P>(&mut z[j * n..j * n + n], key.row(j), c, y.row(j));
    }
}
