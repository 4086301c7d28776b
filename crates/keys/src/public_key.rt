// The public key of a secret: t = a·s1 + s2.
ghost use Rattle.std.specs.Prelude.{◌≡◌, ◌*◌, length, take};
ghost use Rattle.keys.specs.Load.{public_key, residues_of};
ghost use Rattle.ring.specs.Ring.{Residues};

use crate::secret::Secret;
use crate::sharing::secret_residue;
use params::ParamSet;
use polys::multiply_add;
use ring::{MOST, Multiply, Poly};

// The residues of the secret. By `enumerate`, since after a `zip` over `iter_mut` a proof knows nothing of what was written.
fn read_secret<S: ParamSet>(out: &mut [u32], secret: &[i8])
    requires { length out.old ≡ length secret.now }
    ensures value { out.new ≡ residues_of S.params secret.now }
    ensures residues { Residues S.params.p out.new }
{
    'coefficients: for (i, residue) in out.iter_mut().enumerate() {
        *residue = secret_residue::<S>(secret[i]);
    }
}

/// Writes t behind a.
pub fn publish<S: ParamSet, M: Multiply<S>>(secret: Secret<'_, S>, public: &mut [u32])
    requires public { length public.old ≡ 2 * S.params.n }
    requires a { Residues S.params.p (take S.params.n public.old) }
    ensures { public.new ≡ public_key S.params secret.entry.coefficients.now public.old }
{
    let n = S::degree();
    let mut secret_room = [0; 2 * MOST];
    let mut t_room = [0; MOST];
    let residues = &mut secret_room[0..2 * n];
    let t = &mut t_room[0..n];
    read_secret::<S>(residues, secret.coefficients);
    let (front, back) = residues.split_at(n);
    let s1 = Poly::<S>::new(front);
    let s2 = Poly::<S>::new(back);
    multiply_add::<S, M>(t, Poly::new(&public[0..n]), s1, s2);
    public[n..2 * n].copy_from_slice(t);
}
