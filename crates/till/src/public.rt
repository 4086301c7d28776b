// The tests of a public key.
ghost use Rattle.std.specs.Result.{MatchResult};
ghost use Rattle.till.specs.Verdict.{TestsKey};

use params::ParamSet;
use refusal::{Area, Refusal, check_residues};

// A public key has its size, and each word is a residue. A key area is tested likewise (`keys::check_key`): one function of both would be
// given size, area and modulus to save an `if`.
pub(crate) fn check_key<S: ParamSet>(key: &[u32]) -> Result<(), Refusal>
    ensures { TestsKey S.params key.now result }
{
    if key.len() != 2 * S::degree() {
        return Err(Refusal::AreaSize);
    }
    check_residues(Area::Public, key, S::modulus())
}
