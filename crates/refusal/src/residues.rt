// The test of an area's words.
ghost use Rattle.refusal.specs.Residues.{TestsResidues};

use crate::{Area, Refusal};
use search::first_at_least;

// Each word of an area is a residue: below the modulus.
pub fn check_residues(area: Area, words: &[u32], modulus: u32) -> Result<(), Refusal>
    ensures { TestsResidues area modulus words.now result }
{
    first_at_least(words, modulus).map_or(Ok(()), |index| Err(Refusal::NotResidue { area, index }))
}
