// The permutation's steps on lanes are those of FIPS 202 on bits.
#![tactic(auto)]

ghost use Rattle.keccak_bits.specs.Bits.{StepsFollow};

pub fn steps_follow()
    ensures { StepsFollow }
{}
