// Parameter sets. Code above is generic over ParamSet and names no set.
#![tactic(auto)]

ghost use Rattle.std.specs.Prelude.{◌≡◌, ℕ, refl};
ghost use Rattle.params.specs.Params.{Params, Sound, reach, set_s, set_i};
ghost use Rattle.params.specs.Sets.{sound_s, sound_i};

// Each constant has a function whose contract tells its value, and code above calls that: a proof would have to cite a law at each constant.
// `sound` hands every generic proof the conditions on a set.
pub trait ParamSet {
    const N: usize;

    const P: u32;

    const K: u32;

    const ALPHA: u32;

    const NUMBER: u8;

    ghost N: { ℕ };

    ghost P: { ℕ };

    ghost K: { ℕ };

    ghost ALPHA: { ℕ };

    ghost NUMBER: { ℕ };

    ghost params: { Params };

    ghost sound: { Sound params };

    // The constants are the set's numbers.
    ghost numbers: { params ≡ record { n = N; p = P; k = K; alpha = ALPHA; number = NUMBER } };

    fn degree() -> usize
        ensures { result ≡ params.n }
    {
        Self::N
    }

    fn modulus() -> u32
        ensures { result ≡ params.p }
    {
        Self::P
    }

    fn nonce_bound() -> u32
        ensures { result ≡ params.k }
    {
        Self::K
    }

    fn weight() -> u32
        ensures { result ≡ params.alpha }
    {
        Self::ALPHA
    }

    fn set_number() -> u8
        ensures { result ≡ params.number }
    {
        Self::NUMBER
    }

    // How far from 0 a coefficient of a signature may lie.
    fn reach() -> u32
        ensures { result ≡ reach params }
    {
        Self::nonce_bound() - Self::weight()
    }
}

// The small set, for tests and worked examples.
pub struct SetS;

impl ParamSet for SetS {
    const N: usize = 4;

    const P: u32 = 97;

    const K: u32 = 10;

    const ALPHA: u32 = 2;

    const NUMBER: u8 = 0;

    ghost N = { set_s.n };

    ghost P = { set_s.p };

    ghost K = { set_s.k };

    ghost ALPHA = { set_s.alpha };

    ghost NUMBER = { set_s.number };

    ghost params = { set_s };

    ghost sound = { sound_s };

    ghost numbers = { refl };
}

// The set that cards in the field use.
pub struct SetI;

impl ParamSet for SetI {
    const N: usize = 512;

    const P: u32 = 8_383_489;

    const K: u32 = 16_384;

    const ALPHA: u32 = 32;

    const NUMBER: u8 = 1;

    ghost N = { set_i.n };

    ghost P = { set_i.p };

    ghost K = { set_i.k };

    ghost ALPHA = { set_i.alpha };

    ghost NUMBER = { set_i.number };

    ghost params = { set_i };

    ghost sound = { sound_i };

    ghost numbers = { refl };
}
