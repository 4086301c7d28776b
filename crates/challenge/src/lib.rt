// The hash that gives a signature's challenge.
#![tactic(auto)]

ghost use Rattle.std.specs.Prelude.{◌≡◌, ℕ, ◌+◌, ◌-◌, ◌*◌, ◌<◌, ◌≤◌, List, ◌++◌, length, replicate, ◌==◌};
ghost use Rattle.challenge.specs.Challenge.{challenge, filled, message, place, stream, unit};
ghost use Rattle.record.specs.Layout.{le4};
ghost use Rattle.record.specs.Writing.{Ternary};
ghost use Rattle.ring.specs.Laws.{Proper};
ghost use Rattle.shake.specs.Progress.{Absorbing, Reading};
ghost use Rattle.std.specs.List.{flat_map, AllByRecursion};

use params::ParamSet;
use shake::{Shake256, Squeezer};

#[derive(Clone, Copy)]
pub enum Sign {
    Plus,
    Minus,
}

// The position and the sign that a word of the hash tells.
fn place<S: ParamSet>(word: u16) -> (usize, Sign)
    ensures { result ≡ place S.params.n word }
{
    let sign = if word >= 0x8000 {
        Sign::Minus
    } else {
        Sign::Plus
    };
    (word as usize % S::degree(), sign)
}

fn unit<S: ParamSet>(sign: Sign) -> u32
    ensures { result ≡ unit S.params.p sign }
{
    match sign {
        Sign::Plus => 1,
        Sign::Minus => S::modulus() - 1,
    }
}

// Each residue in four bytes.
fn absorb_residues(hasher: &mut Shake256, r: &[u32])
    ensures { (m : List ℕ) → Absorbing m hasher.old → Absorbing (m ++ flat_map le4 r.now) hasher.new }
{
    'residues: for x in r {
        hasher.absorb(&x.to_le_bytes());
    }
}

// Whether no word has set a coefficient yet. It has a name of its own by which the loop's proof cites the test.
fn is_free(coefficient: u32) -> bool
    ensures { result ≡ (coefficient == 0) }
{
    coefficient == 0
}

// Takes words of the hash until all positions are found, at most 512.
fn fill_from<S: ParamSet>(c: &mut [u32], words: &mut Squeezer)
    requires { length c.old ≡ S.params.n }
    ensures { (m : List ℕ) → Reading m 0 words.old → c.new ≡ filled S.params S.params.alpha (stream m) c.old }
{
    let mut wanted = S::weight();
    'words: for _ in 0..512u32 {
        if wanted == 0 {
            break;
        }
        let (position, sign) = place::<S>(words.next_u16());
        if is_free(c[position]) {
            c[position] = unit::<S>(sign);
            wanted -= 1;
        }
    }
}

// The challenge for a commitment r, a digest and a counter.
pub fn challenge<S: ParamSet>(c: &mut [u32], r: &[u32], digest: &[u8], counter: u16)
    requires { length c.old ≡ S.params.n }
    ensures is { c.new ≡ challenge S.params r.now digest.now counter }
    ensures polynomial { Proper S.params.n S.params.p c.new }
    ensures ternary { AllByRecursion (Ternary S.params) c.new }
{
    let mut hasher = Shake256::new();
    absorb_residues(&mut hasher, r);
    hasher.absorb(digest);
    hasher.absorb(&counter.to_le_bytes());
    c.fill(0);
    fill_from::<S>(c, &mut hasher.finish());
}
