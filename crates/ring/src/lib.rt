// Residues modulo p, and polynomials of n residues modulo xⁿ + 1, for any parameter set.
#![tactic(auto)]

ghost use Rattle.std.specs.Prelude.{◌≡◌, ⊤, ◌+◌, ◌-◌, ◌*◌, ◌%◌, ◌<◌, length, if◌then◌else◌, nat_le};
ghost use Rattle.ring.specs.Ring.{negate, residue, centre, Residues, plus, minus, product};
ghost use Rattle.ring.specs.Long.{Turned, dot};
ghost use Rattle.ring.specs.Laws.{Proper, RingLaws, CentringLaws};

use params::ParamSet;
use std::alloc::AllocError;
use std::marker::PhantomData;

// The most coefficients that a set may have, for rooms that hold a polynomial of any set.
pub const MOST: usize = 1024;

// What the definitions come to: a commutative ring with xⁿ = −1, and residues for integers near 0.
pub fn laws_hold()
    ensures ring { RingLaws }
    ensures centring { CentringLaws }
{}

// A polynomial of the set S that is lent: n words, each a residue. What is written to stays a `&mut [u32]`.
pub struct Poly<'a, S: ParamSet> {
    pub words: &'a [u32],
    set: PhantomData<S>,
    ghost proper: { Proper S.params.n S.params.p words.now },
}

impl<'a, S: ParamSet> Poly<'a, S> {
    pub fn new(words: &'a [u32]) -> Poly<'a, S>
        requires { Proper S.params.n S.params.p words.now }
        ensures { result.words.now ≡ words.now }
    {
        Poly {
            words,
            set: PhantomData,
        }
    }
}

// By hand: no derive copies a struct that has ghost fields and a type parameter.
impl<'a, S: ParamSet> Clone for Poly<'a, S> {
    ghost is_clone = { λ x y. y ≡ x };

    ghost is_infallible = { λ _. ⊤ };

    fn clone(&self) -> Result<Poly<'a, S>, AllocError> {
        Ok(*self)
    }
}

impl<'a, S: ParamSet> Copy for Poly<'a, S> {}

// The integer nearest 0 that a residue stands for.
pub fn centred<S: ParamSet>(v: u32) -> i32
    requires { v < S.params.p }
    ensures { result ≡ centre S.params.p v }
{
    let p = S::modulus();
    if v <= (p - 1) / 2 {
        v as i32
    } else {
        v as i32 - p as i32
    }
}

// The residue of an integer.
pub fn to_residue<S: ParamSet>(z: i16) -> u32
    ensures { result ≡ residue S.params.p z }
{
    (z as i32).rem_euclid(S::modulus() as i32) as u32
}

// A sum below 2p, reduced by one subtraction at most.
fn reduce_once<S: ParamSet>(sum: u32) -> u32
    ensures { result ≡ (if nat_le S.params.p sum then sum - S.params.p else sum) }
{
    let p = S::modulus();
    if sum >= p { sum - p } else { sum }
}

fn negated<S: ParamSet>(x: u32) -> u32
    requires { x < S.params.p }
    ensures { result ≡ negate S.params.p x }
{
    reduce_once::<S>(S::modulus() - x)
}

fn add<S: ParamSet>(x: u32, y: u32) -> u32
    requires { (x < S.params.p) × (y < S.params.p) }
    ensures { result ≡ (x + y) % S.params.p }
{
    reduce_once::<S>(x + y)
}

fn sub<S: ParamSet>(x: u32, y: u32) -> u32
    requires { (x < S.params.p) × (y < S.params.p) }
    ensures { result ≡ (x + (S.params.p - y)) % S.params.p }
{
    reduce_once::<S>(x + (S::modulus() - y))
}

// Adds the polynomial x to acc. Here and below a loop that writes one slice and reads another goes by `enumerate`: after a `zip`
// over `iter_mut` a proof knows nothing of what was written.
pub fn add_assign<S: ParamSet>(acc: &mut [u32], x: Poly<'_, S>)
    requires { Proper S.params.n S.params.p acc.old }
    ensures value { acc.new ≡ plus S.params.p acc.old x.entry.words.now }
    ensures residues { Residues S.params.p acc.new }
{
    for (i, sum) in acc.iter_mut().enumerate() {
        *sum = add::<S>(*sum, x.words[i]);
    }
}

// Takes the polynomial x from acc.
pub fn sub_assign<S: ParamSet>(acc: &mut [u32], x: Poly<'_, S>)
    requires { Proper S.params.n S.params.p acc.old }
    ensures value { acc.new ≡ minus S.params.p acc.old x.entry.words.now }
    ensures residues { Residues S.params.p acc.new }
{
    for (i, rest) in acc.iter_mut().enumerate() {
        *rest = sub::<S>(*rest, x.words[i]);
    }
}

// A way to multiply two polynomials of the set S. An impl writes `multiply_words`, and callers call `multiply`: a method that an
// impl writes gets no proof if it takes a type of S.
pub trait Multiply<S: ParamSet> {
    fn multiply_words(out: &mut [u32], a: &[u32], b: &[u32])
        requires out { length out.old ≡ S.params.n }
        requires a { Proper S.params.n S.params.p a.now }
        requires b { Proper S.params.n S.params.p b.now }
        ensures value { out.new ≡ product S.params.p a.now b.now }
        ensures residues { Residues S.params.p out.new };

    final fn multiply(out: &mut [u32], a: Poly<'_, S>, b: Poly<'_, S>)
        requires { length out.old ≡ S.params.n }
        ensures value { out.new ≡ product S.params.p a.entry.words.now b.entry.words.now }
        ensures residues { Residues S.params.p out.new }
    {
        Self::multiply_words(out, a.words, b.words)
    }
}

// b's coefficients from the highest down, and behind them those of −b: the n words from place n − 1 − j on are what a's coefficients
// meet in coefficient j of a · b.
fn turn<S: ParamSet>(out: &mut [u32], b: Poly<'_, S>)
    requires { length out.old ≡ 2 * S.params.n }
    ensures { Turned S.params.n S.params.p b.entry.words.now out.new }
{
    let n = S::degree();
    for (i, coefficient) in b.words.iter().enumerate() {
        out[n - 1 - i] = *coefficient;
        out[2 * n - 1 - i] = negated::<S>(*coefficient);
    }
}

// The sum of the products of what stands at the same place, with no reduction: n products of 48 bits stay below 2⁵⁸.
fn dot<S: ParamSet>(a: Poly<'_, S>, b: Poly<'_, S>) -> u64
    ensures { result ≡ dot a.entry.words.now b.entry.words.now }
{
    let mut sum = 0u64;
    for (i, coefficient) in a.words.iter().enumerate() {
        sum += *coefficient as u64 * b.words[i] as u64;
    }
    sum
}

// Each coefficient of a · b, n² products in all, in `turned` with b's. Each sum is reduced once, at its end.
fn multiply_in<S: ParamSet>(turned: &mut [u32], out: &mut [u32], a: &[u32], b: &[u32])
    requires turned { length turned.old ≡ 2 * S.params.n }
    requires out { length out.old ≡ S.params.n }
    requires a { Proper S.params.n S.params.p a.now }
    requires b { Proper S.params.n S.params.p b.now }
    ensures value { out.new ≡ product S.params.p a.now b.now }
    ensures residues { Residues S.params.p out.new }
{
    let n = S::degree();
    turn::<S>(turned, Poly::new(b));
    for (j, coefficient) in out.iter_mut().enumerate() {
        let met = Poly::new(&turned[n - 1 - j..2 * n - 1 - j]);
        *coefficient = (dot::<S>(Poly::new(a), met) % S::modulus() as u64) as u32;
    }
}

// With room for the largest set. Never inlined: within a long function its inner loop would stand at any place, and run slower for it.
#[inline(never)]
fn multiply_large<S: ParamSet>(out: &mut [u32], a: &[u32], b: &[u32])
    requires out { length out.old ≡ S.params.n }
    requires a { Proper S.params.n S.params.p a.now }
    requires b { Proper S.params.n S.params.p b.now }
    ensures value { out.new ≡ product S.params.p a.now b.now }
    ensures residues { Residues S.params.p out.new }
{
    let mut room = [0; 2 * MOST];
    multiply_in::<S>(&mut room[..2 * S::degree()], out, a, b);
}

// A set with no more coefficients has a small room: to clear one for MOST would take longer than its product.
const FEW: usize = 16;

// The long product.
pub struct LongProduct;

impl<S: ParamSet> Multiply<S> for LongProduct {
    #[inline]
    fn multiply_words(out: &mut [u32], a: &[u32], b: &[u32]) {
        if S::degree() <= FEW {
            let mut room = [0; 2 * FEW];
            multiply_in::<S>(&mut room[..2 * S::degree()], out, a, b);
        } else {
            multiply_large::<S>(out, a, b);
        }
    }
}
