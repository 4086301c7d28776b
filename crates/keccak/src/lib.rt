// The permutation Keccak-f[1600] of FIPS 202. A state is 25 lanes of 64 bits; lane (x, y) stands at index x + 5 * y.
#![tactic(auto)]

ghost use Rattle.std.specs.Prelude.{◌≡◌};
ghost use Rattle.keccak.specs.Keccak.{theta, rho, pi, chi, round, keccak_f};
ghost use Rattle.keccak.specs.Tables.{TablesFollow};

#[rattlefmt::skip]
const ROUND_CONSTANTS: [u64; 24] = [
    0x0000000000000001, 0x0000000000008082, 0x800000000000808a, 0x8000000080008000,
    0x000000000000808b, 0x0000000080000001, 0x8000000080008081, 0x8000000000008009,
    0x000000000000008a, 0x0000000000000088, 0x0000000080008009, 0x000000008000000a,
    0x000000008000808b, 0x800000000000008b, 0x8000000000008089, 0x8000000000008003,
    0x8000000000008002, 0x8000000000000080, 0x000000000000800a, 0x800000008000000a,
    0x8000000080008081, 0x8000000000008080, 0x0000000080000001, 0x8000000080008008,
];

// Adds to each bit the parities of two columns beside it.
#[rattlefmt::skip]
fn theta_step(a: &[u64; 25]) -> [u64; 25]
    ensures { result ≡ theta a.now }
{
    let c0 = a[0] ^ a[5] ^ a[10] ^ a[15] ^ a[20];
    let c1 = a[1] ^ a[6] ^ a[11] ^ a[16] ^ a[21];
    let c2 = a[2] ^ a[7] ^ a[12] ^ a[17] ^ a[22];
    let c3 = a[3] ^ a[8] ^ a[13] ^ a[18] ^ a[23];
    let c4 = a[4] ^ a[9] ^ a[14] ^ a[19] ^ a[24];
    let d0 = c4 ^ c1.rotate_left(1);
    let d1 = c0 ^ c2.rotate_left(1);
    let d2 = c1 ^ c3.rotate_left(1);
    let d3 = c2 ^ c4.rotate_left(1);
    let d4 = c3 ^ c0.rotate_left(1);
    [
        a[0] ^ d0, a[1] ^ d1, a[2] ^ d2, a[3] ^ d3, a[4] ^ d4,
        a[5] ^ d0, a[6] ^ d1, a[7] ^ d2, a[8] ^ d3, a[9] ^ d4,
        a[10] ^ d0, a[11] ^ d1, a[12] ^ d2, a[13] ^ d3, a[14] ^ d4,
        a[15] ^ d0, a[16] ^ d1, a[17] ^ d2, a[18] ^ d3, a[19] ^ d4,
        a[20] ^ d0, a[21] ^ d1, a[22] ^ d2, a[23] ^ d3, a[24] ^ d4,
    ]
}

// Rotates each lane by its offset and moves it to its new place.
#[rattlefmt::skip]
fn rho_pi_steps(a: &[u64; 25]) -> [u64; 25]
    ensures { result ≡ pi (rho a.now) }
{
    [
        a[0].rotate_left(0), a[6].rotate_left(44), a[12].rotate_left(43), a[18].rotate_left(21), a[24].rotate_left(14),
        a[3].rotate_left(28), a[9].rotate_left(20), a[10].rotate_left(3), a[16].rotate_left(45), a[22].rotate_left(61),
        a[1].rotate_left(1), a[7].rotate_left(6), a[13].rotate_left(25), a[19].rotate_left(8), a[20].rotate_left(18),
        a[4].rotate_left(27), a[5].rotate_left(36), a[11].rotate_left(10), a[17].rotate_left(15), a[23].rotate_left(56),
        a[2].rotate_left(62), a[8].rotate_left(55), a[14].rotate_left(39), a[15].rotate_left(41), a[21].rotate_left(2),
    ]
}

// Adds to each lane a product of the next two of its row: the only step that is not linear.
#[rattlefmt::skip]
fn chi_step(a: &[u64; 25]) -> [u64; 25]
    ensures { result ≡ chi a.now }
{
    [
        a[0] ^ (!a[1] & a[2]), a[1] ^ (!a[2] & a[3]), a[2] ^ (!a[3] & a[4]), a[3] ^ (!a[4] & a[0]), a[4] ^ (!a[0] & a[1]),
        a[5] ^ (!a[6] & a[7]), a[6] ^ (!a[7] & a[8]), a[7] ^ (!a[8] & a[9]), a[8] ^ (!a[9] & a[5]), a[9] ^ (!a[5] & a[6]),
        a[10] ^ (!a[11] & a[12]), a[11] ^ (!a[12] & a[13]), a[12] ^ (!a[13] & a[14]), a[13] ^ (!a[14] & a[10]), a[14] ^ (!a[10] & a[11]),
        a[15] ^ (!a[16] & a[17]), a[16] ^ (!a[17] & a[18]), a[17] ^ (!a[18] & a[19]), a[18] ^ (!a[19] & a[15]), a[19] ^ (!a[15] & a[16]),
        a[20] ^ (!a[21] & a[22]), a[21] ^ (!a[22] & a[23]), a[22] ^ (!a[23] & a[24]), a[23] ^ (!a[24] & a[20]), a[24] ^ (!a[20] & a[21]),
    ]
}

fn one_round(a: &[u64; 25], constant: u64) -> [u64; 25]
    ensures { result ≡ round constant a.now }
{
    let mixed = theta_step(a);
    let moved = rho_pi_steps(&mixed);
    let mut next = chi_step(&moved);
    next[0] ^= constant;
    next
}

// The permutation in place. Its contract also says that both tables of the definition follow FIPS 202's rules for them.
pub fn permute(a: &mut [u64; 25])
    ensures permuted { a.new ≡ keccak_f a.old }
    ensures tables { TablesFollow }
{
    for &constant in &ROUND_CONSTANTS {
        *a = one_round(a, constant);
    }
}
