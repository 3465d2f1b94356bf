//! The jitter: which instructions cost twice.
ghost use Rattle.std.specs.Prelude.{◌≡◌, ◌≢◌, ◌≤◌, ℕ};
ghost use Rattle.timing_laws.specs.Noted.{splitmix, chance, is_doubled};

/// How many instructions of a hart have one chance.
const BLOCK: u64 = 1000;

/// One more than the greatest chance, in per cent.
const CHANCES: u64 = 21;

/// The place from which on the chances of blocks are drawn.
const CHANCES_FROM: u64 = 1 << 63;

/// Output `n`, from 0, of the generator splitmix64 that begins at `seed`.
///
/// Source: G. L. Steele, D. Lea and C. H. Flood, "Fast splittable pseudorandom number generators",
/// OOPSLA 2014, and the constants of Vigna's splitmix64.c.
#[inline]
pub fn splitmix(seed: u64, n: u64) -> u64
    ensures { result ≡ splitmix seed n }
{
    let z = seed.wrapping_add(n.wrapping_add(1).wrapping_mul(0x9E37_79B9_7F4A_7C15));
    let y = (z ^ (z >> 30)).wrapping_mul(0xBF58_476D_1CE4_E5B9);
    let x = (y ^ (y >> 27)).wrapping_mul(0x94D0_49BB_1331_11EB);
    x ^ (x >> 31)
}

/// Of 100 instructions, how many of this block of a hart's instructions cost twice. The key is
/// the hart's.
#[inline]
fn chance(key: u64, block: u64) -> u64
    requires { block ≤ 18446744073709551 }
    ensures { result ≡ chance key block }
{
    splitmix(key, CHANCES_FROM + block) % CHANCES
}

/// Whether the instruction that a hart retires after `count` others costs twice, with this seed of
/// the jitter; 0 is none.
pub fn is_doubled(seed: u64, hart: u32, count: u64) -> bool
    ensures { result ≡ is_doubled seed hart count }
{
    if seed == 0 {
        return false;
    }
    is_doubled_by(splitmix(seed, u64::from(hart)), count)
}

/// `is_doubled` by the hart's key, which is output number `hart` of `splitmix` of the seed. The seed
/// is not 0.
#[inline(always)]
pub fn is_doubled_by(key: u64, count: u64) -> bool
    ensures { (seed hart : ℕ) → seed ≢ 0 → key ≡ splitmix seed hart
        → result ≡ is_doubled seed hart count }
{
    let drawn = splitmix(key, count) % 100;
    // Most draws are above each chance, so that of the block is not asked for.
    drawn < CHANCES && drawn < chance(key, count / BLOCK)
}
