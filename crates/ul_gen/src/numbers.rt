//! The numbers that are drawn.

ghost use Rattle.std.specs.Prelude.{◌≡◌, ◌<◌, ◌≤◌, ◌*◌, ◌+◌, ◌^◌};
ghost use Rattle.ul_gen.specs.Numbers.{draw};

const MULTIPLIER: u128 = 6364136223846793005;

const INCREMENT: u128 = 1442695040888963407;

const WORD: u128 = 0x1_0000_0000_0000_0000;

/// The draw of a package `k` at one of its places.
#[tactic(auto, unfolding(crate::specs::Numbers::draw))]
pub(crate) fn drawn(seed: u64, k: u64, place: u64) -> u64
    requires { place < 2 ^ 32 }
    ensures value { result ≡ draw seed k place }
    ensures small { result < 2 ^ 31 }
{
    let sum = (seed as u128 + 1 + k as u128 * MULTIPLIER + place as u128 * INCREMENT) % WORD;
    let product = sum * MULTIPLIER % WORD;
    (product / 0x2_0000_0000) as u64
}
