//! Coins, which a seed throws for each frame, slot, step, sender and receiver.

ghost use Rattle.std.specs.Prelude.{◌≡◌, ◌+◌, ◌*◌, ◌^◌, ◌<◌, ℕ, nat_lt};
ghost use Rattle.drawn_links.specs.Coins.{coin as coin_of, coin_key as key_of, splitmix};
ghost use Rattle.drawn_links.specs.Seeds.{start_of as start_of_seed};

use lwb_base::NodeId;
use rand_core::SeedableRng;
use rand_core::utils::NextWord;
use rand_xoshiro::SplitMix64;

// How far the generator's state moves on from one output to the next.
const STATE_STEP: u64 = 0x9e37_79b9_7f4a_7c15;

/// The state of the generator from which the coins of the seed are thrown.
pub fn start_of(seed: u64) -> u64
    ensures { result ≡ start_of_seed seed }
{
    output(seed)
}

/// The coin of the key, below 2^53, from the start of the seed.
pub fn coin(start: u64, key: u64) -> u64
    ensures { (seed : ℕ) → start ≡ start_of_seed seed → result ≡ coin_of seed key }
{
    output(start.wrapping_add(key.wrapping_mul(STATE_STEP))) >> 11
}

/// The key of a step of a slot of a frame, with no sender and no receiver yet.
pub fn step_key(frame: u32, slot: u8, step: u8) -> u64
    ensures { result ≡ (frame * 64 + slot) * 16 + step }
{
    (u64::from(frame) * 64 + u64::from(slot)) * 16 + u64::from(step)
}

/// The key of a link in the step of a step key.
pub fn link_key(step_key: u64, from: NodeId, to: NodeId) -> u64
    requires { step_key < 2 ^ 47 }
    ensures { result ≡ (step_key * 256 + from) * 256 + to }
{
    (step_key * 256 + u64::from(from.number())) * 256 + u64::from(to.number())
}

/// Whether a link of that ratio, in millionths, passes by the coin.
pub fn is_within(coin: u64, ratio: u32) -> bool
    ensures { result ≡ nat_lt (coin * 1000000) (ratio * 2 ^ 53) }
{
    u128::from(coin) * 1_000_000 < u128::from(ratio) << 53
}

// What the generator puts out in this state.
fn output(state: u64) -> u64
    ensures { result ≡ splitmix state }
{
    SplitMix64::seed_from_u64(state).next_word()
}
