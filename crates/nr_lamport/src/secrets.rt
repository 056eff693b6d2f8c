//! The secrets of a leaf, read in order. They stand one after another in the leaf's stream: looking each up
//! by its place would cost far more than the words themselves.

ghost use Rattle.std.specs.Prelude.{◌≡◌, ◌+◌, ◌<◌, ◌^◌};
ghost use Rattle.rand_chacha.specs.ChaCha.{key_of};
ghost use Rattle.nr_spec_keys.specs.OneTime.{words_of};

use crate::seed::Seed;
use rand_chacha::ChaCha20Rng;
use rand_core::SeedableRng;
use rand_core::utils::fill_bytes_via_u32;

/// A leaf has one pair of secrets for each bit of the digest that it signs.
pub const PAIRS: usize = 256;

/// The two secrets of a pair: for the bit 0, and for the bit 1.
#[derive(Drop)]
pub struct Pair {
    pub zero: [u8; 32],
    pub one: [u8; 32],
}

/// The stream of a leaf's secrets, before the first of them.
pub fn secrets_of(seed: &Seed, leaf: u32) -> ChaCha20Rng
    ensures { result ≡ record { key = key_of seed.now.0; stream = leaf; word_pos = 0 } }
{
    let mut secrets = ChaCha20Rng::from_seed(seed.0);
    secrets.set_stream(u64::from(leaf));
    secrets
}

/// The next secret.
fn next_secret(secrets: &mut ChaCha20Rng) -> [u8; 32]
    requires { secrets.old.word_pos + 8 < 2 ^ 68 }
    ensures value { result ≡ words_of secrets.old.key secrets.old.stream secrets.old.word_pos }
    ensures onward { secrets.new ≡ record secrets.old { word_pos = secrets.old.word_pos + 8 } }
{
    let mut secret = [0; 32];
    fill_bytes_via_u32(secrets, &mut secret);
    secret
}

/// The next pair of secrets.
pub fn next_pair(secrets: &mut ChaCha20Rng) -> Pair
    requires { secrets.old.word_pos + 16 < 2 ^ 68 }
    ensures zero { result.zero ≡ words_of secrets.old.key secrets.old.stream secrets.old.word_pos }
    ensures one { result.one ≡ words_of secrets.old.key secrets.old.stream (secrets.old.word_pos + 8) }
    ensures onward { secrets.new ≡ record secrets.old { word_pos = secrets.old.word_pos + 16 } }
{
    let zero = next_secret(secrets);
    let one = next_secret(secrets);
    Pair { zero, one }
}
