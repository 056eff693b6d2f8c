//! What a message of a tape is made of.

ghost use Rattle.std.specs.Prelude.{◌≡◌, ◌+◌, ◌*◌, ◌<◌, ◌^◌};
ghost use Rattle.rand_chacha.specs.ChaCha.{key_of, word_at};
ghost use Rattle.nr_spec_tape.specs.Tape.{tape_seed};

use rand_chacha::ChaCha20Rng;
use rand_core::SeedableRng;
use rand_core::utils::NextWord;

/// Two words of a stream.
#[derive(Clone, Copy)]
pub struct Drawn {
    pub first: u32,
    pub second: u32,
}

/// The stream of a trial, before its first word.
pub fn words_of(number: u64) -> ChaCha20Rng
    ensures { result ≡ record { key = key_of (tape_seed number); stream = 0; word_pos = 0 } }
{
    let mut seed = [0; 32];
    seed[..8].copy_from_slice(&number.to_le_bytes());
    ChaCha20Rng::from_seed(seed)
}

/// The next two words.
pub fn draw(words: &mut ChaCha20Rng) -> Drawn
    requires { words.old.word_pos + 2 < 2 ^ 68 }
    ensures first { result.first ≡ word_at 10 words.old.key words.old.stream words.old.word_pos }
    ensures second { result.second ≡ word_at 10 words.old.key words.old.stream (words.old.word_pos + 1) }
    ensures onward { words.new ≡ record words.old { word_pos = words.old.word_pos + 2 } }
{
    let first = words.next_word();
    let second = words.next_word();
    Drawn { first, second }
}
