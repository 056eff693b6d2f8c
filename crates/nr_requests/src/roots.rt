//! Roots in the words of the command line.

ghost use Rattle.std.specs.Prelude.{◌≡◌, option_map};
ghost use Rattle.nr_chain.specs.Views.{digest_bytes};
ghost use Rattle.nr_spec_commands.specs.Words.{root_in};

use nr_chain::Digest;

/// The root that a word writes: 64 hexadecimal digits of either case.
pub fn root_in(word: &str) -> Option<Digest>
    ensures { option_map digest_bytes result ≡ root_in word.now }
{
    let mut root = [0u8; 32];
    match hex::decode_to_slice(word, &mut root) {
        Ok(()) => Some(Digest(root)),
        Err(_) => None,
    }
}
