//! Bits of a digest, and pieces of what is shown for them.

ghost use Rattle.std.specs.Prelude.{◌≡◌, ◌+◌, ◌*◌, ◌<◌, ◌≤◌, length};
ghost use Rattle.nr_spec_keys.specs.Pieces.{piece_of};
ghost use Rattle.nr_spec_keys.specs.OneTime.{bit_of};

use nr_chain::Digest;

/// Bit `i` of a digest, the highest bit of the first byte first.
pub fn bit_of(digest: &Digest, i: usize) -> u8
    requires { i < 256 }
    ensures { result ≡ bit_of digest.now.0 i }
{
    (digest.0[i / 8] >> (7 - i % 8)) & 1
}

/// Piece `i` of bytes that are cut into pieces of 32.
pub fn piece_of(bytes: &[u8], i: usize) -> &[u8]
    requires { 32 * i + 32 ≤ length bytes.now }
    ensures { result.now ≡ piece_of 32 bytes.now i }
{
    &bytes[32 * i..32 * i + 32]
}
