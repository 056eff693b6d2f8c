//! The leaf that follows from what a signature shows.

ghost use Rattle.std.specs.Prelude.{◌≡◌, ℕ, List, ◌++◌, length};
ghost use Rattle.sha2.specs.Sha256.{sha256};
ghost use Rattle.sha2.specs.Hashers.{Holds256};
ghost use Rattle.nr_spec_log.specs.Authenticator.{pairs_size};
ghost use Rattle.nr_spec_keys.specs.OneTime.{beside, leaf_from};

use crate::bits::{bit_of, piece_of};
use crate::secrets::PAIRS;
use nr_chain::{Digest, sha256};
use sha2::{Digest as Hasher, Sha256};

// Takes in the public digests of a pair: that of the secret shown for a bit, and the one shown beside it.
fn recompute_pair(hasher: &mut Sha256, bit: u8, secret: &[u8], public: &[u8])
    ensures { (m : List ℕ) → Holds256 hasher.old m
        → Holds256 hasher.new (m ++ beside bit (sha256 secret.now) public.now) }
{
    let digest = sha256(secret);
    if bit == 0 {
        hasher.update(&digest.0);
        hasher.update(public);
    } else {
        hasher.update(public);
        hasher.update(&digest.0);
    }
}

/// The digest of the leaf that shows these pairs for a digest. What `sign` shows gives the public leaf.
pub fn leaf_of(pairs: &[u8], digest: &Digest) -> Digest
    requires { length pairs.now ≡ pairs_size }
    ensures { result.0 ≡ leaf_from pairs.now digest.now.0 }
{
    let mut hasher = Sha256::new();
    hasher.update(&[0]);
    for i in 0..PAIRS {
        let secret = piece_of(pairs, 2 * i);
        let public = piece_of(pairs, 2 * i + 1);
        recompute_pair(&mut hasher, bit_of(digest, i), secret, public);
    }
    Digest(hasher.finalize())
}
