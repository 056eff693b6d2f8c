//! The leaf that is published.

ghost use Rattle.std.specs.Prelude.{◌≡◌, ℕ, List, ◌++◌};
ghost use Rattle.sha2.specs.Sha256.{sha256};
ghost use Rattle.sha2.specs.Hashers.{Holds256};
ghost use Rattle.nr_spec_keys.specs.OneTime.{public_leaf_of};

use crate::secrets::{PAIRS, Pair, next_pair, secrets_of};
use crate::seed::Seed;
use nr_chain::{Digest, sha256};
use sha2::{Digest as Hasher, Sha256};

// Takes in the public digests of a pair.
fn publish_pair(hasher: &mut Sha256, pair: &Pair)
    ensures { (m : List ℕ) → Holds256 hasher.old m
        → Holds256 hasher.new (m ++ (sha256 pair.now.zero ++ sha256 pair.now.one)) }
{
    hasher.update(&sha256(&pair.zero).0);
    hasher.update(&sha256(&pair.one).0);
}

/// The digest of a leaf: the SHA-256 of a zero byte and the public digests of its 512 secrets.
pub fn public_leaf(seed: &Seed, leaf: u32) -> Digest
    ensures { result.0 ≡ public_leaf_of seed.now.0 leaf }
{
    let mut secrets = secrets_of(seed, leaf);
    let mut hasher = Sha256::new();
    hasher.update(&[0]);
    for _ in 0..PAIRS {
        publish_pair(&mut hasher, &next_pair(&mut secrets));
    }
    Digest(hasher.finalize())
}
