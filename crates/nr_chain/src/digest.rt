//! Digests: of bytes, before the first entry, and of one entry after another.

ghost use Rattle.std.specs.Prelude.{◌≡◌};
ghost use Rattle.sha2.specs.Sha256.{sha256};
ghost use Rattle.nr_spec_log.specs.Chain.{genesis_value, link_value};

use sha2::{Digest as Hasher, Sha256};

/// A SHA-256 digest.
#[derive(Clone, Copy, Debug, PartialEq, Eq)]
pub struct Digest(pub [u8; 32]);

/// The SHA-256 of bytes (FIPS 180-4).
pub fn sha256(bytes: &[u8]) -> Digest
    ensures { result.0 ≡ sha256 bytes.now }
{
    Digest(Sha256::digest(bytes))
}

/// The chain value before the first entry of the log of an AS: the SHA-256 of the text `netreview 1` and
/// the AS in four bytes.
#[tactic(auto, unfolding(nr_spec_log::specs::Chain::genesis_value))]
pub fn genesis(asn: u32) -> Digest
    ensures { result.0 ≡ genesis_value asn }
{
    let mut hasher = Sha256::new();
    hasher.update("netreview 1");
    hasher.update(&asn.to_be_bytes());
    Digest(hasher.finalize())
}

/// The chain value of an entry: the SHA-256 of the value before it, its number, its time in microseconds,
/// its kind, and the digest of its content.
#[tactic(auto, unfolding(nr_spec_log::specs::Chain::link_value))]
pub fn link(prev: &Digest, seq: u64, time: u64, kind: u8, content: &Digest) -> Digest
    ensures { result.0 ≡ link_value prev.now.0 seq (record { time = time; kind = kind; digest = content.now.0 }) }
{
    let mut hasher = Sha256::new();
    hasher.update(&prev.0);
    hasher.update(&seq.to_be_bytes());
    hasher.update(&time.to_be_bytes());
    hasher.update(&[kind]);
    hasher.update(&content.0);
    Digest(hasher.finalize())
}
