//! Signing a digest with a leaf.

ghost use Rattle.std.specs.Prelude.{◌≡◌, ◌==◌, ◌++◌, if◌then◌else◌, length, take, drop, OnOk, OnErr};
ghost use Rattle.sha2.specs.Sha256.{sha256};
ghost use Rattle.nr_spec_keys.specs.OneTime.{pairs_of, leaf_from, public_leaf_of};

use crate::bits::bit_of;
use crate::secrets::{PAIRS, Pair, next_pair, secrets_of};
use crate::seed::Seed;
use nr_bytes::{Memory, put_bytes};
use nr_chain::{Digest, sha256};

// Appends what is shown of a pair: the secret of a bit, and the public digest of the other.
fn put_pair(pair: &Pair, bit: u8, out: &mut Vec<u8>) -> Result<(), Memory>
    ensures ok { OnOk result (out.new.items ≡ out.old.items
        ++ (if bit == 0 then pair.now.zero ++ sha256 pair.now.one else pair.now.one ++ sha256 pair.now.zero)) }
    ensures memory { OnErr result (take (length out.old.items) out.new.items ≡ out.old.items) }
{
    let (shown, hidden) = if bit == 0 {
        (&pair.zero, &pair.one)
    } else {
        (&pair.one, &pair.zero)
    };
    put_bytes(out, shown)?;
    put_bytes(out, &sha256(hidden).0)
}

// Appends the pairs. After `Memory` some of them may stand after what was there.
fn put_pairs(seed: &Seed, leaf: u32, digest: &Digest, out: &mut Vec<u8>) -> Result<(), Memory>
    ensures ok { OnOk result (out.new.items ≡ out.old.items ++ pairs_of seed.now.0 leaf digest.now.0) }
    ensures memory { OnErr result (take (length out.old.items) out.new.items ≡ out.old.items) }
{
    let mut secrets = secrets_of(seed, leaf);
    for i in 0..PAIRS {
        let pair = next_pair(&mut secrets);
        put_pair(&pair, bit_of(digest, i), out)?;
    }
    Ok(())
}

/// Appends the 16,384 bytes that sign a digest with a leaf: for each bit of the digest the secret of its
/// value, and the public digest of the other value. A leaf must not sign two digests: both secrets of a
/// pair would then be known. `Memory` leaves the vector as it was.
pub fn sign(seed: &Seed, leaf: u32, digest: &Digest, out: &mut Vec<u8>) -> Result<(), Memory>
    ensures ok { OnOk result (out.new.items ≡ out.old.items ++ pairs_of seed.now.0 leaf digest.now.0) }
    // What is recomputed from them is the public leaf.
    ensures recomputed { OnOk result
        (leaf_from (drop (length out.old.items) out.new.items) digest.now.0 ≡ public_leaf_of seed.now.0 leaf) }
    ensures memory { OnErr result (out.new.items ≡ out.old.items) }
{
    let before = out.len();
    let signed = put_pairs(seed, leaf, digest, out);
    if signed.is_err() {
        out.truncate(before);
    }
    signed
}
