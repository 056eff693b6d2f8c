//! Signatures. Expected values come from `bench/keys.py`.

ghost use Rattle.std.specs.Prelude.{◌<◌};

use crate::digests::is_hex;
use crate::keys::SEED;
use nr_bytes::{Cursor, Memory, Place};
use nr_chain::{Digest, sha256};
use nr_lamport::Seed;
use nr_merkle::{Sig, Tree, verify};
use std::alloc::Global;

// Whether the bytes are a signature of the body under the root, or the place of their first fault.
fn checked(root: &Digest, body: &[u8], bytes: &[u8]) -> Result<bool, Place> {
    let mut cursor = Cursor::new(bytes);
    let sig = Sig::read(&mut cursor)?;
    Ok(cursor.left() == 0 && verify(root, body, &sig))
}

// Signs with a leaf of the seed's tree of height 2, and answers the root.
fn put_signature(alloc: Global, seed: &Seed, leaf: u32, out: &mut Vec<u8>) -> Result<Digest, Memory>
    requires { leaf < 4 }
{
    let tree = Tree::build(alloc, seed, 2)?;
    tree.sign(seed, leaf, b"body", out)?;
    Ok(tree.root())
}

// A leaf, and the digest of its signature.
const SIGNATURES: [(u32, &str); 4] = [
    (
        0,
        "425fcaf4f1ee5f2b50e79dc38b2e083a3cadeef8ddd6cc6276be6a8cf811a3dd",
    ),
    (
        1,
        "485c07749ac374467f9e23465a56198a0194e87be1ca91e467d4d3873146e287",
    ),
    (
        2,
        "653af79dfdaecc3f9d17f0e6f94b0f7a9f9d04d0c4c4906d87794243dd385236",
    ),
    (
        3,
        "8d542888d96954ea336b029c07b9461162b6da1c4722fe413b5ff51a01847c7e",
    ),
];

fn is_of_body(root: &Digest, bytes: &[u8]) -> bool {
    checked(root, b"body", bytes) == Ok(true)
        && checked(root, b"Body", bytes) == Ok(false)
        && checked(&sha256(b"other"), b"body", bytes) == Ok(false)
}

// Whether a leaf signs the body, and its signature has this digest.
fn signs(alloc: Global, leaf: u32, digest: &str) -> bool {
    if 4 <= leaf {
        return false;
    }
    let mut bytes = Vec::new(alloc);
    match put_signature(alloc, &Seed(SEED), leaf, &mut bytes) {
        Ok(root) => is_hex(&sha256(&bytes), digest) && is_of_body(&root, &bytes),
        Err(_) => false,
    }
}

#[test]
fn each_leaf_signs(rt: HostRuntime) {
    for (leaf, digest) in SIGNATURES {
        assert!(rt; signs(rt.alloc(), leaf, digest), "{leaf}");
    }
}

// A byte of a signature, the bits of it that are changed, and what is answered then: of the leaf's number, of the
// height, of a secret and of a public digest in the first and the last pair, and of the path's two digests; and a leaf
// past the tree, and heights past the bytes.
const CHANGES: [(usize, u8, Result<bool, Place>); 12] = [
    (3, 1, Ok(false)),
    (5, 1, Ok(false)),
    (5 + 32, 1, Ok(false)),
    (5 + 16351, 1, Ok(false)),
    (5 + 16383, 1, Ok(false)),
    (16389, 1, Ok(false)),
    (16389 + 32, 1, Ok(false)),
    (16389 + 63, 1, Ok(false)),
    (0, 0x80, Err(Place(4))),
    (4, 2, Err(Place(4))),
    (4, 0x13, Err(Place(4))),
    (4, 1, Err(Place(16389))),
];

// The byte of the first change of which something else is answered. Each byte is put back.
fn unlike(root: &Digest, bytes: &mut [u8]) -> Option<usize> {
    for (at, bits, want) in CHANGES {
        if bytes.len() <= at {
            return Some(at);
        }
        bytes[at] ^= bits;
        if checked(root, b"body", bytes) != want {
            return Some(at);
        }
        bytes[at] ^= bits;
    }
    None
}

// The same of the signature by leaf 1.
fn unlike_of(alloc: Global) -> Option<usize> {
    let mut bytes = Vec::new(alloc);
    match put_signature(alloc, &Seed(SEED), 1, &mut bytes) {
        Ok(root) => unlike(&root, &mut bytes),
        Err(_) => Some(0),
    }
}

#[test]
fn changes_are_found(rt: HostRuntime) {
    assert_eq!(rt; unlike_of(rt.alloc()), None);
}
