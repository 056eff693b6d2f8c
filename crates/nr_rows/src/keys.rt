//! One-time keys and trees. Expected values come from RFC 8439 and `bench/keys.py`.

use crate::digests::is_hex;
use nr_chain::sha256;
use nr_lamport::{Seed, leaf_of, public_leaf, sign};
use nr_merkle::Tree;
use rand_chacha::ChaCha20Rng;
use rand_core::SeedableRng;
use rand_core::utils::NextWord;
use std::alloc::Global;

/// The bytes 0, 1, .. 31.
pub const SEED: [u8; 32] = [
    0, 1, 2, 3, 4, 5, 6, 7, 8, 9, 10, 11, 12, 13, 14, 15, 16, 17, 18, 19, 20, 21, 22, 23, 24, 25,
    26, 27, 28, 29, 30, 31,
];

// RFC 8439, 2.3.2: counter 1 and nonce 000000090000004a00000000, split into two numbers of 64 bits.
const BLOCK: [u32; 16] = [
    0xe4e7_f110,
    0x1559_3bd1,
    0x1fdd_0f50,
    0xc471_20a3,
    0xc7f4_d1c7,
    0x0368_c033,
    0x9aaa_2204,
    0x4e6c_d4c3,
    0x4664_82d2,
    0x09aa_9f07,
    0x05d7_c214,
    0xa202_8bd9,
    0xd19c_12b5,
    0xb94e_16de,
    0xe883_d0cb,
    0x4e3c_50a2,
];

fn has_block() -> bool {
    let mut words = ChaCha20Rng::from_seed(SEED);
    words.set_stream(0x4a00_0000);
    words.set_word_pos(0x0900_0000_0000_0001 * 16);
    for word in BLOCK {
        if words.next_word() != word {
            return false;
        }
    }
    true
}

#[test]
fn chacha20_block(rt: HostRuntime) {
    assert!(rt; has_block());
}

// A leaf's number, and its public leaf.
const LEAVES: [(u32, &str); 2] = [
    (
        0,
        "0669c20da7d60c821b5852caa8b7d78b580d97416fc0d17f6e696b920a31949a",
    ),
    (
        3,
        "bcbaaa9f7ca6f13079ea6841dcb663ab89d7eedd88db33dcc1260c12ce9fbf83",
    ),
];

const PAIRS: &str = "6a78ba969c6646c31d51d31fb5185628e493d87a57ac8ef463d655c65aa638f6";

fn signs(alloc: Global, seed: &Seed) -> bool {
    let digest = sha256(b"\x02body");
    let mut pairs = Vec::new(alloc);
    sign(seed, 1, &digest, &mut pairs).is_ok()
        && pairs.len() == 16384
        && is_hex(&sha256(&pairs), PAIRS)
        && leaf_of(&pairs, &digest) == public_leaf(seed, 1)
}

#[test]
fn leaves(rt: HostRuntime) {
    for (number, leaf) in LEAVES {
        assert!(rt; is_hex(&public_leaf(&Seed(SEED), number), leaf));
    }
    assert!(rt; signs(rt.alloc(), &Seed(SEED)));
}

// A height, and the root of the seed's tree of that height.
const ROOTS: [(u8, &str); 3] = [
    (
        1,
        "1a2ebdedd74930ef4334aafba6e1eec56331b88ee789406e92066fa27bcf177e",
    ),
    (
        2,
        "0b144d7fb833ba555a8773db4d932dba57985aa2716b2c78f45e857093e8c2b5",
    ),
    (
        5,
        "55a82c01d34e50e1e9cddee6dd21d59377d771dea0c5fe69cfe2d2d2cbea9ca4",
    ),
];

fn is_root(tree: &Tree, height: u8, root: &str) -> bool {
    tree.height() == height && is_hex(&tree.root(), root)
}

// Whether a tree of this height, and its copy, have the root.
fn has_root(alloc: Global, height: u8, root: &str) -> bool {
    if height < 1 || 16 < height {
        return false;
    }
    let Ok(tree) = Tree::build(alloc, &Seed(SEED), height) else {
        return false;
    };
    match tree.copy() {
        Ok(copy) => is_root(&tree, height, root) && is_root(&copy, height, root),
        Err(_) => false,
    }
}

#[test]
fn roots(rt: HostRuntime) {
    for (height, root) in ROOTS {
        assert!(rt; has_root(rt.alloc(), height, root));
    }
}
