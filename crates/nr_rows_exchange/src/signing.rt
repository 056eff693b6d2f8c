//! Signed statements of the rows.

use nr_bytes::{Memory, put_bytes, put_u32, put_u64};
use nr_chain::Digest;
use nr_lamport::Seed;
use nr_merkle::Tree;
use std::alloc::Global;

// A seed that is no secret.
pub const SEED: [u8; 32] = [
    0, 1, 2, 3, 4, 5, 6, 7, 8, 9, 10, 11, 12, 13, 14, 15, 16, 17, 18, 19, 20, 21, 22, 23, 24, 25,
    26, 27, 28, 29, 30, 31,
];

// Signs a body with leaf 1 of the seed's tree of height 1, and answers the root.
fn put_signature(
    alloc: Global,
    seed: &Seed,
    body: &[u8],
    out: &mut Vec<u8>,
) -> Result<Digest, Memory> {
    let tree = Tree::build(alloc, seed, 1)?;
    tree.sign(seed, 1, body, out)?;
    Ok(tree.root())
}

// An authenticator of AS 64501, and the root under which it is signed.
pub fn put_auth(
    alloc: Global,
    seq: u64,
    time: u64,
    hash: &[u8],
    out: &mut Vec<u8>,
) -> Result<Digest, Memory> {
    let mut body = Vec::new(alloc);
    put_u32(&mut body, 64501)?;
    put_u64(&mut body, seq)?;
    put_u64(&mut body, time)?;
    put_bytes(&mut body, hash)?;
    put_bytes(out, &body)?;
    put_signature(alloc, &Seed(SEED), &body, out)
}
