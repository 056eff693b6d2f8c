//! The authenticator of a COMMIT.

ghost use Rattle.std.specs.Prelude.{◌≡◌, ◌<◌, ◌^◌, ◌%◌, IfOk};
ghost use Rattle.nr_spec_keys.specs.Trees.{tree_of};
ghost use Rattle.nr_spec_steps.specs.Heads.{head_body};
ghost use Rattle.nr_heads.specs.Seals.{sealed_head};
ghost use Rattle.nr_heads.specs.Views.{seal_view};

use crate::seal::Seal;
use nr_bytes::{Memory, put_bytes, put_u32, put_u64};
use nr_lamport::Seed;
use nr_merkle::Tree;
use std::alloc::Global;

// What is signed.
fn body_bytes(alloc: Global, asn: u32, seal: &Seal) -> Result<Vec<u8>, Memory>
    ensures { IfOk result (λ bytes. bytes.items ≡ head_body asn seal.now.seq seal.now.time seal.now.value.0) }
{
    let mut body = Vec::new(alloc);
    put_u32(&mut body, asn)?;
    put_u64(&mut body, seal.seq)?;
    put_u64(&mut body, seal.time)?;
    put_bytes(&mut body, &seal.value.0)?;
    Ok(body)
}

// A leaf of the tree: that of the COMMIT, taken modulo their number.
fn leaf_in(tree: &Tree, leaf: u32) -> u32
    ensures value { result ≡ leaf % 2 ^ tree.now.height }
    ensures bound { result < 2 ^ tree.now.height }
{
    leaf % (1 << tree.height())
}

/// The bytes of the authenticator of a COMMIT of the log of an AS, signed with its leaf. The tree is built from the
/// seed.
#[tactic(auto, unfolding(crate::specs::Seals::sealed_head))]
pub fn head_bytes(
    alloc: Global,
    asn: u32,
    seed: &Seed,
    tree: &Tree,
    seal: &Seal,
) -> Result<Vec<u8>, Memory>
    requires { tree.now ≡ tree_of seed.now.0 tree.now.height }
    ensures { IfOk result (λ bytes. bytes.items
        ≡ sealed_head (record { asn = asn; height = tree.now.height; seed = seed.now.0 }) (seal_view seal.now)) }
{
    let body = body_bytes(alloc, asn, seal)?;
    let mut bytes = Vec::new(alloc);
    put_bytes(&mut bytes, &body)?;
    tree.sign(seed, leaf_in(tree, seal.leaf), &body, &mut bytes)?;
    Ok(bytes)
}
