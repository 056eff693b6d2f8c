//! Signatures.

ghost use Rattle.std.specs.Prelude.{◌≡◌, ◌*◌, ◌^◌, ◌<◌, ◌≤◌, length};
ghost use Rattle.nr_spec_log.specs.Authenticator.{pairs_size, digest_size};

/// A signature under a tree of one-time keys: the leaf's number, the tree's height from 1 to 16, the pairs of
/// secret and public digest, and the sibling digests from the leaf upwards. Its parts have their sizes.
#[derive(Clone, Copy, Debug)]
pub struct Sig<'a> {
    pub leaf: u32,
    pub height: u8,
    pub pairs: &'a [u8],
    pub path: &'a [u8],
    ghost least: { 1 ≤ height },
    ghost most: { height ≤ 16 },
    ghost in_tree: { leaf < 2 ^ height },
    ghost whole_pairs: { length pairs.now ≡ pairs_size },
    ghost whole_path: { length path.now ≡ digest_size * height },
}
