//! Signing with a leaf of a tree.

ghost use Rattle.std.specs.Prelude.{◌≡◌, ◌^◌, ◌<◌, ◌≤◌, ◌++◌, [], length, take, drop, OnOk, OnErr, Ok};
ghost use Rattle.nr_spec_wire.specs.Reading.{start_of};
ghost use Rattle.nr_spec_log.specs.Authenticator.{signature, signature_at};
ghost use Rattle.nr_spec_keys.specs.Trees.{tree_of, root_of, path_of, sibling, signature_by, IsSigned};

use crate::tree::Tree;
use crate::verifying::signed_digest;
use nr_bytes::{Memory, put_bytes, put_u8, put_u32};
use nr_lamport::Seed;

// The other node under the same one.
fn sibling(n: usize) -> usize
    requires { n < 2 ^ 32 }
    ensures { result ≡ sibling n }
{
    if n % 2 == 0 { n + 1 } else { n - 1 }
}

impl Tree {
    // Appends the digests on the way from a leaf up to the root. After `Memory` some of them may stand after
    // what was there, here and in the call below.
    fn put_path(&self, leaf: u32, out: &mut Vec<u8>) -> Result<(), Memory>
        requires { leaf < 2 ^ self.now.height }
        ensures ok { OnOk result (out.new.items ≡ out.old.items ++ path_of self.now leaf) }
        ensures memory { OnErr result (take (length out.old.items) out.new.items ≡ out.old.items) }
    {
        for level in 0..self.height() {
            let n = sibling((leaf >> level) as usize);
            put_bytes(out, &self.node(level, n).0)?;
        }
        Ok(())
    }

    fn put_signature(
        &self,
        seed: &Seed,
        leaf: u32,
        body: &[u8],
        out: &mut Vec<u8>,
    ) -> Result<(), Memory>
        requires of_seed { self.now ≡ tree_of seed.now.0 self.now.height }
        requires in_tree { leaf < 2 ^ self.now.height }
        ensures ok { OnOk result (out.new.items
            ≡ out.old.items ++ signature (signature_by seed.now.0 self.now.height leaf body.now)) }
        ensures memory { OnErr result (take (length out.old.items) out.new.items ≡ out.old.items) }
        ensures least { 1 ≤ self.now.height }
        ensures most { self.now.height ≤ 16 }
    {
        let height = self.height();
        put_u32(out, leaf)?;
        put_u8(out, height)?;
        nr_lamport::sign(seed, leaf, &signed_digest(body), out)?;
        self.put_path(leaf, out)
    }

    /// Appends the signature of a body by a leaf, with the seed that the tree was built from. A leaf must not
    /// sign two bodies. `Memory` leaves the vector as it was.
    pub fn sign(&self, seed: &Seed, leaf: u32, body: &[u8], out: &mut Vec<u8>) -> Result<(), Memory>
        requires of_seed { self.now ≡ tree_of seed.now.0 self.now.height }
        requires in_tree { leaf < 2 ^ self.now.height }
        ensures ok { OnOk result (out.new.items
            ≡ out.old.items ++ signature (signature_by seed.now.0 self.now.height leaf body.now)) }
        // It is signed under the root.
        ensures signed { IsSigned (root_of self.now) body.now (signature_by seed.now.0 self.now.height leaf body.now) }
        // What was appended reads as this signature, to its end.
        ensures reads { OnOk result (let written = drop (length out.old.items) out.new.items in
            signature_at (start_of written)
            ≡ Ok (signature_by seed.now.0 self.now.height leaf body.now, record { at = length written; rest = [] })) }
        ensures memory { OnErr result (out.new.items ≡ out.old.items) }
    {
        let before = out.len();
        let signed = self.put_signature(seed, leaf, body, out);
        if signed.is_err() {
            out.truncate(before);
        }
        signed
    }
}
