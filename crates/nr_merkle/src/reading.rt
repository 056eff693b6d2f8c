//! Reading a signature.

ghost use Rattle.std.specs.Prelude.{◌≡◌, ◌≤◌, ◌<◌, ◌^◌};
ghost use Rattle.std.specs.Bool.{OnTrue};
ghost use Rattle.nr_spec_wire.specs.Reading.{Reads, Gives, IsOnward};
ghost use Rattle.nr_spec_log.specs.Authenticator.{is_leaf, signature_at};
ghost use Rattle.nr_bytes.specs.Views.{offset_of};
ghost use Rattle.nr_merkle.specs.Views.{signature_of};

use crate::sig::Sig;
use nr_bytes::{Cursor, Place};

const PAIRS_SIZE: u32 = 16384;

const DIGEST_SIZE: u32 = 32;

// A tree has a height from 1 to 16, and 2^height leaves.
fn is_tree_leaf(leaf: u32, height: u8) -> bool
    ensures value { result ≡ is_leaf leaf height }
    ensures bounds { OnTrue result ((1 ≤ height) × (height ≤ 16) × (leaf < 2 ^ height)) }
{
    1 <= height && height <= 16 && leaf < 1 << height
}

// A signature. A fault may leave the cursor anywhere.
#[tactic(auto, unfolding(nr_spec_log::specs::Authenticator::signature_at))]
fn read_sig<'a>(cursor: &mut Cursor<'a>) -> Result<Sig<'a>, Place>
    ensures value { Reads signature_of offset_of result cursor.new (signature_at cursor.old) }
    ensures onward { IsOnward cursor.old cursor.new }
{
    let leaf = cursor.read_u32()?;
    let at = cursor.at();
    let height = cursor.read_u8()?;
    if !is_tree_leaf(leaf, height) {
        return Err(Place(at));
    }
    let pairs = cursor.take(PAIRS_SIZE)?;
    let path = cursor.take(DIGEST_SIZE * u32::from(height))?;
    Ok(Sig {
        leaf,
        height,
        pairs,
        path,
    })
}

impl<'a> Sig<'a> {
    /// Reads a signature, or names its first malformed field and leaves the cursor where it was.
    pub fn read(cursor: &mut Cursor<'a>) -> Result<Sig<'a>, Place>
        ensures value { Gives signature_of offset_of result cursor.old cursor.new (signature_at cursor.old) }
        ensures onward { IsOnward cursor.old cursor.new }
    {
        let mut ahead = cursor.fork();
        let sig = read_sig(&mut ahead)?;
        *cursor = ahead;
        Ok(sig)
    }
}
