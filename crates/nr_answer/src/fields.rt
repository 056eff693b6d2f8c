//! Fields that more than one format has.

ghost use Rattle.std.specs.Prelude.{◌≡◌, length};
ghost use Rattle.nr_spec_wire.specs.Reading.{Reads, IsOnward, bytes_at};
ghost use Rattle.nr_spec_log.specs.Authenticator.{digest_size, magic_at};
ghost use Rattle.nr_bytes.specs.Views.{offset_of};
ghost use Rattle.nr_chain.specs.Views.{digest_bytes};

use nr_bytes::{Cursor, Place};
use nr_chain::Digest;

fn digest_from(bytes: &[u8]) -> Digest
    requires { length bytes.now ≡ 32 }
    ensures { result.0 ≡ bytes.now }
{
    let mut digest = [0u8; 32];
    digest.copy_from_slice(bytes);
    Digest(digest)
}

/// A digest.
pub fn read_digest(cursor: &mut Cursor<'_>) -> Result<Digest, Place>
    ensures value { Reads digest_bytes offset_of result cursor.new (bytes_at digest_size cursor.old) }
    ensures onward { IsOnward cursor.old cursor.new }
{
    let bytes = cursor.take(32)?;
    Ok(digest_from(bytes))
}

/// The four bytes with which a file begins.
#[tactic(auto)]
pub fn read_magic<'a>(cursor: &mut Cursor<'a>, magic: &[u8; 4]) -> Result<&'a [u8], Place>
    ensures value { Reads (λ found. found.now) offset_of result cursor.new (magic_at magic.now cursor.old) }
    ensures onward { IsOnward cursor.old cursor.new }
{
    let at = cursor.at();
    let found = cursor.take(4)?;
    if found != magic.as_slice() {
        return Err(Place(at));
    }
    Ok(found)
}
