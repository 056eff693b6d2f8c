//! UPDATE messages.

ghost use Rattle.std.specs.Prelude.{◌≡◌};
ghost use Rattle.nr_bytes.specs.Views.{offset_of};
ghost use Rattle.nr_spec_wire.specs.Reading.{Reads, Answers, IsOnward, part_at};
ghost use Rattle.nr_spec_bgp.specs.Prefixes.{faults_at};
ghost use Rattle.nr_spec_bgp.specs.Messages.{sized_part_at, update_at};
ghost use Rattle.nr_spec_bgp.specs.Messages.{Updates};

use crate::prefixes::Prefixes;
use nr_attrs::Attrs;
use nr_bytes::{Cursor, Place};
use std::marker::Model;

fn take_part<'a>(cursor: &mut Cursor<'a>, size: u16, at: u64) -> Result<Cursor<'a>, Place>
    ensures value { Reads (λ part. part) offset_of result cursor.new (faults_at at (part_at size cursor.old)) }
    ensures onward { IsOnward cursor.old cursor.new }
{
    match cursor.part(u32::from(size)) {
        Ok(part) => Ok(part),
        Err(_) => Err(Place(at)),
    }
}

// A part after its length.
fn read_part<'a>(cursor: &mut Cursor<'a>) -> Result<Cursor<'a>, Place>
    ensures value { Reads (λ part. part) offset_of result cursor.new (sized_part_at cursor.old) }
    ensures onward { IsOnward cursor.old cursor.new }
{
    let at = cursor.at();
    let size = cursor.read_u16()?;
    take_part(cursor, size, at)
}

/// What an UPDATE says (RFC 4271, section 4.3): prefixes withdrawn, and prefixes announced with their
/// attributes.
#[derive(Drop)]
pub struct Update<'a> {
    withdrawn: Prefixes<'a>,
    attrs: Attrs<'a>,
    announced: Prefixes<'a>,
}

impl<'a> Model for Update<'a> {
    ghost use Rattle.nr_spec_bgp.specs.Messages.{Changes};

    ghost Value = { Changes };

    ghost view = { λ u. record { withdrawn = u.withdrawn; attributes = u.attrs; announced = u.announced } };
}

#[tactic(auto, unfolding(nr_spec_bgp::specs::Messages::update_at))]
pub fn read_update<'a>(body: Cursor<'a>, as4: bool) -> Result<Update<'a>, Place>
    ensures { Answers (λ u. Updates u) offset_of result (update_at as4 body.entry) }
{
    let mut cursor = body;
    let withdrawn = read_part(&mut cursor)?;
    let withdrawn = Prefixes::read(withdrawn)?;
    let block = read_part(&mut cursor)?;
    let attrs = Attrs::read_part(block, as4)?;
    if cursor.left() > 0 && !attrs.complete() {
        return Err(Place(cursor.at()));
    }
    let announced = Prefixes::read(cursor)?;
    Ok(Update {
        withdrawn,
        attrs,
        announced,
    })
}

impl<'a> Update<'a> {
    /// The withdrawn prefixes, in order.
    pub fn withdrawn(&self) -> Prefixes<'a>
        ensures { result ≡ self.now.withdrawn }
    {
        self.withdrawn.fork()
    }

    /// The announced prefixes, in order.
    pub fn announced(&self) -> Prefixes<'a>
        ensures { result ≡ self.now.announced }
    {
        self.announced.fork()
    }

    /// The attributes of the announced prefixes.
    pub fn attrs(&self) -> Attrs<'a>
        ensures { result ≡ self.now.attributes }
    {
        self.attrs.fork()
    }
}
