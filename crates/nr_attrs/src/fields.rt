//! Attributes one after another.

ghost use Rattle.std.specs.Prelude.{◌<◌, ◌^◌, length, IfOk};
ghost use Rattle.nr_bytes.specs.Views.{offset_of};
ghost use Rattle.nr_spec_wire.specs.Reading.{Reads, IsOnward, number_at};
ghost use Rattle.nr_spec_bgp.specs.Attributes.{size_bytes, fields_at, attribute_at};
ghost use Rattle.nr_attrs.specs.Found.{placed_of};

use nr_bytes::{Cursor, Place};

/// An attribute: its type, its value, and the place of the value's first byte.
#[derive(Drop)]
pub struct Found<'a> {
    pub kind: u8,
    pub value: &'a [u8],
    pub at: u64,
}

const EXTENDED_LENGTH: u8 = 0x10;

fn read_size(cursor: &mut Cursor, flags: u8) -> Result<u16, Place>
    ensures value { Reads (λ n. n) offset_of result cursor.new (number_at (size_bytes flags) cursor.old) }
    ensures onward { IsOnward cursor.old cursor.new }
{
    if flags & EXTENDED_LENGTH == 0 {
        Ok(u16::from(cursor.read_u8()?))
    } else {
        Ok(cursor.read_u16()?)
    }
}

#[tactic(auto, unfolding(nr_spec_bgp::specs::Attributes::fields_at))]
fn read_fields<'a>(cursor: &mut Cursor<'a>) -> Result<Found<'a>, Place>
    ensures value { Reads placed_of offset_of result cursor.new (fields_at cursor.old) }
    ensures onward { IsOnward cursor.old cursor.new }
    ensures short { IfOk result (λ f. length f.value.now < 2 ^ 16) }
{
    let flags = cursor.read_u8()?;
    let kind = cursor.read_u8()?;
    let size = read_size(cursor, flags)?;
    let at = cursor.at();
    let value = cursor.take(u32::from(size))?;
    Ok(Found { kind, value, at })
}

/// One attribute. Where it doesn't fit, the fault is at its flags.
pub fn read_attribute<'a>(cursor: &mut Cursor<'a>) -> Result<Found<'a>, Place>
    ensures value { Reads placed_of offset_of result cursor.new (attribute_at cursor.old) }
    ensures onward { IsOnward cursor.old cursor.new }
    ensures short { IfOk result (λ f. length f.value.now < 2 ^ 16) }
{
    let at = cursor.at();
    match read_fields(cursor) {
        Ok(found) => Ok(found),
        Err(_) => Err(Place(at)),
    }
}
