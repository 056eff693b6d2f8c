//! Appending fields to a vector. `Memory` leaves the vector as it was.

ghost use Rattle.std.specs.Prelude.{◌≡◌, ◌++◌, OnOk, OnErr};
ghost use Rattle.byteorder.specs.Endian.{big_bytes};

use crate::fault::Memory;
use byteorder::{BigEndian, ByteOrder};

/// Appends a number of one byte.
pub fn put_u8(out: &mut Vec<u8>, v: u8) -> Result<(), Memory>
    ensures ok { OnOk result (out.new.items ≡ out.old.items ++ big_bytes 1 v) }
    ensures memory { OnErr result (out.new.items ≡ out.old.items) }
{
    put_bytes(out, &[v])
}

/// Appends a number of two bytes.
pub fn put_u16(out: &mut Vec<u8>, v: u16) -> Result<(), Memory>
    ensures ok { OnOk result (out.new.items ≡ out.old.items ++ big_bytes 2 v) }
    ensures memory { OnErr result (out.new.items ≡ out.old.items) }
{
    let mut field = [0u8; 2];
    BigEndian::write_u16(&mut field, v);
    put_bytes(out, &field)
}

/// Appends a number of four bytes.
pub fn put_u32(out: &mut Vec<u8>, v: u32) -> Result<(), Memory>
    ensures ok { OnOk result (out.new.items ≡ out.old.items ++ big_bytes 4 v) }
    ensures memory { OnErr result (out.new.items ≡ out.old.items) }
{
    let mut field = [0u8; 4];
    BigEndian::write_u32(&mut field, v);
    put_bytes(out, &field)
}

/// Appends a number of eight bytes.
pub fn put_u64(out: &mut Vec<u8>, v: u64) -> Result<(), Memory>
    ensures ok { OnOk result (out.new.items ≡ out.old.items ++ big_bytes 8 v) }
    ensures memory { OnErr result (out.new.items ≡ out.old.items) }
{
    let mut field = [0u8; 8];
    BigEndian::write_u64(&mut field, v);
    put_bytes(out, &field)
}

/// Appends bytes as they are.
pub fn put_bytes(out: &mut Vec<u8>, v: &[u8]) -> Result<(), Memory>
    ensures ok { OnOk result (out.new.items ≡ out.old.items ++ v.now) }
    ensures memory { OnErr result (out.new.items ≡ out.old.items) }
{
    out.extend_from_slice(v)?;
    Ok(())
}
