//! Fields from and to bytes.

use nr_bytes::{Cursor, List, Memory, Short, put_bytes, put_u8, put_u16, put_u32, put_u64};
use std::alloc::Global;

fn put_fields(out: &mut Vec<u8>) -> Result<(), Memory> {
    put_u8(out, 7)?;
    put_u16(out, 0x0102)?;
    put_u32(out, 64500)?;
    put_u64(out, 12_000_000)?;
    put_bytes(out, b"netreview 1")
}

fn reads_numbers(cursor: &mut Cursor<'_>) -> bool {
    cursor.read_u8() == Ok(7)
        && cursor.read_u16() == Ok(0x0102)
        && cursor.read_u32() == Ok(64500)
        && cursor.read_u64() == Ok(12_000_000)
}

fn reads_text(cursor: &mut Cursor<'_>) -> bool {
    let start = cursor.fork();
    cursor.take(8) == Ok(b"netrevie".as_slice())
        && cursor.read_u32() == Err(Short(23))
        && cursor.at() == 23
        && cursor.left() == 3
        && cursor.since(&start) == b"netrevie".as_slice()
}

fn reads_part(cursor: &mut Cursor<'_>) -> bool {
    match cursor.part(2) {
        Ok(mut part) => {
            part.at() == 23
                && part.take(2) == Ok(b"w ".as_slice())
                && part.read_u8() == Err(Short(25))
        }
        Err(_) => false,
    }
}

fn reads(bytes: &[u8]) -> bool {
    let mut cursor = Cursor::new(bytes);
    reads_numbers(&mut cursor)
        && reads_text(&mut cursor)
        && reads_part(&mut cursor)
        && cursor.take(1) == Ok(b"1".as_slice())
}

const SPELLED: &[u8] = b"\x07\x01\x02\0\0\xfb\xf4\0\0\0\0\0\xb7\x1b\0netreview 1";

#[test]
fn fields_are_written_and_read(rt: HostRuntime) {
    let mut out = Vec::new(rt.alloc());
    assert!(rt; put_fields(&mut out).is_ok());
    assert!(rt; out.as_slice() == SPELLED);
    assert!(rt; reads(&out));
}

fn keeps(alloc: Global) -> Result<bool, Memory> {
    let mut list: List<u16> = List::new(alloc);
    let was_empty = list.is_empty();
    list.push(5)?;
    list.push(9)?;
    Ok(
        was_empty
            && list.len() == 2
            && list.get(0) == Some(5)
            && list.get(1) == Some(9)
            && list.get(2).is_none(),
    )
}

#[test]
fn a_list_keeps_what_is_pushed(rt: HostRuntime) {
    assert!(rt; keeps(rt.alloc()) == Ok(true));
}
