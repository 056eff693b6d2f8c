//! Authenticators, files of them, and answers.

use nr_answer::{Answer, Auth, Auths, Entries};
use nr_bytes::{Cursor, Place, put_bytes};
use nr_chain::Digest;
use std::alloc::Global;

// Of how many bytes the pairs and the path of a signature are.
const PAIRS_PATH: usize = 512 * 32 + 32;

// Up to its pairs, an authenticator of seq 5 and time 9, and one of seq 6 and time 10.
const FIFTH: &[u8] =
    b"\0\0\xfb\xf4\0\0\0\0\0\0\0\x05\0\0\0\0\0\0\0\x09\x03\x03\x03\x03\x03\x03\x03\x03\x03\x03\x03\x03\x03\x03\x03\x03\x03\x03\x03\x03\x03\x03\x03\x03\x03\x03\x03\x03\x03\x03\x03\x03\0\0\0\x01\x01";

const SIXTH: &[u8] =
    b"\0\0\xfb\xf4\0\0\0\0\0\0\0\x06\0\0\0\0\0\0\0\x0a\x03\x03\x03\x03\x03\x03\x03\x03\x03\x03\x03\x03\x03\x03\x03\x03\x03\x03\x03\x03\x03\x03\x03\x03\x03\x03\x03\x03\x03\x03\x03\x03\0\0\0\x01\x01";

fn put_auth(out: &mut Vec<u8>, opening: &[u8]) -> bool {
    put_bytes(out, opening).is_ok() && out.resize(out.len().saturating_add(PAIRS_PATH), 7).is_ok()
}

// Up to its end, an answer that starts at a checkpoint, entry 4, with entry 5 after its checkpoint, but for its head.
const ANSWER: &[u8] =
    b"NRA1\0\0\xfb\xf4\0\0\0\0\0\0\0\x04\x02\x02\x02\x02\x02\x02\x02\x02\x02\x02\x02\x02\x02\x02\x02\x02\x02\x02\x02\x02\x02\x02\x02\x02\x02\x02\x02\x02\x02\x02\x02\x02\x01\0\0\0\x03any\
      \0\0\0\x02\0\0\0\0\0\0\0\x06\x06\0\x20\x01\x01\x01\x01\x01\x01\x01\x01\x01\x01\x01\x01\x01\x01\x01\x01\x01\x01\x01\x01\x01\x01\x01\x01\x01\x01\x01\x01\x01\x01\x01\x01\
      \0\0\0\0\0\0\0\x09\xc8\0\0";

fn has_numbers(answer: &Answer<'_>) -> bool {
    answer.asn() == 64500 && answer.first() == 4 && answer.count() == 2 && answer.head().seq == 5
}

fn has_body(answer: &Answer<'_>) -> bool {
    match answer.body() {
        Some((Place(at), body)) => at == 53 && body == b"any".as_slice(),
        None => false,
    }
}

// Whether the next entry has this time and kind, and a content of so many bytes.
fn next_is(entries: &mut Entries<'_>, time: u64, kind: u8, len: usize) -> bool {
    match entries.next() {
        Some(entry) => entry.time == time && entry.kind == kind && entry.content.len() == len,
        None => false,
    }
}

fn has_entries(answer: &Answer<'_>) -> bool {
    let mut entries = answer.entries();
    next_is(&mut entries, 6, 6, 32) && next_is(&mut entries, 9, 200, 0) && entries.next().is_none()
}

fn reads_answer(bytes: &[u8]) -> bool {
    match Answer::read(bytes) {
        Ok(answer) => {
            has_numbers(&answer)
                && answer.prev() == Digest([2; 32])
                && has_body(&answer)
                && has_entries(&answer)
        }
        Err(_) => false,
    }
}

fn puts_and_reads(alloc: Global) -> bool {
    let mut bytes = Vec::new(alloc);
    put_bytes(&mut bytes, ANSWER).is_ok() && put_auth(&mut bytes, FIFTH) && reads_answer(&bytes)
}

#[test]
fn an_answer_from_a_checkpoint(rt: HostRuntime) {
    assert!(rt; puts_and_reads(rt.alloc()));
}

fn is_auth(auth: Option<Auth<'_>>, seq: u64, time: u64) -> bool {
    match auth {
        Some(auth) => auth.seq == seq && auth.time == time && auth.whole.len() == 16_473,
        None => false,
    }
}

fn reads_auths(bytes: &[u8]) -> bool {
    match Auths::read(bytes) {
        Ok(file) => {
            let mut auths = file.iter();
            is_auth(auths.next(), 5, 9) && is_auth(auths.next(), 6, 10) && auths.next().is_none()
        }
        Err(_) => false,
    }
}

// Whether an authenticator that is cut after 96 bytes is malformed at its pairs.
fn reads_no_part(bytes: &[u8]) -> bool {
    let mut cursor = Cursor::new(bytes.get(4..100).unwrap_or(&[]));
    matches!(Auth::read(&mut cursor), Err(Place(57))) && cursor.at() == 0
}

fn puts_and_reads_auths(alloc: Global) -> bool {
    let mut bytes = Vec::new(alloc);
    put_bytes(&mut bytes, b"NRT1").is_ok()
        && put_auth(&mut bytes, FIFTH)
        && put_auth(&mut bytes, SIXTH)
        && reads_auths(&bytes)
        && reads_no_part(&bytes)
}

#[test]
fn an_authenticator_file(rt: HostRuntime) {
    assert!(rt; puts_and_reads_auths(rt.alloc()));
}
