//! Digests and the chain. Expected values come from FIPS 180-4's examples and from another program.

use nr_chain::{Digest, Entry, Item, Walk, genesis, link, sha256};

/// Whether the digest is the one that this text spells.
pub fn is_hex(digest: &Digest, text: &str) -> bool {
    let mut bytes = [0u8; 32];
    hex::decode_to_slice(text, &mut bytes).is_ok() && digest.0 == bytes
}

const DIGESTS: [(&str, &str); 3] = [
    (
        "",
        "e3b0c44298fc1c149afbf4c8996fb92427ae41e4649b934ca495991b7852b855",
    ),
    (
        "abc",
        "ba7816bf8f01cfea414140de5dae2223b00361a396177a9cb410ff61f20015ad",
    ),
    (
        "abcdbcdecdefdefgefghfghighijhijkijkljklmklmnlmnomnopnopq",
        "248d6a61d20638b8e5c026930c3e6039a33ce45964ff2167f6ecedd419db06c1",
    ),
];

#[test]
fn digests(rt: HostRuntime) {
    for (text, digest) in &DIGESTS {
        assert!(rt; is_hex(&sha256(text.as_bytes()), digest), "{text}");
    }
}

const GENESIS: &str = "30d47d2b332025cb885b0a9450cb419bb9d806f2816bd7bcb314c655d92ce1bf";

const LINKED: &str = "2e0947d1779eb391084d461876036855066ab931ee4b153c19de398ef34f47e5";

const TIME: u64 = 12_000_000;

// Whether a walk from entry 1 on, after a value of zeros, gives this value for an item.
fn walks_to(item: &Item<'_>, linked: &Digest) -> bool {
    let mut walk = Walk::new(Digest([0; 32]), 1);
    walk.next_seq() == 1
        && walk.push(item) == *linked
        && walk.value() == *linked
        && walk.next_seq() == 2
}

fn walks_on() -> bool {
    let digest = sha256(b"");
    let linked = link(&Digest([0; 32]), 1, TIME, 1, &digest);
    let shown = Item::Shown(Entry {
        time: TIME,
        kind: 1,
        content: b"",
    });
    let hidden = Item::Hidden {
        time: TIME,
        kind: 1,
        digest,
    };
    is_hex(&linked, LINKED) && walks_to(&shown, &linked) && walks_to(&hidden, &linked)
}

#[test]
fn links(rt: HostRuntime) {
    assert!(rt; is_hex(&genesis(64500), GENESIS));
    assert!(rt; walks_on());
}
