//! The tape of a trial. What is expected was made by another program, from the rule in words and RFC 8439.

use hex::decode;
use nr_world::tape;

// The first three messages of tape 1: sent to the third neighbour, and heard from the first and the third.
const THREE: &str = concat!(
    "00000000001100070000004e000000000000fbf70000fbf400000001c0000203c0000209",
    "ffffffffffffffffffffffffffffffff003602",
    "0000001b4001010040020602010000fbf4400304c0000201c00804fde80002180a0ce1",
    "000000010011000400000033000000000000fbf50000fbf400000001c0000201c0000209",
    "ffffffffffffffffffffffffffffffff001b020004180a077d0000",
    "000000020011000700000033000000000000fbf70000fbf400000001c0000203c0000209",
    "ffffffffffffffffffffffffffffffff001b020004180a0a230000",
);

#[test]
fn a_tape_is_drawn_by_its_number(rt: HostRuntime) {
    let first = tape(rt.alloc(), 1, 3).expect(&rt, "memory");
    let expected = decode(rt.alloc(), THREE).expect(&rt, "hexadecimal digits");
    assert!(rt; *first == *expected);
    let longer = tape(rt.alloc(), 1, 1000).expect(&rt, "memory");
    assert!(rt; longer.len() == 82_548);
}
