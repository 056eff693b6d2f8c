//! The tape of a trial.

ghost use Rattle.std.specs.Prelude.{◌≡◌, ◌*◌, ◌++◌, ◌<◌, ◌≤◌, ◌^◌, [], ◌∷◌, length, OnOk, IfOk};
ghost use Rattle.nr_spec_bgp.specs.Prefixes.{Cidr};
ghost use Rattle.nr_spec_tape.specs.Tape.{community, is_sent, is_withdrawal, sender, tape, tape_block, tape_prefix, tape_record, tape_update};
ghost use Rattle.nr_world.specs.Views.{drawn_of};

use crate::drawn::{Drawn, draw, words_of};
use nr_bgp::{WriteError, write_update};
use nr_bytes::{Memory, put_bytes, put_u32};
use nr_mrt::write_message;
use nr_prefix::Prefix;
use std::alloc::Global;

const NETWORK: u32 = 64_500;

const NETWORK_ADDRESS: u32 = 0xc000_0209;

const FIRST_NEIGHBOUR: u32 = 64_501;

const FIRST_ADDRESS: u32 = 0xc000_0201;

const FIRST_PREFIX: u32 = 0x0a00_0000;

const COMMUNITY: u32 = 65_000 << 16;

const SECOND: u64 = 1_000_000;

// Whether the network sends it.
fn is_sent(drawn: Drawn) -> bool
    ensures { result ≡ is_sent (drawn_of drawn) }
{
    drawn.first / 256 % 2 == 1
}

fn is_withdrawal(drawn: Drawn) -> bool
    ensures { result ≡ is_withdrawal (drawn_of drawn) }
{
    drawn.first / 512 % 4 == 0
}

// The prefix, as the one of a list.
fn put_prefix(prefixes: &mut Vec<Prefix>, drawn: Drawn) -> Result<(), Memory>
    ensures { OnOk result (prefixes.new.items ≡ prefixes.old.items ++ tape_prefix (drawn_of drawn) ∷ []) }
{
    match Prefix::new(FIRST_PREFIX + drawn.second % 4096 * 256, 24) {
        Some(prefix) => prefixes.push(prefix)?,
        None => unreachable!(),
    }
    Ok(())
}

// The AS that the path of a route consists of.
#[tactic(auto, unfolding(nr_spec_tape::specs::Tape::sender))]
fn sender(drawn: Drawn) -> u32
    ensures { result ≡ sender (drawn_of drawn) }
{
    if is_sent(drawn) {
        NETWORK
    } else {
        FIRST_NEIGHBOUR + drawn.first % 3
    }
}

#[tactic(auto, unfolding(nr_spec_tape::specs::Tape::community))]
fn community(drawn: Drawn) -> u32
    ensures { result ≡ community (drawn_of drawn) }
{
    if drawn.first / 2048 % 64 == 0 {
        COMMUNITY + 1
    } else {
        COMMUNITY + 2
    }
}

// The path attributes.
fn put_block(block: &mut Vec<u8>, drawn: Drawn) -> Result<(), Memory>
    ensures { OnOk result (block.new.items ≡ block.old.items ++ tape_block (drawn_of drawn)) }
{
    put_bytes(block, &[0x40, 1, 1, 0, 0x40, 2, 6, 2, 1])?;
    put_u32(block, sender(drawn))?;
    put_bytes(block, &[0x40, 3, 4, 192, 0, 2, 1, 0xc0, 8, 4])?;
    put_u32(block, community(drawn))
}

// The UPDATE.
#[tactic(auto, unfolding(nr_spec_tape::specs::Tape::tape_update))]
fn update_of(alloc: Global, drawn: Drawn) -> Result<Vec<u8>, Memory>
    ensures value { IfOk result (λ v. v.items ≡ tape_update (drawn_of drawn)) }
    ensures fits { OnOk result (length (tape_update (drawn_of drawn)) ≤ 65535) }
{
    let mut prefixes = Vec::new(alloc);
    put_prefix(&mut prefixes, drawn)?;
    let written = if is_withdrawal(drawn) {
        write_update(alloc, &prefixes, &[], &[])
    } else {
        let mut block = Vec::new(alloc);
        put_block(&mut block, drawn)?;
        write_update(alloc, &[], &block, &prefixes)
    };
    match written {
        Ok(update) => Ok(update),
        Err(WriteError::Memory) => Err(Memory),
        // (it is some sixty bytes long)
        Err(WriteError::TooLong(_)) => unreachable!(),
    }
}

// Appends message number i.
fn put_record(out: &mut Vec<u8>, drawn: Drawn, i: u32) -> Result<(), Memory>
    ensures { OnOk result (out.new.items ≡ out.old.items ++ tape_record (drawn_of drawn) i) }
{
    let alloc = *out.allocator();
    let update = update_of(alloc, drawn)?;
    let neighbour = drawn.first % 3;
    write_message(
        out,
        u64::from(i) * SECOND,
        FIRST_NEIGHBOUR + neighbour,
        NETWORK,
        FIRST_ADDRESS + neighbour,
        NETWORK_ADDRESS,
        is_sent(drawn),
        &update,
    )
}

/// The tape of this number, of so many messages: an MRT file (RFC 6396) of the sessions of a network, AS 64500, with three
/// neighbours, a message a second from time 0. The same number and size give the same tape on each machine.
#[tactic(auto, unfolding(nr_spec_tape::specs::Tape::tape))]
pub fn tape(alloc: Global, number: u64, size: u32) -> Result<Vec<u8>, Memory>
    ensures { IfOk result (λ v. v.items ≡ tape number size) }
{
    let mut words = words_of(number);
    let mut out = Vec::new(alloc);
    for i in 0..size {
        let drawn = draw(&mut words);
        put_record(&mut out, drawn, i)?;
    }
    Ok(out)
}
