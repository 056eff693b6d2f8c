//! Key files, as they are read.

ghost use Rattle.std.specs.Prelude.{◌≡◌, ◌&&◌, nat_le};
ghost use Rattle.nr_spec_wire.specs.Reading.{Answers, IsOnward, Reads, bytes_at};
ghost use Rattle.nr_spec_log.specs.Authenticator.{magic_at};
ghost use Rattle.nr_spec_history.specs.KeyFiles.{key_magic, seed_size};
ghost use Rattle.nr_bytes.specs.Views.{offset_of};
ghost use Rattle.nr_spec_program.specs.Keys.{key_of};
ghost use Rattle.nr_spec_program.specs.Command.{well_formed, KeyInput};
ghost use Rattle.nr_spec_program.specs.Recording.{key_file_plan};
ghost use Rattle.nr_command_parts.specs.Views.{Does, Settles};
ghost use Rattle.nr_command_parts.specs.Keys.{key_view};

use crate::input::Input;
use crate::key::Key;
use crate::reading::read_input;
use crate::refusal::{Refusal, Stop};
use nr_bytes::{Cursor, Place};
use nr_lamport::Seed;
use nr_ports::Files;
use std::alloc::Global;

// The four bytes with which a key file begins.
fn read_magic(cursor: &mut Cursor<'_>) -> Result<(), Place>
    ensures value { Reads (λ _. key_magic) offset_of result cursor.new (magic_at key_magic cursor.old) }
    ensures onward { IsOnward cursor.old cursor.new }
{
    let at = cursor.at();
    if cursor.take(4)? != b"NRK1".as_slice() {
        return Err(Place(at));
    }
    Ok(())
}

// The 32 bytes of a seed.
fn read_seed(cursor: &mut Cursor<'_>) -> Result<Seed, Place>
    ensures value { Reads (λ seed. seed.0) offset_of result cursor.new (bytes_at seed_size cursor.old) }
    ensures onward { IsOnward cursor.old cursor.new }
{
    let found = cursor.take(32)?;
    let mut seed = [0u8; 32];
    seed.copy_from_slice(found);
    Ok(Seed(seed))
}

// Whether a tree may have this height.
fn is_height(height: u8) -> bool
    ensures { result ≡ (nat_le 1 height && nat_le height 16) }
{
    1 <= height && height <= 16
}

// The key that a file holds.
#[tactic(auto, unfolding(nr_spec_program::specs::Keys::key_of))]
fn key_from(bytes: &[u8]) -> Result<Key, Place>
    ensures { Answers key_view offset_of result (key_of bytes.now) }
{
    let mut cursor = Cursor::new(bytes);
    read_magic(&mut cursor)?;
    let asn = cursor.read_u32()?;
    let at = cursor.at();
    let height = cursor.read_u8()?;
    if !is_height(height) {
        return Err(Place(at));
    }
    let seed = read_seed(&mut cursor)?;
    if 0 < cursor.left() {
        return Err(Place(cursor.at()));
    }
    Ok(Key { asn, height, seed })
}

// The key that a key file holds.
fn read_key_bytes(bytes: &[u8]) -> Result<Key, Refusal>
    ensures { Settles key_view result (well_formed KeyInput (key_of bytes.now)) }
{
    match key_from(bytes) {
        Ok(key) => Ok(key),
        Err(place) => Err(Refusal::Malformed(Input::Key, place)),
    }
}

/// The key that the file of this name holds.
#[tactic(auto, using(nr_spec_plans::proofs::PlanLemmas::planning), unfolding(nr_spec_program::specs::Recording::key_file_plan, nr_spec_plans::specs::Plans::Runs, nr_spec_plans::specs::Plans::followed_by))]
pub fn read_key_file<F: Files>(alloc: Global, files: &mut F, name: &str) -> Result<Key, Stop>
    ensures { Does key_view (key_file_plan name.now) (F.disk files.old) (F.disk files.new) result }
{
    let bytes = read_input(alloc, files, Input::Key, name)?;
    Ok(read_key_bytes(&bytes)?)
}
