//! The digest of a checkpoint body, taken piece by piece.

ghost use Rattle.std.specs.Prelude.{◌≡◌, List, Some, option_map};
ghost use Rattle.std.specs.List.{flat_map};
ghost use Rattle.byteorder.specs.Endian.{big_bytes};
ghost use Rattle.sha2.specs.Sha256.{sha256};
ghost use Rattle.nr_spec_keys.specs.Pieces.{joined};
ghost use Rattle.nr_spec_entry.specs.Contents.{flag};
ghost use Rattle.nr_spec_log.specs.Chain.{LogEntry};
ghost use Rattle.nr_spec_routes.specs.Keys.{Row, direction_number};
ghost use Rattle.nr_spec_routes.specs.Routes.{AreRowsAfter};
ghost use Rattle.nr_spec_routes.specs.Rows.{rows_after};
ghost use Rattle.nr_spec_counts.specs.Tallies.{Tally};
ghost use Rattle.nr_spec_counts.specs.Bodies.{force_bytes, oldest_bytes, neighbour_bytes, tally_piece, row_bytes, checkpoint_body};
ghost use Rattle.nr_verify_rows.specs.Hashing.{Takes};
ghost use Rattle.nr_verify_counts.specs.Kept.{IsKeptOf};
ghost use Rattle.nr_verify_counts.specs.Views.{numbers_of};

use crate::key::Key;
use crate::table::Table;
use nr_attrs::Attrs;
use nr_chain::Digest;
use nr_spec_routes::Direction;
use nr_verify_counts::{Counts, FileNumbers};
use sha2::{Digest as Hasher, Sha256};

fn hash(hasher: &mut Sha256, bytes: &[u8])
    ensures { Takes hasher.old hasher.new bytes.now }
{
    hasher.update(bytes);
}

fn hash_u8(hasher: &mut Sha256, n: u8)
    ensures { Takes hasher.old hasher.new (big_bytes 1 n) }
{
    hash(hasher, &[n]);
}

fn hash_u16(hasher: &mut Sha256, n: u16)
    ensures { Takes hasher.old hasher.new (big_bytes 2 n) }
{
    hash(hasher, &n.to_be_bytes());
}

fn hash_u32(hasher: &mut Sha256, n: u32)
    ensures { Takes hasher.old hasher.new (big_bytes 4 n) }
{
    hash(hasher, &n.to_be_bytes());
}

fn hash_u64(hasher: &mut Sha256, n: u64)
    ensures { Takes hasher.old hasher.new (big_bytes 8 n) }
{
    hash(hasher, &n.to_be_bytes());
}

#[tactic(auto, using(crate::proofs::Pieces::both))]
fn hash_promise(hasher: &mut Sha256, force: FileNumbers)
    ensures { Takes hasher.old hasher.new (force_bytes (Some (numbers_of force))) }
{
    hash_u8(hasher, 1);
    hash(hasher, &force.digest.0);
    hash_u16(hasher, force.count);
    hash_u32(hasher, force.delay);
}

// A flag, and the promise in force, or as many zeros.
fn hash_force(hasher: &mut Sha256, force: Option<FileNumbers>)
    ensures { Takes hasher.old hasher.new (force_bytes (option_map numbers_of force)) }
{
    match force {
        None => hash(hasher, &[0; 39]),
        Some(force) => hash_promise(hasher, force),
    }
}

#[tactic(auto, using(crate::proofs::Pieces::both))]
fn hash_time(hasher: &mut Sha256, time: u64)
    ensures { Takes hasher.old hasher.new (oldest_bytes (Some time)) }
{
    hash_u8(hasher, 1);
    hash_u64(hasher, time);
}

// A flag, and the time of the oldest message, or as many zeros.
fn hash_oldest(hasher: &mut Sha256, oldest: Option<u64>)
    ensures { Takes hasher.old hasher.new (oldest_bytes oldest) }
{
    match oldest {
        None => hash(hasher, &[0; 9]),
        Some(time) => hash_time(hasher, time),
    }
}

#[tactic(auto, using(crate::proofs::Pieces::both))]
fn hash_neighbour(hasher: &mut Sha256, sends: u64, acked: u64, oldest: Option<u64>)
    ensures { Takes hasher.old hasher.new (neighbour_bytes sends acked oldest) }
{
    hash_u64(hasher, sends);
    hash_u64(hasher, acked);
    hash_oldest(hasher, oldest);
}

#[tactic(auto, using(crate::proofs::Pieces::no_pieces, crate::proofs::Pieces::one_piece, crate::proofs::Pieces::kept_piece))]
fn hash_neighbours(hasher: &mut Sha256, counts: &Counts)
    ensures { (t : Tally) → IsKeptOf t counts.now → Takes hasher.old hasher.new (joined (tally_piece t) 256) }
{
    for n in 0..256 {
        hash_neighbour(hasher, counts.sends(n), counts.acked(n), counts.oldest(n));
    }
}

// How a direction is written.
fn direction_byte(direction: Direction) -> u8
    ensures { result ≡ direction_number direction }
{
    match direction {
        Direction::Received => 0,
        Direction::Sent => 1,
    }
}

// How a flag is written.
fn flag(set: bool) -> u8
    ensures { result ≡ flag set }
{
    if set { 1 } else { 0 }
}

// The lowest two bytes of a length, the higher first.
fn hash_length(hasher: &mut Sha256, length: usize)
    ensures { Takes hasher.old hasher.new (big_bytes 2 length) }
{
    hash(hasher, &[(length / 256 % 256) as u8, (length % 256) as u8]);
}

fn hash_row(hasher: &mut Sha256, key: &Key, attrs: &Attrs<'_>)
    ensures { Takes hasher.old hasher.new (row_bytes (key.now, attrs.now)) }
{
    hash_u8(hasher, key.prefix.len());
    hash_u32(hasher, key.prefix.addr());
    hash_u8(hasher, direction_byte(key.direction));
    hash_u16(hasher, key.neighbour);
    hash_u8(hasher, flag(attrs.as4()));
    let block = attrs.block();
    hash_length(hasher, block.len());
    hash(hasher, block);
}

fn hash_rows(hasher: &mut Sha256, table: &Table<'_>)
    ensures { Takes hasher.old hasher.new (flat_map row_bytes table.now) }
{
    for (key, attrs) in table.iter() {
        hash_row(hasher, key, attrs);
    }
}

/// The SHA-256 (FIPS 180-4) of the checkpoint body after entries, where these are the routes and the counts that they
/// leave. No memory is taken.
pub fn body_digest(table: &Table<'_>, counts: &Counts) -> Digest
    ensures { (t : Tally) (base : List Row) (past : List LogEntry) → IsKeptOf t counts.now
        → AreRowsAfter base past table.now → result.0 ≡ sha256 (checkpoint_body t (rows_after base past)) }
{
    let mut hasher = Sha256::new();
    hash_u64(&mut hasher, counts.last_time());
    hash_force(&mut hasher, counts.in_force());
    hash_u64(&mut hasher, counts.commits());
    hash_neighbours(&mut hasher, counts);
    hash_u64(&mut hasher, table.len() as u64);
    hash_rows(&mut hasher, table);
    Digest(hasher.finalize())
}
