//! The log that a file holds.

ghost use Rattle.std.specs.Prelude.{◌≡◌, ◌≤◌, ◌+◌, ◌++◌, ◌∷◌, [], Some, None, Ok, IfOk, IfSome, OnOk, length, map};
ghost use Rattle.nr_spec_wire.specs.Reading.{IsBytes};
ghost use Rattle.nr_spec_plans.specs.Disk.{Told, bytes_of};
ghost use Rattle.nr_spec_plans.specs.Plans.{Runs};
ghost use Rattle.nr_spec_log.specs.Answer.{AreEntriesFrom, last_time};
ghost use Rattle.nr_spec_store.specs.LogFile.{IsLog, MayFollow, batch, log_of, most_log, spelled};
ghost use Rattle.nr_spec_store.specs.StorePlans.{append_plan, birth_plan, load_plan, understood};
ghost use Rattle.nr_chain.specs.Views.{entry_of};
ghost use Rattle.nr_store.specs.Views.{Extends, Settles, appended, loaded};
ghost use Rattle.nr_store.specs.Walks.{HaveSizes};

use crate::entries::{StoreEntries, begin};
use crate::fault::{AppendError, LoadError};
use crate::reading::{OPEN, check_batches, is_born_file, read_front};
use crate::spelling::{birth_bytes, put_batch, spell_entries};
use crate::writes::{MOST, close_birth, permit, write_gated};
use nr_bytes::{Cursor, List};
use nr_chain::{Digest, Entry};
use nr_ports::{Files, read_whole};
use std::alloc::Global;
use std::marker::Model;

/// The log that a file holds. It has the file's bytes up to the closed gate after the last batch.
#[derive(Drop)]
pub struct Store {
    alloc: Global,
    asn: u32,
    root: Digest,
    bytes: Vec<u8>,
}

impl Model for Store {
    ghost use Rattle.std.specs.Prelude.{◌≡◌, ◌≤◌, length, Some, Ok};
    ghost use Rattle.nr_spec_store.specs.LogFile.{LogFile, log_of, most_log};
    ghost use Rattle.nr_store.specs.Walks.{entries_in};

    ghost Value = { LogFile };

    ghost view = { λ s. record {
      asn = s.asn;
      root = s.root.0;
      entries = entries_in (log_of s.bytes.items);
      front = s.bytes.items;
    } };

    ghost invariant = { λ s. (log_of s.bytes.items ≡ Ok (Some (record {
      asn = s.asn;
      root = s.root.0;
      entries = entries_in (log_of s.bytes.items);
      front = s.bytes.items;
    }))) × (length s.bytes.items ≤ most_log) };
}

// The same slice. The bytes of a vector are bytes.
fn bytes_in(bytes: &[u8]) -> &[u8]
    ensures same { result.now ≡ bytes.now }
    ensures bytes { IsBytes bytes.now }
{
    bytes
}

// The log of a file's bytes.
fn open(alloc: Global, bytes: Vec<u8>) -> Result<Option<Store>, LoadError>
    requires { length bytes.items ≤ most_log }
    ensures log { IfOk result (λ found. IfSome found (λ store. IsLog store)) }
    ensures gives { Settles (λ store. store) result (understood (log_of bytes.items)) }
{
    if !is_born_file(&bytes) {
        return Ok(None);
    }
    let mut cursor = Cursor::new(bytes_in(&bytes));
    let front = match read_front(&mut cursor) {
        Ok(front) => front,
        Err(place) => return Err(LoadError::At(place)),
    };
    let end = match check_batches(&cursor) {
        Ok(end) => end,
        Err(place) => return Err(LoadError::At(place)),
    };
    let mut bytes = bytes;
    bytes.truncate(end as usize);
    Ok(Some(Store {
        alloc,
        asn: front.asn,
        root: front.root,
        bytes,
    }))
}

// Puts a batch and a closed gate after a log's bytes, where the file stays within its limit.
fn extend(alloc: Global, bytes: &mut Vec<u8>, entries: &List<Entry<'_>>) -> Result<(), AppendError>
    requires sizes { HaveSizes (map entry_of entries.now) }
    requires limit { length bytes.old.items ≤ most_log }
    ensures grown { OnOk result (bytes.new.items ≡ bytes.old.items ++ (batch (map entry_of entries.now) ++ 0 ∷ [])) }
    ensures ends { Extends (length bytes.old.items + length (spelled (map entry_of entries.now)) + 5) result }
{
    let batch = spell_entries(alloc, entries)?;
    let size = bytes.len() as u64 + batch.len() as u64 + 5;
    if MOST < size {
        return Err(AppendError::Limit(size));
    }
    put_batch(bytes, &batch)?;
    Ok(())
}

impl Store {
    /// Reads the log of a file: its entries are those of all batches up to the first closed gate. `None` exactly where
    /// the log isn't born. Where the file is there it is synced first, so that a crash leaves what was read.
    #[tactic(auto, using(nr_spec_plans::proofs::PlanLemmas::planning), unfolding(nr_spec_store::specs::StorePlans::load_plan, nr_spec_store::specs::StorePlans::found_plan, nr_spec_store::specs::StorePlans::within_limit, nr_spec_plans::specs::Plans::Runs, nr_spec_plans::specs::Plans::followed_by))]
    pub fn load<F: Files>(
        alloc: Global,
        files: &mut F,
        name: &str,
    ) -> Result<Option<Store>, LoadError>
        ensures log { IfOk result (λ found. IfSome found (λ store. IsLog store)) }
        ensures runs { Runs (load_plan name.now) (F.disk files.old) (F.disk files.new) (loaded (λ store. store) result) }
    {
        let Some(size) = files.size(name)? else {
            return Ok(None);
        };
        if MOST < size {
            return Err(LoadError::Limit(size));
        }
        files.sync(name)?;
        let bytes = read_whole(alloc, files, name, size)?;
        open(alloc, bytes)
    }

    /// Makes a log without entries, after a load that gave `None`. A crash at any moment of it leaves no log, or one
    /// without entries. After an error the file has to be loaded again.
    #[tactic(auto, using(nr_spec_plans::proofs::PlanLemmas::planning), unfolding(nr_spec_store::specs::StorePlans::birth_plan, nr_spec_plans::specs::Plans::Runs, nr_spec_plans::specs::Plans::followed_by))]
    pub fn birth<F: Files>(
        alloc: Global,
        files: &mut F,
        name: &str,
        asn: u32,
        root: &Digest,
    ) -> Result<Store, AppendError>
        requires { (t : Told) → (F.disk files.old).told ≡ Some t → log_of (bytes_of (t.holds name.now)) ≡ Ok None }
        ensures { Runs (birth_plan name.now asn root.now.0) (F.disk files.old) (F.disk files.new)
            (appended (λ store. store) result) }
    {
        let bytes = birth_bytes(alloc, asn, root)?;
        let size = files.size(name)?.unwrap_or(0);
        permit(size)?;
        close_birth(files, name, size)?;
        write_gated(files, name, 1, &bytes[1..])?;
        Ok(Store {
            alloc,
            asn,
            root: *root,
            bytes,
        })
    }

    /// The AS whose log it is.
    pub fn asn(&self) -> u32
        ensures { result ≡ self.now.asn }
    {
        self.asn
    }

    /// The root of the key with which it is signed.
    pub fn root(&self) -> Digest
        ensures { result.0 ≡ self.now.root }
    {
        self.root
    }

    /// The entries, in order. They borrow the store's bytes, and their times never run back.
    pub fn entries(&self) -> StoreEntries<'_>
        ensures value { result ≡ self.now.entries }
        ensures fit { AreEntriesFrom 0 result }
        ensures few { length result ≤ most_log }
    {
        let mut beyond = Cursor::new(bytes_in(&self.bytes));
        match read_front(&mut beyond) {
            Ok(_) => {}
            Err(_) => unreachable!(),
        }
        begin(beyond)
    }

    /// Adds a batch: it is written, and its gate is opened once it is on the disk, by four calls and no other. A crash
    /// at any moment of it leaves the entries before it, or those with the whole batch. After an error the file has to
    /// be loaded again.
    #[tactic(auto, using(nr_spec_plans::proofs::PlanLemmas::planning), unfolding(nr_spec_store::specs::StorePlans::append_plan, nr_spec_plans::specs::Plans::Runs, nr_spec_plans::specs::Plans::followed_by))]
    pub fn append<F: Files>(
        self,
        files: &mut F,
        name: &str,
        batch: &List<Entry<'_>>,
    ) -> Result<Store, AppendError>
        requires batch { MayFollow (last_time 0 self.entries) (map entry_of batch.now) }
        requires file { (t : Told) → (F.disk files.old).told ≡ Some t
            → log_of (bytes_of (t.holds name.now)) ≡ Ok (Some self) }
        ensures { Runs (append_plan name.now self (map entry_of batch.now)) (F.disk files.old) (F.disk files.new)
            (appended (λ store. store) result) }
    {
        let mut store = self;
        let end = bytes_in(&store.bytes).len();
        extend(store.alloc, &mut store.bytes, batch)?;
        write_gated(files, name, end as u64, &store.bytes[end..])?;
        store.bytes[end - 1] = OPEN;
        Ok(store)
    }
}
