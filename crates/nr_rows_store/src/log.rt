//! A log in a file in memory, which is born and appended to.

ghost use Rattle.std.specs.Prelude.{◌≡◌, [], IfOk};
ghost use Rattle.nr_chain.specs.Views.{entry_of};
ghost use Rattle.nr_ports.specs.Ports.{disk_of};
ghost use Rattle.nr_rows_store.specs.Logs.{HasNone, HasThree, plain};

use nr_bytes::List;
use nr_chain::{Digest, Entry};
use nr_ports::MemFiles;
use nr_store::{AppendError, Store};
use std::alloc::Global;

/// The name of the log's file.
pub const NAME: &str = "log";

// An entry of this time, with a content of one byte.
fn at<'a>(time: u64) -> Entry<'a>
    ensures { entry_of result ≡ plain time }
{
    Entry {
        time,
        kind: 2,
        content: b"x",
    }
}

/// A log without entries.
#[tactic(auto, using(crate::proofs::Appended::none_born, crate::proofs::Appended::born_none))]
pub fn born(alloc: Global, files: &mut MemFiles) -> Result<Store, AppendError>
    requires { files.old.files ≡ [] }
    ensures { IfOk result (λ store. HasNone (disk_of files.new) store) }
{
    Store::birth(alloc, files, NAME, 64500, &Digest([1; 32]))
}

/// The log with three entries of one time.
#[tactic(auto, using(crate::proofs::Appended::held_log, crate::proofs::Appended::three_may_follow, crate::proofs::Appended::three_more))]
pub fn with_three(alloc: Global, files: &mut MemFiles, store: Store) -> Result<Store, AppendError>
    requires { HasNone (disk_of files.old) store }
    ensures { IfOk result (λ longer. HasThree (disk_of files.new) longer) }
{
    let mut batch = List::new(alloc);
    batch.push(at(1))?;
    batch.push(at(1))?;
    batch.push(at(1))?;
    store.append(files, NAME, &batch)
}

/// The log with two entries more, of a later time.
#[tactic(auto, using(crate::proofs::Appended::held_log, crate::proofs::Appended::two_may_follow))]
pub fn with_five(alloc: Global, files: &mut MemFiles, store: Store) -> Result<Store, AppendError>
    requires { HasThree (disk_of files.old) store }
{
    let mut batch = List::new(alloc);
    batch.push(at(2))?;
    batch.push(at(2))?;
    store.append(files, NAME, &batch)
}

/// A log of three entries, to which two more are appended by calls of which that of this number fails.
#[tactic(auto, using(crate::proofs::Appended::three_still))]
pub fn appended(alloc: Global, files: &mut MemFiles, failing: u64) -> Result<Store, AppendError>
    requires { files.old.files ≡ [] }
{
    let store = born(alloc, files)?;
    let store = with_three(alloc, files, store)?;
    files.fail_call(files.calls().wrapping_add(failing))?;
    with_five(alloc, files, store)
}
