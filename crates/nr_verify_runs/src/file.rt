//! Promise files, and which of them the state of a log belongs to.

ghost use Rattle.std.specs.Prelude.{◌≡◌, ◌++◌, ◌∷◌, [], ◌≤◌, ◌<◌, ℕ, List, Option, Some, IfSome, length, option_map, position};
ghost use Rattle.nr_chain.specs.Views.{digest_bytes, entry_of};
ghost use Rattle.nr_spec_log.specs.Chain.{LogEntry};
ghost use Rattle.nr_spec_report.specs.Wrong.{Base};
ghost use Rattle.nr_spec_promises.specs.Files.{file_after, file_with, first_promised, has_digest, promised};
ghost use Rattle.nr_verify_runs.specs.Views.{file_of, files_in};

use nr_answer::Entries;
use nr_chain::{Digest, Entry};
use nr_entry::Content;
use nr_spec_typing::{Neighbour, Promise};

/// A promise text: the AS whose promises it has, the digest of its file, how many neighbours it has, its commit delay in
/// seconds, its neighbours, and its promises by their numbers from 0.
#[derive(Clone, Copy)]
pub struct Text<'a> {
    pub network: u32,
    pub digest: Digest,
    pub count: u16,
    pub delay: u32,
    pub neighbours: &'a [Neighbour],
    pub promises: &'a [Promise],
}

// The place of the first file with a digest.
fn place_of(files: &[Text<'_>], digest: &Digest) -> Option<usize>
    ensures value { result ≡ position (λ f. has_digest digest.now.0 (file_of f)) files.now }
    ensures bound { IfSome result (λ n. n < length files.now) }
{
    files
        .iter()
        .position(|file| file.digest.0.as_slice() == digest.0.as_slice())
}

/// The number of the first file with a digest.
pub fn file_with(files: &[Text<'_>], digest: &Digest) -> Option<u16>
    requires { length files.now ≤ 16 }
    ensures { result ≡ file_with (files_in files.now) (Some digest.now.0) }
{
    match place_of(files, digest) {
        Some(n) => Some(n as u16),
        None => None,
    }
}

/// The digest of an entry that is a PROMISE in the grammar.
pub fn promised(entry: &Entry<'_>) -> Option<Digest>
    ensures { option_map digest_bytes result ≡ promised (entry_of entry.now) }
{
    match nr_entry::read(entry.kind, entry.content) {
        Some(Content::Promise { file, .. }) => Some(file),
        _ => None,
    }
}

/// The number of the file to which the state after an entry belongs, by that to which the state before it belongs.
#[tactic(auto, using(crate::proofs::Files::file_next, crate::proofs::Files::file_stays))]
pub fn file_after(files: &[Text<'_>], before: Option<u16>, entry: &Entry<'_>) -> Option<u16>
    requires { length files.now ≤ 16 }
    ensures { (base : Base) (first : Option (List ℕ)) (past : List LogEntry)
        → before ≡ file_after (files_in files.now) base first past
        → result ≡ file_after (files_in files.now) base first (past ++ entry_of entry.now ∷ []) }
{
    match promised(entry) {
        Some(digest) => file_with(files, &digest),
        None => before,
    }
}

/// The number of the file of the first PROMISE among entries. It looks no further.
#[tactic(auto, using(crate::proofs::Files::first_here, crate::proofs::Files::first_later, crate::proofs::Files::first_nowhere))]
pub fn first_file(files: &[Text<'_>], entries: Entries<'_>) -> Option<u16>
    requires { length files.now ≤ 16 }
    ensures { result ≡ file_with (files_in files.now) (first_promised entries.entry) }
{
    for entry in entries {
        if let Some(digest) = promised(&entry) {
            return file_with(files, &digest);
        }
    }
    None
}
