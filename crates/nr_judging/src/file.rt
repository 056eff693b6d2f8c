//! Promise files, and which of them the state of a log belongs to.

ghost use Rattle.std.specs.Prelude.{◌≡◌, ◌++◌, ◌∷◌, [], ◌≤◌, ◌<◌, ℕ, List, Option, Some, IfSome, length, option_map, position};
ghost use Rattle.nr_chain.specs.Views.{digest_bytes, entry_of};
ghost use Rattle.nr_spec_log.specs.Chain.{LogEntry};
ghost use Rattle.nr_spec_report.specs.Wrong.{Base};
ghost use Rattle.nr_spec_promises.specs.Files.{file_after, file_with, has_digest, promised};
ghost use Rattle.nr_judging.specs.Views.{file_of, files_in};

use nr_chain::{Digest, Entry};
use nr_entry::Content;
use nr_spec_typing::Promise;

/// A promise file: its digest, and its promises by their numbers from 0.
#[derive(Clone, Copy)]
pub struct File<'a> {
    pub digest: Digest,
    pub promises: &'a [Promise],
}

// The place of the first file with a digest.
fn place_of(files: &[File<'_>], digest: &Digest) -> Option<usize>
    ensures value { result ≡ position (λ f. has_digest digest.now.0 (file_of f)) files.now }
    ensures bound { IfSome result (λ n. n < length files.now) }
{
    files
        .iter()
        .position(|file| file.digest.0.as_slice() == digest.0.as_slice())
}

/// The number of the first file with a digest.
pub fn file_with(files: &[File<'_>], digest: &Digest) -> Option<u16>
    requires { length files.now ≤ 16 }
    ensures { result ≡ file_with (files_in files.now) (Some digest.now.0) }
{
    match place_of(files, digest) {
        Some(n) => Some(n as u16),
        None => None,
    }
}

/// The digest of an entry that is a PROMISE in the grammar.
pub fn promised(entry: &Entry<'_>) -> Option<Digest>
    ensures { option_map digest_bytes result ≡ promised (entry_of entry.now) }
{
    match nr_entry::read(entry.kind, entry.content) {
        Some(Content::Promise { file, .. }) => Some(file),
        _ => None,
    }
}

/// The number of the file to which the state after an entry belongs, by that to which the state before it belongs.
#[tactic(auto, using(crate::proofs::Files::file_next, crate::proofs::Files::file_stays))]
pub fn file_after(files: &[File<'_>], before: Option<u16>, entry: &Entry<'_>) -> Option<u16>
    requires { length files.now ≤ 16 }
    ensures { (base : Base) (first : Option (List ℕ)) (past : List LogEntry)
        → before ≡ file_after (files_in files.now) base first past
        → result ≡ file_after (files_in files.now) base first (past ++ entry_of entry.now ∷ []) }
{
    match promised(entry) {
        Some(digest) => file_with(files, &digest),
        None => before,
    }
}
