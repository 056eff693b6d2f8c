//! The promise file with which a log or a slice of it begins.

ghost use Rattle.std.specs.Prelude.{◌≡◌, ◌≤◌, [], length, option_map};
ghost use Rattle.nr_chain.specs.Views.{digest_bytes};
ghost use Rattle.nr_spec_report.specs.Wrong.{Base};
ghost use Rattle.nr_spec_promises.specs.Files.{digest_of, file_after, file_with, first_promised};
ghost use Rattle.nr_judging.specs.Views.{files_in};

use crate::file::{File, file_with, promised};
use nr_answer::Entries;
use nr_chain::Digest;

/// The number of the file of the first PROMISE among entries. It looks no further.
#[tactic(auto, using(crate::proofs::Walking::first_here, crate::proofs::Walking::first_later, crate::proofs::Walking::first_nowhere))]
pub fn first_file(files: &[File<'_>], entries: Entries<'_>) -> Option<u16>
    requires { length files.now ≤ 16 }
    ensures { result ≡ file_with (files_in files.now) (first_promised entries.entry) }
{
    for entry in entries {
        if let Some(digest) = promised(&entry) {
            return file_with(files, &digest);
        }
    }
    None
}

/// The number of the file to which the state before entries belongs: that of the promise in force there, or, where none
/// is, that of the first PROMISE among the entries.
#[tactic(auto, using(crate::proofs::Files::file_in_force, crate::proofs::Files::file_opens))]
pub fn opening_file(
    files: &[File<'_>],
    in_force: Option<Digest>,
    entries: Entries<'_>,
) -> Option<u16>
    requires { length files.now ≤ 16 }
    ensures { (base : Base) → option_map digest_bytes in_force ≡ option_map digest_of base.tally.in_force
        → result ≡ file_after (files_in files.now) base (first_promised entries.entry) [] }
{
    match in_force {
        Some(digest) => file_with(files, &digest),
        None => first_file(files, entries),
    }
}
