//! Why an entry is wrong.

ghost use Rattle.std.specs.Prelude.{◌≡◌, List, Some, option_map, map};
ghost use Rattle.nr_chain.specs.Views.{entry_of};
ghost use Rattle.nr_entry.specs.Views.{content_view};
ghost use Rattle.nr_spec_entry.specs.Contents as contents;
ghost use Rattle.nr_spec_entry.specs.ContentReading.{content_of};
ghost use Rattle.nr_spec_routes.specs.Keys.{Row};
ghost use Rattle.nr_spec_counts.specs.Tallies.{Tally};
ghost use Rattle.nr_spec_counts.specs.Causes.{is_declared, is_stranger, is_wrong_ack, is_wrong_leaf, file_with, are_other_numbers, is_wrong_promise, leaves_overdue, is_wrong_checkpoint, cause_in, cause_of};
ghost use Rattle.nr_verify_counts.specs.Digests.{IsDigestFor, is_checkpoint};
ghost use Rattle.nr_verify_counts.specs.Kept.{IsKeptOf};
ghost use Rattle.nr_verify_counts.specs.Views.{numbers_of};

use crate::counts::Counts;
use crate::numbers::FileNumbers;
use nr_chain::{Digest, Entry};
use nr_entry::{AUDITOR, Content, PROMISE};
use nr_spec_counts::Cause;

fn is_declared(force: Option<FileNumbers>, neighbour: u16) -> bool
    ensures { result ≡ is_declared (option_map numbers_of force) neighbour }
{
    match force {
        Some(force) => neighbour < force.count,
        None => false,
    }
}

fn is_stranger(force: Option<FileNumbers>, content: &Content<'_>) -> bool
    ensures { result ≡ is_stranger (option_map numbers_of force) (content_view content.now) }
{
    match content {
        Content::Send { neighbour, .. }
        | Content::Recv { neighbour, .. }
        | Content::State { neighbour, .. }
        | Content::Ack { neighbour, .. } => !is_declared(force, *neighbour),
        Content::Commit { neighbour, .. } => {
            !(*neighbour == AUDITOR || is_declared(force, *neighbour))
        }
        Content::Checkpoint { .. } | Content::Promise { .. } => false,
    }
}

fn is_wrong_ack(counts: &Counts, content: &Content<'_>) -> bool
    requires { contents.IsContent (content_view content.now) }
    ensures { (t : Tally) → IsKeptOf t counts.now → result ≡ is_wrong_ack t (content_view content.now) }
{
    match content {
        Content::Ack {
            neighbour,
            upto,
            ..
        } => *upto < counts.acked(*neighbour) || counts.sends(*neighbour) < *upto,
        _ => false,
    }
}

fn is_wrong_leaf(counts: &Counts, content: &Content<'_>) -> bool
    ensures { (t : Tally) → IsKeptOf t counts.now → result ≡ is_wrong_leaf t (content_view content.now) }
{
    match content {
        Content::Commit { leaf, .. } => u64::from(*leaf) != counts.commits(),
        _ => false,
    }
}

// The first of promise files that has the digest.
#[tactic(auto, using(crate::proofs::Files::file_here, crate::proofs::Files::file_later))]
fn file_with(digest: &Digest, files: &[FileNumbers]) -> Option<FileNumbers>
    ensures { option_map numbers_of result ≡ file_with digest.now.0 (map numbers_of files.now) }
{
    for file in files {
        if digest.0 == file.digest.0 {
            return Some(*file);
        }
    }
    None
}

fn are_other_numbers(count: u16, delay: u32, file: Option<FileNumbers>) -> bool
    ensures { result ≡ are_other_numbers count delay (option_map numbers_of file) }
{
    match file {
        Some(file) => !(count == file.count && delay == file.delay),
        None => false,
    }
}

fn is_wrong_promise(files: &[FileNumbers], content: &Content<'_>) -> bool
    ensures { result ≡ is_wrong_promise (map numbers_of files.now) (content_view content.now) }
{
    match content {
        Content::Promise { file, count, delay } => {
            are_other_numbers(*count, *delay, file_with(file, files))
        }
        _ => false,
    }
}

fn leaves_overdue(lowest: Option<u16>, content: &Content<'_>) -> bool
    ensures { result ≡ leaves_overdue lowest (content_view content.now) }
{
    match (lowest, content) {
        (None, _) => false,
        (Some(n), Content::Commit { neighbour, .. }) => *neighbour != n,
        (Some(_), _) => true,
    }
}

// Whether a CHECKPOINT has another digest.
fn is_other_digest(digest: &Digest, content: &Content<'_>) -> bool
    ensures { (t : Tally) (rows : List Row) → IsDigestFor (Some (content_view content.now)) t rows digest.now.0
        → result ≡ is_wrong_checkpoint t rows (content_view content.now) }
{
    match content {
        Content::Checkpoint { body } => body.0 != digest.0,
        _ => false,
    }
}

/// Whether an entry is a CHECKPOINT in the grammar.
pub fn is_checkpoint(entry: &Entry<'_>) -> bool
    ensures { result ≡ is_checkpoint (content_of (entry_of entry.now)) }
{
    match nr_entry::read(entry.kind, entry.content) {
        Some(Content::Checkpoint { .. }) => true,
        _ => false,
    }
}

/// The first cause for which entry number `seq` is wrong, by the counts before it and the numbers of the audited
/// promise files. Where it is a CHECKPOINT, `digest` is that of the body of the state before it; else it isn't looked at.
#[tactic(auto, unfolding(nr_spec_counts::specs::Causes::cause_in))]
pub fn cause(
    counts: &Counts,
    files: &[FileNumbers],
    digest: &Digest,
    seq: u64,
    entry: &Entry<'_>,
) -> Option<Cause>
    ensures { (t : Tally) (rows : List Row) → IsKeptOf t counts.now
        → IsDigestFor (content_of (entry_of entry.now)) t rows digest.now.0
        → result ≡ cause_of (map numbers_of files.now) t rows seq (entry_of entry.now) }
{
    let content = nr_entry::read(entry.kind, entry.content);
    let Some(content) = content else {
        return Some(Cause::Content);
    };
    if seq == 1 && entry.kind != PROMISE {
        Some(Cause::First)
    } else if is_stranger(counts.in_force(), &content) {
        Some(Cause::Neighbour)
    } else if is_wrong_ack(counts, &content) {
        Some(Cause::Ack)
    } else if is_wrong_leaf(counts, &content) {
        Some(Cause::Leaf)
    } else if is_other_digest(digest, &content) {
        Some(Cause::Checkpoint)
    } else if is_wrong_promise(files, &content) {
        Some(Cause::Numbers)
    } else if leaves_overdue(counts.lowest_overdue(entry.time), &content) {
        Some(Cause::Overdue)
    } else {
        None
    }
}
