//! The promises that are in force in a period.

ghost use Rattle.std.specs.Prelude.{◌≡◌, ℕ, List, option_map, true};
ghost use Rattle.std.specs.List.{find, list_any};
ghost use Rattle.std.specs.Str.{bytes_eq};
ghost use Rattle.nr_chain.specs.Views.{digest_bytes, entry_of};
ghost use Rattle.nr_spec_promises.specs.Files as files;
ghost use Rattle.nr_spec_promises.specs.Files.{digest_of};
ghost use Rattle.nr_spec_report.specs.Wrong as wrong;
ghost use Rattle.nr_spec_report.specs.Wrong.{nothing_before};
ghost use Rattle.nr_spec_outcome.specs.Outcome as outcome;
ghost use Rattle.nr_spec_outcome.specs.Outcome.{digests_in_force, digests_within, is_of_no_file};
ghost use Rattle.nr_evidence.specs.Views.{period_of};
ghost use Rattle.nr_verify_runs.specs.declared.file.Text as declared;
ghost use Rattle.nr_verify_heads.specs.Views.{numbers_in};
ghost use Rattle.nr_verify_heads.specs.Promised as spec;

use nr_answer::Entries;
use nr_chain::{Digest, Entry};
use nr_entry::Content;
use nr_evidence::Period;
use nr_verify_runs::Text;

// Whether a text's file has this digest.
fn has_digest(text: &Text<'_>, digest: &Digest) -> bool
    ensures { result ≡ bytes_eq digest.now.0 text.now.digest.0 }
{
    digest.0.as_slice() == text.digest.0.as_slice()
}

// Whether a digest is that of some text.
fn is_of_some_text(texts: &[Text<'_>], digest: &Digest) -> bool
    ensures { result ≡ list_any (λ (t : declared.Text). bytes_eq digest.now.0 t.digest.0) texts.now }
{
    texts.iter().any(|text| has_digest(text, digest))
}

// Whether it is that of none.
fn is_of_no_text(texts: &[Text<'_>], digest: &Digest) -> bool
    ensures { result ≡ is_of_no_file (numbers_in texts.now) digest.now.0 }
{
    !is_of_some_text(texts, digest)
}

// The digest of an entry that is a PROMISE in the grammar.
fn promised(entry: &Entry<'_>) -> Option<Digest>
    ensures { option_map digest_bytes result ≡ files.promised (entry_of entry.now) }
{
    match nr_entry::read(entry.kind, entry.content) {
        Some(Content::Promise { file, .. }) => Some(file),
        _ => None,
    }
}

// The same where its time is before the period.
fn promised_before(period: &Period, entry: &Entry<'_>) -> Option<Digest>
    ensures { option_map digest_bytes result ≡ spec.promised_before (period_of period.now) (entry_of entry.now) }
{
    if entry.time < period.from {
        promised(entry)
    } else {
        None
    }
}

fn is_within(period: &Period, time: u64) -> bool
    ensures { result ≡ wrong.is_within (period_of period.now) time }
{
    period.from <= time && time <= period.to
}

// The same where its time is in the period.
fn promised_within(period: &Period, entry: &Entry<'_>) -> Option<Digest>
    ensures { option_map digest_bytes result ≡ spec.promised_within (period_of period.now) (entry_of entry.now) }
{
    if is_within(period, entry.time) {
        promised(entry)
    } else {
        None
    }
}

// The digest of the promise that is in force before the period.
#[tactic(auto, using(crate::proofs::Forces::force_start, crate::proofs::Forces::force_found, crate::proofs::Forces::force_same, crate::proofs::Forces::force_end))]
fn force_before(period: &Period, entries: Entries<'_>) -> Option<Digest>
    ensures { option_map digest_bytes result
        ≡ option_map digest_of (outcome.force_before nothing_before (period_of period.now) entries.entry) }
{
    let mut force = None;
    for entry in entries {
        if let Some(digest) = promised_before(period, &entry) {
            force = Some(digest);
        }
    }
    force
}

// Whether there is a PROMISE in the period.
#[tactic(auto, using(crate::proofs::Forces::within_here, crate::proofs::Forces::within_later))]
fn is_any_within(period: &Period, entries: Entries<'_>) -> bool
    ensures { result ≡ list_any (λ (digest : List ℕ). true) (digests_within (period_of period.now) entries.entry) }
{
    for entry in entries {
        if promised_within(period, &entry).is_some() {
            return true;
        }
    }
    false
}

// The first digest of a promise in the period that is of no text.
#[tactic(auto, using(crate::proofs::Forces::within_here, crate::proofs::Forces::within_later))]
fn strange_within(texts: &[Text<'_>], period: &Period, entries: Entries<'_>) -> Option<Digest>
    ensures { option_map digest_bytes result
        ≡ find (is_of_no_file (numbers_in texts.now)) (digests_within (period_of period.now) entries.entry) }
{
    for entry in entries {
        if let Some(digest) = promised_within(period, &entry) {
            if is_of_no_text(texts, &digest) {
                return Some(digest);
            }
        }
    }
    None
}

/// The first digest of a promise in force in the period that is of no text; or that there is none, where no promise is in
/// force there.
#[tactic(auto, using(crate::proofs::Forces::strange_before, crate::proofs::Forces::known_before, crate::proofs::Forces::none_at_all, crate::proofs::Forces::none_before))]
pub fn misfit(texts: &[Text<'_>], period: &Period, entries: Entries<'_>) -> Option<Option<Digest>>
    ensures { option_map (option_map digest_bytes) result ≡ outcome.misfit (numbers_in texts.now)
        (digests_in_force nothing_before (period_of period.now) entries.entry) }
{
    match force_before(period, entries.fork()) {
        Some(digest) => {
            if is_of_no_text(texts, &digest) {
                return Some(Some(digest));
            }
        }
        None => {
            if !is_any_within(period, entries.fork()) {
                return Some(None);
            }
        }
    }
    strange_within(texts, period, entries).map(Some)
}
