//! The promises that are in force in the period.

ghost use Rattle.std.specs.Prelude.{◌≡◌, ◌++◌, ◌∷◌, [], List, option_map, map};
ghost use Rattle.nr_chain.specs.Views.{digest_bytes, entry_of};
ghost use Rattle.nr_spec_log.specs.Chain.{LogEntry};
ghost use Rattle.nr_spec_entry.specs.ContentReading.{content_of};
ghost use Rattle.nr_spec_counts.specs.Tallies.{Numbers, promise_in};
ghost use Rattle.nr_spec_history.specs.Conflicts.{Period as SpecPeriod};
ghost use Rattle.nr_spec_report.specs.Wrong.{Base};
ghost use Rattle.nr_spec_outcome.specs.Outcome.{digests_in_force, is_of_no_file, misfit};
ghost use Rattle.nr_discipline.specs.Views.{numbers_of};
ghost use Rattle.nr_evidence.specs.Views.{period_of};
ghost use Rattle.nr_audit.specs.Force.{digest_in, digest_of, misfit_seen, seen_after, seen_more};

use crate::checked::is_within;
use nr_chain::{Digest, Entry};
use nr_discipline::FileNumbers;
use nr_entry::Content;
use nr_evidence::Period;
use std::marker::Model;

/// What an audit asks of the promises so far: the one in force before the period, whether there is one in the
/// period, and the first of these that is of no promise file.
#[derive(Clone, Debug, Drop)]
pub struct Force {
    before: Option<Digest>,
    any: bool,
    strange: Option<Digest>,
}

impl Model for Force {
    ghost use Rattle.std.specs.Prelude.{option_map};
    ghost use Rattle.nr_chain.specs.Views.{digest_bytes};
    ghost use Rattle.nr_audit.specs.Seen.{Seen};

    ghost Value = { Seen };

    ghost view = { λ f. record {
      before = option_map digest_bytes f.before;
      any = f.any;
      strange = option_map digest_bytes f.strange;
    } };
}

// Whether a digest is that of no promise file.
#[tactic(auto, using(crate::proofs::Files::file_here, crate::proofs::Files::file_later))]
fn is_of_no_file(digest: &Digest, files: &[FileNumbers]) -> bool
    ensures { result ≡ is_of_no_file (map numbers_of files.now) digest.now.0 }
{
    for file in files {
        if digest.0 == file.digest.0 {
            return false;
        }
    }
    true
}

// The digest of an entry that is a PROMISE.
fn promised(entry: &Entry<'_>) -> Option<Digest>
    ensures { option_map digest_bytes result ≡ digest_in (content_of (entry_of entry.now)) }
{
    match nr_entry::read(entry.kind, entry.content) {
        Some(Content::Promise { file, .. }) => Some(file),
        _ => None,
    }
}

impl Force {
    /// Before the first entry: the digest is that of the promise in force there.
    pub fn over(in_force: Option<Digest>) -> Force
        ensures { (files : List Numbers) (base : Base) (period : SpecPeriod)
            → option_map digest_bytes in_force ≡ option_map digest_of base.tally.in_force
            → result ≡ seen_after files base period [] }
    {
        Force {
            before: in_force,
            any: false,
            strange: None,
        }
    }

    /// One entry more.
    #[tactic(auto, using(crate::proofs::Seeing::one_seen))]
    pub fn take(&mut self, period: &Period, files: &[FileNumbers], entry: &Entry<'_>)
        ensures { (base : Base) (past : List LogEntry)
            → self.old ≡ seen_after (map numbers_of files.now) base (period_of period.now) past
            → self.new ≡ seen_after (map numbers_of files.now) base (period_of period.now)
            (past ++ entry_of entry.now ∷ []) }
    {
        self.see(period, files, entry.time, promised(entry));
    }

    // Goes on by the digest of a PROMISE, or by none.
    fn see(&mut self, period: &Period, files: &[FileNumbers], time: u64, digest: Option<Digest>)
        ensures { self.new ≡ seen_more (map numbers_of files.now) (period_of period.now) time
            (option_map digest_bytes digest) self.old }
    {
        let Some(digest) = digest else {
            return;
        };
        if time < period.from {
            self.before = Some(digest);
        } else if is_within(period, time) {
            self.any = true;
            if self.strange.is_none() && is_of_no_file(&digest, files) {
                self.strange = Some(digest);
            }
        }
    }

    /// The first digest of no promise file, or that there is none, where no promise is in force in the period.
    #[tactic(auto, using(crate::proofs::Seeing::misfit_is))]
    pub fn misfit(&self, files: &[FileNumbers]) -> Option<Option<Digest>>
        ensures { (base : Base) (period : SpecPeriod) (past : List LogEntry)
            → self.now ≡ seen_after (map numbers_of files.now) base period past
            → option_map (option_map digest_bytes) result ≡ misfit (map numbers_of files.now)
            (digests_in_force base period past) }
    {
        self.misfit_seen(files)
    }

    fn misfit_seen(&self, files: &[FileNumbers]) -> Option<Option<Digest>>
        ensures { option_map (option_map digest_bytes) result ≡ misfit_seen (map numbers_of files.now) self.now }
    {
        match self.before {
            Some(digest) => {
                if is_of_no_file(&digest, files) {
                    return Some(Some(digest));
                }
            }
            None => {
                if !self.any {
                    return Some(None);
                }
            }
        }
        match self.strange {
            Some(digest) => Some(Some(digest)),
            None => None,
        }
    }
}
