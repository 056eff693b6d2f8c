//! One walk over the entries of an answer.

ghost use Rattle.std.specs.Prelude.{◌≡◌, ◌≤◌, ◌∷◌, [], ◌<◌, ◌^◌, ◌+◌, ℕ, List, IfOk, length, map, option_map, slice_index, true};
ghost use Rattle.nr_chain.specs.Views.{digest_bytes, entry_of};
ghost use Rattle.nr_spec_log.specs.Answer.{AnswerFile, most_first};
ghost use Rattle.nr_spec_log.specs.Authenticator.{Authenticator};
ghost use Rattle.nr_spec_log.specs.Chain.{LogEntry};
ghost use Rattle.nr_spec_routes.specs.Keys.{AreAscending};
ghost use Rattle.nr_spec_counts.specs.Tallies.{Numbers, Tally};
ghost use Rattle.nr_spec_history.specs.Conflicts.{Period as SpecPeriod};
ghost use Rattle.nr_spec_truth.specs.Truths.{Truth};
ghost use Rattle.nr_spec_report.specs.Wrong.{Base};
ghost use Rattle.nr_spec_promises.specs.Counted.{most_asked};
ghost use Rattle.nr_discipline.specs.Kept.{IsKeptOf};
ghost use Rattle.nr_discipline.specs.Views.{numbers_of};
ghost use Rattle.nr_evidence.specs.Views.{period_of};
ghost use Rattle.nr_judging.specs.Views.{AreFew, AreKnown, files_in};
ghost use Rattle.nr_discipline.specs.Decoded.{HasRoom};
ghost use Rattle.nr_audit.specs.Before.{IsBefore};
ghost use Rattle.nr_audit.specs.Force.{digest_of};
ghost use Rattle.nr_audit.specs.Walks.{Walks};

use crate::checked::Checked;
use crate::force::Force;
use crate::links::Links;
use crate::slots::Slots;
use nr_answer::{Answer, Auths};
use nr_bytes::Memory;
use nr_chain::{Digest, Entry, Walk};
use nr_discipline::{Counts, FileNumbers};
use nr_evidence::Period;
use nr_judging::{File, opening_file};
use nr_rule_eval::Judge;
use nr_steps::Steps;
use nr_tables::State;
use std::alloc::Global;
use std::sync::ledger::Ledger;

// The digest of the promise in force.
fn digest_in_force(counts: &Counts) -> Option<Digest>
    ensures { (t : Tally) → IsKeptOf t counts.now
        → option_map digest_bytes result ≡ option_map digest_of t.in_force }
{
    match counts.in_force() {
        Some(numbers) => Some(numbers.digest),
        None => None,
    }
}

/// What the entries so far leave.
#[derive(Drop)]
pub struct Walked {
    pub links: Links,
    pub checked: Checked,
    pub force: Force,
}

impl Walked {
    // Before the first entry of an answer.
    fn new(
        alloc: Global,
        promises: &[File<'_>],
        state: State,
        counts: Counts,
        answer: &Answer<'_>,
        auths: &Auths<'_>,
    ) -> Result<Walked, Memory>
        requires few { length promises.now ≤ 16 }
        requires order { AreAscending state }
        ensures { IfOk result (λ walked. (files : List Numbers) (truth : Truth) (base : Base) (period : SpecPeriod)
            (steps : ℕ) → IsBefore base state counts → Walks files (files_in promises.now) truth base period answer.now
            auths.now steps steps answer.now.entries walked) }
    {
        let entries = answer.entries();
        let in_force = digest_in_force(&counts);
        let file = opening_file(promises, in_force, entries);
        Ok(Walked {
            links: Links {
                walk: Walk::new(answer.prev(), answer.first()),
                slots: Slots::of(alloc, auths)?,
            },
            checked: Checked::over(alloc, state, counts, file),
            force: Force::over(in_force),
        })
    }

    // One entry more: it is hashed and linked, checked and applied, and judged. After `Memory` all is gone.
    fn take<J: Judge<L>, L: Ledger>(
        self,
        alloc: Global,
        period: &Period,
        files: &[FileNumbers],
        promises: &[File<'_>],
        entry: &Entry<'_>,
        judge: &J,
        steps: &mut Steps<L>,
    ) -> Result<Walked, Memory>
        requires number { self.links.walk.seq < 2 ^ 63 }
        requires sends { (n : ℕ) → n < 256 → slice_index self.checked.counts.sends n + 1 < 2 ^ 64 }
        requires commits { self.checked.counts.commits + 1 < 2 ^ 64 }
        requires knows { AreKnown (λ i r. J.knows judge.now i r ≡ true) (files_in promises.now) }
        requires few { AreFew (files_in promises.now) }
        ensures walks { IfOk result (λ new. (base : Base) (answer : AnswerFile) (auths : List Authenticator)
            (before : ℕ) (rest : List LogEntry) → Walks (map numbers_of files.now) (files_in promises.now)
            (J.truth judge.now) base (period_of period.now) answer auths before steps.old (entry_of entry.now ∷ rest)
            self → Walks (map numbers_of files.now) (files_in promises.now) (J.truth judge.now)
            base (period_of period.now) answer auths before steps.new rest new) }
        ensures counted { (base : Base) (answer : AnswerFile) (auths : List Authenticator) (before : ℕ)
            (rest : List LogEntry) → Walks (map numbers_of files.now) (files_in promises.now) (J.truth judge.now)
            base (period_of period.now) answer auths before steps.old (entry_of entry.now ∷ rest) self
            → steps.new ≤ before + most_asked (files_in promises.now) base (period_of period.now) answer.entries }
    {
        let Walked {
            mut links,
            checked,
            mut force,
        } = self;
        let seq = links.walk.next_seq();
        let checked = checked.take(alloc, period, files, promises, seq, entry, judge, steps)?;
        links.take(entry)?;
        force.take(period, files, entry);
        Ok(Walked {
            links,
            checked,
            force,
        })
    }
}

/// Walks over the entries of an answer, by the routes and the counts that stand before them. Each is looked at once, and
/// none is kept.
pub fn walk<J: Judge<L>, L: Ledger>(
    alloc: Global,
    period: &Period,
    files: &[FileNumbers],
    promises: &[File<'_>],
    state: State,
    counts: Counts,
    answer: &Answer<'_>,
    auths: &Auths<'_>,
    judge: &J,
    steps: &mut Steps<L>,
) -> Result<Walked, Memory>
    requires first { answer.now.first ≤ most_first }
    requires short { length answer.now.entries < 2 ^ 32 }
    requires order { AreAscending state }
    requires room { HasRoom counts }
    requires knows { AreKnown (λ i r. J.knows judge.now i r ≡ true) (files_in promises.now) }
    requires few { AreFew (files_in promises.now) }
    ensures walks { IfOk result (λ walked. (base : Base) → IsBefore base state counts
        → Walks (map numbers_of files.now) (files_in promises.now)
        (J.truth judge.now) base (period_of period.now) answer.now auths.now steps.old steps.new [] walked) }
    ensures counted { (base : Base) → IsBefore base state counts → steps.new ≤ steps.old
        + most_asked (files_in promises.now) base (period_of period.now) answer.now.entries }
{
    let mut walked = Walked::new(alloc, promises, state, counts, answer, auths)?;
    for entry in answer.entries() {
        walked = walked.take(alloc, period, files, promises, &entry, judge, steps)?;
    }
    Ok(walked)
}
