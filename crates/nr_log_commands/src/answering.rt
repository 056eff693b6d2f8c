//! The command `answer`: the answer of a log.

ghost use Rattle.std.specs.Prelude.{◌≡◌, ◌≤◌, ◌∷◌, [], codes, length, map, option_map, take, IfOk};
ghost use Rattle.std.specs.String.{string_bytes};
ghost use Rattle.std.specs.Fmt.{decimal};
ghost use Rattle.nr_spec_history.specs.Lines.{line};
ghost use Rattle.nr_spec_keys.specs.Trees.{tree_of};
ghost use Rattle.nr_spec_log.specs.Answer.{AreEntriesFrom};
ghost use Rattle.nr_spec_store.specs.LogFile.{most_log};
ghost use Rattle.nr_spec_program.specs.Recording.{answer_plan, entries_in, present};
ghost use Rattle.nr_chain.specs.Views.{entry_of};
ghost use Rattle.nr_heads.specs.Seals.{IsSealingOf, seal_of};
ghost use Rattle.nr_heads.specs.Views.{seal_view};
ghost use Rattle.nr_requests.specs.Views.{answer_request_of};
ghost use Rattle.nr_command_parts.specs.Views.{Does, Settles};
ghost use Rattle.nr_command_parts.specs.Keys.{key_view};
ghost use Rattle.nr_log_commands.specs.Answering.{AnswersLog, sealing_plan};
ghost use Rattle.nr_command_parts.specs.Endings.{ending_of};

use crate::key_tree::key_tree;
use nr_bytes::{List, Memory};
use nr_chain::Entry;
use nr_command_parts::{
    Ending, Input, Key, LogFact, Refusal, Stop, has_root, is_of_network, read_key_file, read_log,
    write_file,
};
use nr_heads::{Seal, Sealing, write_whole};
use nr_merkle::Tree;
use nr_ports::Files;
use nr_requests::AnswerRequest;
use nr_store::Store;
use std::alloc::{AllocError, Global};

/// The bytes of an answer, and the number of its last entry.
#[derive(Drop)]
pub struct WholeAnswer {
    pub bytes: Vec<u8>,
    pub last: u64,
}

// The file of a log is there.
fn is_present(size: Option<u64>) -> Result<(), Refusal>
    ensures { Settles (λ done. done) result (present size) }
{
    match size {
        None => Err(Refusal::NoFile(Input::Log)),
        Some(_) => Ok(()),
    }
}

// The last COMMIT to the auditor of a log of an AS.
fn seal_in(store: &Store, asn: u32) -> Option<Seal>
    ensures { option_map seal_view result ≡ seal_of asn store.now.entries }
{
    let mut sealing = Sealing::new(asn);
    for entry in store.entries() {
        sealing.push(&entry);
    }
    sealing.seal()
}

// The first entries of a log.
fn first_entries<'a>(alloc: Global, store: &'a Store, count: u64) -> Result<List<Entry<'a>>, Memory>
    ensures value { IfOk result (λ entries. map entry_of entries ≡ take count store.now.entries) }
    ensures fit { IfOk result (λ entries. AreEntriesFrom 0 (map entry_of entries)) }
    ensures few { IfOk result (λ entries. length entries ≤ most_log) }
{
    let mut entries = List::new(alloc);
    let mut left = count;
    for entry in store.entries() {
        if left == 0 {
            return Ok(entries);
        }
        entries.push(entry)?;
        left -= 1;
    }
    Ok(entries)
}

// The answer of a log.
#[tactic(auto, using(crate::proofs::Answered::answering_logs))]
fn answer_of_log(alloc: Global, key: &Key, tree: &Tree, store: &Store) -> Result<WholeAnswer, Stop>
    requires tree { tree.now ≡ tree_of key.now.seed.0 tree.now.height }
    requires height { tree.now.height ≡ key.now.height }
    ensures { AnswersLog (key_view key.now) store.now.entries result }
{
    let Some(seal) = seal_in(store, key.asn) else {
        return Err(Stop::Refused(Refusal::Prevented(LogFact::Unsealed)));
    };
    let entries = first_entries(alloc, store, seal.seq)?;
    match write_whole(alloc, key.asn, &key.seed, tree, &seal, &entries) {
        Ok(bytes) => Ok(WholeAnswer {
            bytes,
            last: seal.seq,
        }),
        Err(fault) => Err(Stop::from(fault)),
    }
}

// The answer of a log; one that isn't born has no entries.
fn whole_answer(
    alloc: Global,
    key: &Key,
    tree: &Tree,
    found: &Option<Store>,
) -> Result<WholeAnswer, Stop>
    requires tree { tree.now ≡ tree_of key.now.seed.0 tree.now.height }
    requires height { tree.now.height ≡ key.now.height }
    ensures { AnswersLog (key_view key.now) (entries_in found.now) result }
{
    match found {
        None => Err(Stop::Refused(Refusal::Prevented(LogFact::Unsealed))),
        Some(store) => answer_of_log(alloc, key, tree, store),
    }
}

// The line with the first and the last entry.
fn answer_line(alloc: Global, first: u64, last: u64) -> Result<String, AllocError>
    ensures { IfOk result (λ text. string_bytes text ≡ line (codes "answer" ∷ decimal first ∷ decimal last ∷ [])) }
{
    format!(in alloc; "answer {first} {last}\n")
}

fn answered(alloc: Global, last: u64) -> Result<Ending, Memory>
    ensures { IfOk result (λ e. ending_of e
        ≡ record { status = 0; text = line (codes "answer" ∷ decimal 1 ∷ decimal last ∷ []) }) }
{
    let text = answer_line(alloc, 1, last)?;
    Ok(Ending {
        status: 0,
        text: text.into_bytes(),
    })
}

// Makes the answer of a log, and writes it in whole. What this program takes of memory it takes before the file is cut.
#[tactic(auto, using(nr_spec_plans::proofs::PlanLemmas::planning, crate::proofs::Answered::sealing), unfolding(crate::specs::Answering::sealing_plan, nr_spec_plans::specs::Plans::Runs, nr_spec_plans::specs::Plans::followed_by))]
fn save_answer<F: Files>(
    alloc: Global,
    files: &mut F,
    out: &str,
    key: &Key,
    tree: &Tree,
    found: &Option<Store>,
) -> Result<Ending, Stop>
    requires tree { tree.now ≡ tree_of key.now.seed.0 tree.now.height }
    requires height { tree.now.height ≡ key.now.height }
    ensures { Does ending_of (sealing_plan out.now (key_view key.now) found.now)
        (F.disk files.old) (F.disk files.new) result }
{
    let whole = whole_answer(alloc, key, tree, found)?;
    let ending = answered(alloc, whole.last)?;
    write_file(files, out, &whole.bytes)?;
    Ok(ending)
}

/// What the request gives: the first and the last entry of the answer, which was written and synced, or the first thing
/// that stops it.
#[tactic(auto, using(nr_spec_plans::proofs::PlanLemmas::planning), unfolding(nr_spec_program::specs::Recording::answer_plan, crate::specs::Answering::sealing_plan, nr_spec_plans::specs::Plans::Runs, nr_spec_plans::specs::Plans::followed_by))]
pub fn answer<F: Files>(
    alloc: Global,
    files: &mut F,
    request: &AnswerRequest<'_>,
) -> Result<Ending, Stop>
    ensures { Does ending_of (answer_plan (answer_request_of request.now)) (F.disk files.old) (F.disk files.new) result }
{
    let key = read_key_file(alloc, files, request.key)?;
    is_present(files.size(request.log)?)?;
    let found = read_log(alloc, files, request.log)?;
    is_of_network(&found, key.asn)?;
    let tree = key_tree(alloc, &key)?;
    has_root(&tree.root(), &found)?;
    save_answer(alloc, files, request.out, &key, &tree, &found)
}
