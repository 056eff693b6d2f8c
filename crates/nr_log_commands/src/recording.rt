//! The command `record`: MRT files as a log.

ghost use Rattle.std.specs.Prelude.{◌≡◌, ◌+◌, ◌≤◌, ◌∷◌, ◌++◌, [], codes, length, map, IfOk, None};
ghost use Rattle.std.specs.String.{string_bytes};
ghost use Rattle.std.specs.Fmt.{decimal};
ghost use Rattle.std.specs.List.{AllByRecursion};
ghost use Rattle.nr_spec_history.specs.KeyFiles.{key_root};
ghost use Rattle.nr_spec_history.specs.Lines.{line};
ghost use Rattle.nr_spec_keys.specs.Trees.{tree_of};
ghost use Rattle.nr_spec_program.specs.Recording.{entries_in, long_message, mrt_plan, other_root, record_plan, speakers_of, unless};
ghost use Rattle.nr_spec_store.specs.LogFile.{most_log};
ghost use Rattle.nr_spec_recording.specs.Events.{records_in_order, too_long, turns_of};
ghost use Rattle.nr_recorder.specs.Kept.{recorder_of, with_entries};
ghost use Rattle.nr_recording.specs.Views.{speakers_of as spoken};
ghost use Rattle.nr_requests.specs.Views.{record_request_of};
ghost use Rattle.nr_command_parts.specs.Views.{Does, Judges, Settles, promise_file_of};
ghost use Rattle.nr_command_parts.specs.Keys.{key_view};
ghost use Rattle.nr_command_parts.specs.Endings.{ending_of};
ghost use Rattle.nr_command_parts.specs.Logs.{HasLog};
ghost use Rattle.nr_log_commands.specs.Recorded.{appended_plan, file_plan, found_plan, kept_by, ready_plan};
ghost use Rattle.nr_log_commands.specs.Turning.{IsShort, no_frames};

use crate::turns::record_turns;
use nr_bytes::Memory;
use nr_chain::Digest;
use nr_command_parts::{
    Ending, Input, Key, LogFact, PromiseFile, Refusal, Stop, born, has_root, is_of_network,
    read_input, read_key_file, read_log, read_promise, same_network,
};
use nr_merkle::Tree;
use nr_ports::Files;
use nr_recorder::{Core, Own};
use nr_recording::{Events, FileError, Recording, Speaker};
use nr_requests::RecordRequest;
use nr_store::Store;
use std::alloc::{AllocError, Global};

// The neighbours of a promise file, as records name them.
fn speakers_in(alloc: Global, promise: &PromiseFile) -> Result<Vec<Speaker>, Memory>
    ensures value { IfOk result (λ speakers. spoken speakers.items ≡ speakers_of (promise_file_of promise.now)) }
    ensures few { IfOk result (λ speakers. length speakers.items ≤ 256) }
{
    let neighbours = promise.says.neighbours();
    let mut speakers = Vec::new(alloc);
    for neighbour in neighbours {
        speakers.push(Speaker {
            asn: neighbour.asn,
            addr: neighbour.addr,
        })?;
    }
    Ok(speakers)
}

// The records of an MRT file, behind those of the files before it.
#[tactic(auto, using(nr_spec_plans::proofs::PlanLemmas::planning, crate::proofs::FilePlans::adding), unfolding(nr_spec_plans::specs::Plans::Runs, nr_spec_plans::specs::Plans::followed_by))]
fn add_file<F: Files>(
    alloc: Global,
    files: &mut F,
    recording: Recording,
    number: usize,
    name: &str,
) -> Result<Recording, Stop>
    ensures does { Does (λ r. r.files) (file_plan recording.files number name.now)
        (F.disk files.old) (F.disk files.new) result }
    ensures same { IfOk result (λ r. r.neighbours ≡ recording.neighbours) }
{
    let mut recording = recording;
    let bytes = read_input(alloc, files, Input::Mrt(number), name)?;
    match recording.add(bytes) {
        Ok(()) => Ok(recording),
        Err(FileError::Malformed(place)) => {
            Err(Stop::from(Refusal::Malformed(Input::Mrt(number), place)))
        }
        Err(FileError::Memory) => Err(Stop::Memory),
    }
}

// The records of MRT files, one file after another.
fn read_records<F: Files>(
    alloc: Global,
    files: &mut F,
    recording: Recording,
    names: &[&str],
) -> Result<Recording, Stop>
    requires { recording.files ≡ [] }
    ensures does { Does (λ r. r.files) (mrt_plan 1 (map (λ s. s.now) names.now))
        (F.disk files.old) (F.disk files.new) result }
    ensures same { IfOk result (λ r. r.neighbours ≡ recording.neighbours) }
{
    let mut recording = recording;
    for (i, name) in names.iter().enumerate() {
        recording = add_file(alloc, files, recording, i + 1, name)?;
    }
    Ok(recording)
}

// Every message has room in an entry.
fn messages_fit(alloc: Global, recording: &Recording) -> Result<(), Stop>
    ensures judges { Judges (λ done. done) result
        (unless (long_message (too_long (records_in_order recording.now.neighbours recording.now.files)))) }
    ensures short { IfOk result (λ done.
        too_long (records_in_order recording.now.neighbours recording.now.files) ≡ None) }
{
    match recording.first_too_long(alloc)? {
        None => Ok(()),
        Some(found) => Err(Stop::from(LogFact::LongMessage(found))),
    }
}

// A recorder after the entries of a log.
#[tactic(auto, using(crate::proofs::Replaying::replaying))]
fn replayed(core: Core, store: &Store) -> Result<Core, Memory>
    requires { core.log ≡ [] }
    ensures { IfOk result (λ after. after ≡ with_entries core store.now.entries) }
{
    let mut core = core;
    for entry in store.entries() {
        core = core.replay(&entry)?;
    }
    Ok(core)
}

// A recorder without entries, by its own promise file and key.
#[tactic(auto, using(crate::proofs::Prepared::preparing))]
fn fresh(alloc: Global, promise: PromiseFile, key: Key, tree: Tree) -> Result<Core, Memory>
    requires { tree ≡ tree_of key.seed.0 key.height }
    ensures { IfOk result (λ core. core ≡ kept_by (promise_file_of promise) (key_view key) []) }
{
    let own = Own {
        typed: promise.says,
        file: promise.digest,
    };
    Core::new(alloc, own, key.asn, key.seed, tree)
}

// The recorder of a log; one that isn't born has no entries.
fn prepare(
    alloc: Global,
    promise: PromiseFile,
    key: Key,
    tree: Tree,
    found: &Option<Store>,
) -> Result<Core, Memory>
    requires { tree ≡ tree_of key.seed.0 key.height }
    ensures { IfOk result (λ core. core
        ≡ kept_by (promise_file_of promise) (key_view key) (entries_in found.now)) }
{
    let core = fresh(alloc, promise, key, tree)?;
    match found {
        None => Ok(core),
        Some(store) => replayed(core, store),
    }
}

// The line with the first and the last entry that were appended.
fn entries_line(alloc: Global, first: u64, last: u64) -> Result<String, AllocError>
    ensures { IfOk result (λ text. string_bytes text
        ≡ line (codes "entries" ∷ decimal first ∷ decimal last ∷ [])) }
{
    format!(in alloc; "entries {first} {last}\n")
}

// The line with how many records weren't kept.
fn skipped_line(alloc: Global, skips: u64) -> Result<String, AllocError>
    ensures { IfOk result (λ text. string_bytes text ≡ line (codes "skipped" ∷ decimal skips ∷ [])) }
{
    format!(in alloc; "skipped {skips}\n")
}

// The lines of a recording.
fn recorded(alloc: Global, first: u64, last: u64, skips: u64) -> Result<Ending, Memory>
    ensures { IfOk result (λ e. ending_of e ≡ record {
      status = 0;
      text = line (codes "entries" ∷ decimal first ∷ decimal last ∷ [])
          ++ line (codes "skipped" ∷ decimal skips ∷ []);
    }) }
{
    let mut text = entries_line(alloc, first, last)?;
    let skipped = skipped_line(alloc, skips)?;
    text.push_str(&skipped)?;
    Ok(Ending {
        status: 0,
        text: text.into_bytes(),
    })
}

// How many entries a log has.
fn entry_count(store: &Store) -> u64
    ensures value { result ≡ length store.now.entries }
    ensures few { result ≤ most_log }
{
    store.entries().count() as u64
}

// Appends the turns of a recording to the log that was found, or is born.
#[tactic(auto, using(nr_spec_plans::proofs::PlanLemmas::planning, crate::proofs::Prepared::born_entries), unfolding(nr_spec_program::specs::Recording::recorded_ending, nr_spec_plans::specs::Plans::Runs, nr_spec_plans::specs::Plans::followed_by))]
fn append_turns<F: Files>(
    alloc: Global,
    files: &mut F,
    name: &str,
    asn: u32,
    root: &Digest,
    found: Option<Store>,
    core: Core,
    events: Events<'_>,
    skips: u64,
) -> Result<Ending, Stop>
    requires network { core.key.asn ≡ asn }
    requires root { key_root core.key ≡ root.now.0 }
    requires log { core.log ≡ entries_in found }
    requires short { AllByRecursion IsShort events }
    requires holds { HasLog (F.disk files.old) name.now found }
    ensures { Does ending_of
        (appended_plan name.now core.key found (recorder_of no_frames core) (turns_of events.entry) skips)
        (F.disk files.old) (F.disk files.new) result }
{
    let log = born(alloc, files, name, asn, root, found)?;
    let first = entry_count(&log) + 1;
    let longer = record_turns(alloc, files, name, log, core, events)?;
    Ok(recorded(alloc, first, entry_count(&longer), skips)?)
}

// The root of a key.
#[tactic(auto, unfolding(nr_spec_history::specs::KeyFiles::key_root))]
fn root_of_key(key: &Key, tree: &Tree) -> Digest
    requires { tree.now ≡ tree_of key.now.seed.0 key.now.height }
    ensures { result.0 ≡ key_root (key_view key.now) }
{
    let _height = key.height;
    tree.root()
}

// The log that was found, or will be born, is that of the key with this root.
fn has_key(key: &Key, root: &Digest, found: &Option<Store>) -> Result<(), Refusal>
    requires { root.now.0 ≡ key_root (key_view key.now) }
    ensures { Settles (λ done. done) result (unless (other_root (key_root (key_view key.now)) found.now)) }
{
    let _height = key.height;
    has_root(root, found)
}

// Records behind the log that was found, which is that of the key.
#[tactic(auto, using(nr_spec_plans::proofs::PlanLemmas::planning, crate::proofs::Prepared::appending), unfolding(nr_spec_plans::specs::Plans::Runs, nr_spec_plans::specs::Plans::followed_by))]
fn record_ready<F: Files>(
    alloc: Global,
    files: &mut F,
    request: &RecordRequest<'_>,
    promise: PromiseFile,
    key: Key,
    tree: Tree,
    root: &Digest,
    recording: &Recording,
    found: Option<Store>,
) -> Result<Ending, Stop>
    requires tree { tree ≡ tree_of key.seed.0 key.height }
    requires root { root.now.0 ≡ key_root (key_view key) }
    requires holds { HasLog (F.disk files.old) request.now.log.now found }
    ensures { Does ending_of (ready_plan (record_request_of request.now) (promise_file_of promise) (key_view key)
        recording.now.neighbours recording.now.files found) (F.disk files.old) (F.disk files.new) result }
{
    let asn = key.asn;
    let core = prepare(alloc, promise, key, tree, &found)?;
    let events = recording.events(alloc, request.until)?;
    messages_fit(alloc, recording)?;
    append_turns(
        alloc,
        files,
        request.log,
        asn,
        root,
        found,
        core,
        events,
        recording.skipped(),
    )
}

// Records behind the log that was found.
#[tactic(auto, using(nr_spec_plans::proofs::PlanLemmas::planning), unfolding(nr_spec_plans::specs::Plans::Runs, nr_spec_plans::specs::Plans::followed_by))]
fn record_behind<F: Files>(
    alloc: Global,
    files: &mut F,
    request: &RecordRequest<'_>,
    promise: PromiseFile,
    key: Key,
    recording: &Recording,
    found: Option<Store>,
) -> Result<Ending, Stop>
    requires { HasLog (F.disk files.old) request.now.log.now found }
    ensures { Does ending_of (found_plan (record_request_of request.now) (promise_file_of promise) (key_view key)
        recording.now.neighbours recording.now.files found) (F.disk files.old) (F.disk files.new) result }
{
    same_network(key.asn, promise.says.network())?;
    is_of_network(&found, promise.says.network())?;
    let tree = Tree::build(alloc, &key.seed, key.height)?;
    let root = root_of_key(&key, &tree);
    has_key(&key, &root, &found)?;
    record_ready(
        alloc, files, request, promise, key, tree, &root, recording, found,
    )
}

/// What the request gives: which entries were appended, and how many records weren't kept, or the first thing that
/// stops it. The log is read last. It is born, where there is none, after all that refuses before a turn, and the batch
/// of each turn is on the disk before the next turn comes.
#[tactic(auto, using(nr_spec_plans::proofs::PlanLemmas::planning), unfolding(nr_spec_program::specs::Recording::record_plan, nr_spec_plans::specs::Plans::Runs, nr_spec_plans::specs::Plans::followed_by))]
pub fn record_events<F: Files>(
    alloc: Global,
    files: &mut F,
    request: &RecordRequest<'_>,
) -> Result<Ending, Stop>
    ensures { Does ending_of (record_plan (record_request_of request.now))
        (F.disk files.old) (F.disk files.new) result }
{
    let promise = read_promise(alloc, files, request.promise)?;
    let key = read_key_file(alloc, files, request.key)?;
    let recording = Recording::new(alloc, speakers_in(alloc, &promise)?);
    let recording = read_records(alloc, files, recording, &request.files)?;
    let found = read_log(alloc, files, request.log)?;
    record_behind(alloc, files, request, promise, key, &recording, found)
}
