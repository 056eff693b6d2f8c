//! The turns of a recording, appended to the log one after another.

ghost use Rattle.std.specs.Prelude.{◌≡◌, ◌<◌, ◌≤◌, ◌+◌, ◌*◌, ◌^◌, IfOk, Some, drop, length, map, take};
ghost use Rattle.std.specs.List.{AllByRecursion};
ghost use Rattle.nr_spec_plans.specs.Plans.{Room};
ghost use Rattle.nr_spec_store.specs.LogFile.{most_log};
ghost use Rattle.nr_spec_steps.specs.Steps.{core_step};
ghost use Rattle.nr_spec_steps.specs.Telling.{IsRoomy};
ghost use Rattle.nr_spec_steps.specs.Turns.{turn};
ghost use Rattle.nr_spec_recording.specs.Events.{turns_of};
ghost use Rattle.nr_spec_program.specs.Recording.{batch_plan, turns_plan};
ghost use Rattle.nr_events.specs.Views.{event_of};
ghost use Rattle.nr_recorder.specs.Kept.{recorder_of};
ghost use Rattle.nr_command_parts.specs.Logs.{HasLog};
ghost use Rattle.nr_command_parts.specs.Views.{Does};
ghost use Rattle.nr_log_commands.specs.Turning.{Applies, IsShort, no_frames, turn_plan};

use nr_bytes::List;
use nr_command_parts::{LogFact, Stop};
use nr_events::Event;
use nr_ports::Files;
use nr_recorder::{Core, Refusal};
use nr_recording::Events;
use nr_store::Store;
use std::alloc::Global;

// The same event. A time has eight bytes.
fn roomy<'a>(event: Event<'a>) -> Event<'a>
    requires { IsShort (event_of event) }
    ensures same { result ≡ event.entry }
    ensures roomy { IsRoomy (event_of result) }
{
    match event {
        Event::Begin { time } => Event::Begin { time },
        Event::Heard {
            time,
            neighbour,
            as4,
            raw,
        } => Event::Heard {
            time,
            neighbour,
            as4,
            raw,
        },
        Event::Said {
            time,
            neighbour,
            as4,
            raw,
        } => Event::Said {
            time,
            neighbour,
            as4,
            raw,
        },
        Event::StateChanged {
            time,
            neighbour,
            old,
            new,
        } => Event::StateChanged {
            time,
            neighbour,
            old,
            new,
        },
        Event::Close { time } => Event::Close { time },
    }
}

// The core after an event.
fn apply_event(core: Core, event: &Event<'_>) -> Result<Core, Stop>
    requires room { length core.log < 2 ^ 61 }
    requires roomy { IsRoomy (event_of event.now) }
    ensures { Applies core (core_step (recorder_of no_frames core) core.log (event_of event.now)) result }
{
    match core.step(event) {
        Ok((after, _)) => Ok(after),
        Err((_, Refusal::KeySpent { commits, leaves })) => {
            Err(Stop::from(LogFact::KeySpent { commits, leaves }))
        }
        Err((_, Refusal::Memory)) => Err(Stop::Memory),
    }
}

// The core after a turn.
fn apply_turn(core: Core, events: &List<Event<'_>>) -> Result<Core, Stop>
    requires short { AllByRecursion IsShort (map event_of events.now) }
    requires room { length core.log + 1024 * length events.now < 2 ^ 61 }
    ensures { Applies core (turn (recorder_of no_frames core) core.log (map event_of events.now)) result }
{
    let mut core = core;
    for i in 0..events.len() {
        match events.get(i) {
            Some(event) => core = apply_event(core, &roomy(event))?,
            None => unreachable!(),
        }
    }
    Ok(core)
}

// Appends the entries behind so many first ones, which the log has.
fn append_batch<F: Files>(
    files: &mut F,
    name: &str,
    store: Store,
    core: &Core,
    before: u64,
) -> Result<Store, Stop>
    requires room { before < 2 ^ 62 }
    requires same { take before core.now.log ≡ store.entries }
    requires holds { HasLog (F.disk files.old) name.now (Some store) }
    ensures does { Does (λ store. store) (Room (batch_plan name.now store (drop before core.now.log)))
        (F.disk files.old) (F.disk files.new) result }
    ensures holds { IfOk result (λ store. HasLog (F.disk files.new) name.now (Some store)) }
    ensures same { IfOk result (λ store. store.entries ≡ core.now.log) }
{
    let batch = core.entries_from(before + 1)?;
    if batch.is_empty() {
        return Ok(store);
    }
    match store.append(files, name, &batch) {
        Ok(longer) => Ok(longer),
        Err(fault) => Err(Stop::from(fault)),
    }
}

// The same store. The file of a log has more bytes than the log has entries.
fn within_limit(store: Store) -> Store
    ensures same { result ≡ store }
    ensures few { length result.entries ≤ most_log }
{
    let _entries = store.entries();
    store
}

// Appends what a turn gives, and gives the log and the core after it.
fn record_turn<F: Files>(
    files: &mut F,
    name: &str,
    store: Store,
    core: Core,
    events: &List<Event<'_>>,
) -> Result<(Store, Core), Stop>
    requires size { length events.now ≤ 1024 }
    requires short { AllByRecursion IsShort (map event_of events.now) }
    requires same { core.log ≡ store.entries }
    requires holds { HasLog (F.disk files.old) name.now (Some store) }
    ensures does { Does (λ after. after.0)
        (turn_plan name.now (recorder_of no_frames core) store (map event_of events.now))
        (F.disk files.old) (F.disk files.new) result }
    ensures same { IfOk result (λ after. after.1.log ≡ after.0.entries) }
    ensures recorder { IfOk result (λ after. recorder_of no_frames after.1 ≡ recorder_of no_frames core) }
    ensures holds { IfOk result (λ after. HasLog (F.disk files.new) name.now (Some after.0)) }
{
    let store = within_limit(store);
    let before = core.seq();
    let core = apply_turn(core, events)?;
    let store = append_batch(files, name, store, &core, before)?;
    Ok((store, core))
}

/// Appends what the events give, turn by turn: the batch of each turn is on the disk before the next turn comes. Gives
/// the log after them; after an error the log has the turns up to the one that failed.
pub fn record_turns<F: Files>(
    alloc: Global,
    files: &mut F,
    name: &str,
    store: Store,
    core: Core,
    events: Events<'_>,
) -> Result<Store, Stop>
    requires short { AllByRecursion IsShort events }
    requires same { core.log ≡ store.entries }
    requires holds { HasLog (F.disk files.old) name.now (Some store) }
    ensures { Does (λ store. store) (turns_plan name.now (recorder_of no_frames core) store (turns_of events.entry))
        (F.disk files.old) (F.disk files.new) result }
{
    let mut store = store;
    let mut core = core;
    let mut events = events;
    loop {
        let turn = events.next_turn(alloc)?;
        if turn.is_empty() {
            return Ok(store);
        }
        let (longer, after) = record_turn(files, name, store, core, &turn)?;
        store = longer;
        core = after;
    }
}
