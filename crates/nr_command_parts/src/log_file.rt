//! The log of a recorder: loaded, and born where there is none.

ghost use Rattle.std.specs.Prelude.{◌≡◌, if◌then◌else◌, length, None, Some, IfOk};
ghost use Rattle.std.specs.Str.{bytes_eq};
ghost use Rattle.nr_spec_history.specs.KeyFiles.{Key, key_root};
ghost use Rattle.nr_spec_program.specs.Command.{OtherRoot};
ghost use Rattle.nr_spec_program.specs.Recording.{born_plan, log_network, log_plan, other_network, other_root, unless};
ghost use Rattle.nr_command_parts.specs.Views.{Does, Settles};
ghost use Rattle.nr_command_parts.specs.Logs.{HasLog};

use crate::refusal::{LogFact, Refusal, Stop};
use nr_chain::Digest;
use nr_ports::Files;
use nr_store::Store;
use std::alloc::Global;

/// The log that a file holds, none where it isn't born.
#[tactic(auto, using(crate::proofs::LogSteps::loading_logs))]
pub fn read_log<F: Files>(alloc: Global, files: &mut F, name: &str) -> Result<Option<Store>, Stop>
    ensures does { Does (λ found. found) (log_plan name.now) (F.disk files.old) (F.disk files.new) result }
    ensures holds { IfOk result (λ found. HasLog (F.disk files.new) name.now found) }
{
    match Store::load(alloc, files, name) {
        Ok(found) => Ok(found),
        Err(fault) => Err(Stop::from(fault)),
    }
}

// The same root, which has 32 bytes.
fn whole_root(root: &Digest) -> &Digest
    ensures same { result.now ≡ root.now }
    ensures size { length root.now.0 ≡ 32 }
{
    let _bytes = root.0;
    root
}

/// The log of a recorder: that which was found, or one that is born with this root.
#[tactic(auto, using(crate::proofs::LogSteps::bearing_logs))]
pub fn born<F: Files>(
    alloc: Global,
    files: &mut F,
    name: &str,
    asn: u32,
    root: &Digest,
    found: Option<Store>,
) -> Result<Store, Stop>
    requires { HasLog (F.disk files.old) name.now found }
    ensures does { (key : Key) → key.asn ≡ asn → key_root key ≡ root.now.0
        → Does (λ store. store) (born_plan name.now key found) (F.disk files.old) (F.disk files.new) result }
    ensures holds { IfOk result (λ store. HasLog (F.disk files.new) name.now (Some store)) }
{
    match found {
        Some(store) => Ok(store),
        None => match Store::birth(alloc, files, name, asn, whole_root(root)) {
            Ok(store) => Ok(store),
            Err(fault) => Err(Stop::from(fault)),
        },
    }
}

/// The same AS, or a fact that refuses.
pub fn same_network(found: u32, wanted: u32) -> Result<(), Refusal>
    ensures { Settles (λ done. done) result (unless (other_network found wanted)) }
{
    if found == wanted {
        return Ok(());
    }
    Err(Refusal::Prevented(LogFact::OtherNetwork { found, wanted }))
}

/// A log that is born is of this AS.
pub fn is_of_network(found: &Option<Store>, wanted: u32) -> Result<(), Refusal>
    ensures { Settles (λ done. done) result (unless (log_network found.now wanted)) }
{
    match found {
        None => Ok(()),
        Some(store) => same_network(store.asn(), wanted),
    }
}

// The same root, or a fact that refuses.
fn same_root(found: &Digest, wanted: &Digest) -> Result<(), Refusal>
    ensures { Settles (λ done. done) result (unless (if bytes_eq found.now.0 wanted.now.0 then None else Some (OtherRoot found.now.0 wanted.now.0))) }
{
    if found.0 == wanted.0 {
        return Ok(());
    }
    Err(Refusal::Prevented(LogFact::OtherRoot {
        found: *found,
        wanted: *wanted,
    }))
}

/// A log that is born has this root.
pub fn has_root(root: &Digest, found: &Option<Store>) -> Result<(), Refusal>
    ensures { Settles (λ done. done) result (unless (other_root root.now.0 found.now)) }
{
    match found {
        None => Ok(()),
        Some(store) => same_root(root, &store.root()),
    }
}
