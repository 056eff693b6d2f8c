//! Reading input files: each in whole, and what its bytes are.

ghost use Rattle.std.specs.Prelude.{◌≤◌, length};
ghost use Rattle.nr_spec_wire.specs.Reading.{Answers};
ghost use Rattle.nr_spec_log.specs.Authenticator.{auths_of};
ghost use Rattle.nr_spec_history.specs.KeyFiles.{seed_of};
ghost use Rattle.nr_bytes.specs.Views.{offset_of};
ghost use Rattle.nr_spec_texts.specs.Promises.{promise_of};
ghost use Rattle.nr_spec_program.specs.Command.{
  load,
  promise_plan,
  well_formed,
  AuthsInput,
  PromiseInput,
  SeedInput,
};
ghost use Rattle.nr_command_parts.specs.Views.{input_of, promise_file_of, seed_bytes, Does, Judges, Settles};

use crate::input::{Input, limit_of};
use crate::promise_file::PromiseFile;
use crate::refusal::{Refusal, Stop};
use nr_answer::Auths;
use nr_bytes::{Cursor, Place};
use nr_chain::sha256;
use nr_lamport::Seed;
use nr_ports::{Files, read_whole};
use nr_rule_syntax::parse;
use nr_rule_types::check;
use std::alloc::Global;

/// The bytes of an input file that is there and within its limit. Nothing is read of one that isn't.
#[tactic(auto, using(nr_spec_plans::proofs::PlanLemmas::planning), unfolding(nr_spec_program::specs::Command::load, nr_spec_plans::specs::Plans::Runs, nr_spec_plans::specs::Plans::followed_by))]
pub fn read_input<F: Files>(
    alloc: Global,
    files: &mut F,
    input: Input,
    name: &str,
) -> Result<Vec<u8>, Stop>
    ensures { Does (λ bytes. bytes.items) (load (input_of input) name.now)
        (F.disk files.old) (F.disk files.new) result }
{
    let Some(found) = files.size(name)? else {
        return Err(Stop::Refused(Refusal::NoFile(input)));
    };
    if limit_of(input) < found {
        return Err(Stop::Refused(Refusal::Limit { input, found }));
    }
    Ok(read_whole(alloc, files, name, found)?)
}

// What a text of promises says.
#[tactic(auto, unfolding(nr_spec_texts::specs::Promises::promise_of))]
fn promise_from(alloc: Global, text: Vec<u8>) -> Result<PromiseFile, Stop>
    requires { length text.items ≤ 1048576 }
    ensures { Judges promise_file_of result (well_formed PromiseInput (promise_of text.items)) }
{
    let file = parse(alloc, &text)?;
    let says = check(alloc, &file)?;
    let digest = sha256(&text);
    Ok(PromiseFile {
        text,
        digest,
        file,
        says,
    })
}

/// What the promise file of this name says.
#[tactic(auto, using(nr_spec_plans::proofs::PlanLemmas::planning, crate::proofs::PlanSteps::settling), unfolding(nr_spec_program::specs::Command::promise_plan, nr_spec_plans::specs::Plans::Runs, nr_spec_plans::specs::Plans::followed_by))]
pub fn read_promise<F: Files>(alloc: Global, files: &mut F, name: &str) -> Result<PromiseFile, Stop>
    ensures { Does promise_file_of (promise_plan name.now) (F.disk files.old) (F.disk files.new) result }
{
    let text = read_input(alloc, files, Input::Promise, name)?;
    promise_from(alloc, text)
}

/// What an authenticator file holds.
pub fn read_auths<'a>(bytes: &'a [u8]) -> Result<Auths<'a>, Refusal>
    ensures { Settles (λ auths. auths) result (well_formed AuthsInput (auths_of bytes.now)) }
{
    match Auths::read(bytes) {
        Ok(auths) => Ok(auths),
        Err(place) => Err(Refusal::Malformed(Input::Auths, place)),
    }
}

// The 32 bytes of a file that has no others.
#[tactic(auto, unfolding(nr_spec_history::specs::KeyFiles::seed_of))]
fn seed_from(bytes: &[u8]) -> Result<Seed, Place>
    ensures { Answers seed_bytes offset_of result (seed_of bytes.now) }
{
    let mut cursor = Cursor::new(bytes);
    let found = cursor.take(32)?;
    if 0 < cursor.left() {
        return Err(Place(cursor.at()));
    }
    let mut seed = [0u8; 32];
    seed.copy_from_slice(found);
    Ok(Seed(seed))
}

/// The seed that a seed file is.
pub fn read_seed(bytes: &[u8]) -> Result<Seed, Refusal>
    ensures { Settles seed_bytes result (well_formed SeedInput (seed_of bytes.now)) }
{
    match seed_from(bytes) {
        Ok(seed) => Ok(seed),
        Err(place) => Err(Refusal::Malformed(Input::Seed, place)),
    }
}
