//! The command `keygen`: a key file from a seed file.

ghost use Rattle.std.specs.Prelude.{◌≡◌, ◌∷◌, [], codes, IfOk};
ghost use Rattle.std.specs.String.{string_bytes};
ghost use Rattle.hex.specs.Hex.{encode_lower};
ghost use Rattle.nr_spec_history.specs.KeyFiles.{key_file, key_root};
ghost use Rattle.nr_spec_history.specs.Lines.{line};
ghost use Rattle.nr_spec_program.specs.Command.{keygen_plan, key_plan, key_ending};
ghost use Rattle.nr_command_parts.specs.Views.{Does};
ghost use Rattle.nr_requests.specs.Views.{keygen_request_of};
ghost use Rattle.nr_command_parts.specs.Endings.{ending_of};
ghost use Rattle.nr_commands.specs.Endings.{key_of};

use nr_bytes::{Memory, put_bytes, put_u8, put_u32};
use nr_chain::Digest;
use nr_command_parts::{Ending, Input, Stop, read_input, read_seed, write_file};
use nr_lamport::Seed;
use nr_merkle::Tree;
use nr_ports::Files;
use nr_requests::KeygenRequest;
use std::alloc::{AllocError, Global};

// The bytes of a key file.
#[tactic(auto, unfolding(nr_spec_history::specs::KeyFiles::key_file))]
fn key_bytes(alloc: Global, request: &KeygenRequest<'_>, seed: &Seed) -> Result<Vec<u8>, Memory>
    ensures { IfOk result (λ bytes. bytes.items ≡ key_file (key_of request.now seed.now)) }
{
    let mut bytes = Vec::new(alloc);
    put_bytes(&mut bytes, b"NRK1")?;
    put_u32(&mut bytes, request.asn)?;
    put_u8(&mut bytes, request.height)?;
    put_bytes(&mut bytes, &seed.0)?;
    Ok(bytes)
}

// The root of the key's tree.
#[tactic(auto, unfolding(nr_spec_history::specs::KeyFiles::key_root))]
fn key_root(alloc: Global, request: &KeygenRequest<'_>, seed: &Seed) -> Result<Digest, Memory>
    ensures { IfOk result (λ root. root.0 ≡ key_root (key_of request.now seed.now)) }
{
    let tree = Tree::build(alloc, seed, request.height)?;
    Ok(tree.root())
}

// The line with a root.
fn root_line(alloc: Global, root: &Digest) -> Result<String, AllocError>
    ensures { IfOk result (λ text. string_bytes text ≡ line (codes "root" ∷ encode_lower root.now.0 ∷ [])) }
{
    let root = hex::encode(alloc, root.0.as_slice())?;
    format!(in alloc; "root {root}\n")
}

// The ending of a key.
#[tactic(auto, unfolding(nr_spec_program::specs::Command::key_ending))]
fn key_ending(alloc: Global, request: &KeygenRequest<'_>, seed: &Seed) -> Result<Ending, Memory>
    ensures { IfOk result (λ e. ending_of e ≡ key_ending (key_of request.now seed.now)) }
{
    let root = key_root(alloc, request, seed)?;
    let text = root_line(alloc, &root)?;
    Ok(Ending {
        status: 0,
        text: text.into_bytes(),
    })
}

// The seed of the key that is asked for.
#[tactic(auto, using(nr_spec_plans::proofs::PlanLemmas::planning), unfolding(nr_spec_program::specs::Command::key_plan, nr_spec_plans::specs::Plans::Runs, nr_spec_plans::specs::Plans::followed_by))]
fn read_key<F: Files>(
    alloc: Global,
    files: &mut F,
    request: &KeygenRequest<'_>,
) -> Result<Seed, Stop>
    ensures { Does (key_of request.now) (key_plan (keygen_request_of request.now))
        (F.disk files.old) (F.disk files.new) result }
{
    let bytes = read_input(alloc, files, Input::Seed, request.seed)?;
    Ok(read_seed(&bytes)?)
}

/// What the request gives: the root of the key whose file was written and synced, or the first thing that
/// stops it. What this program takes of memory it takes before the key file is cut.
#[tactic(auto, using(nr_spec_plans::proofs::PlanLemmas::planning), unfolding(nr_spec_program::specs::Command::keygen_plan, nr_spec_plans::specs::Plans::Runs, nr_spec_plans::specs::Plans::followed_by))]
pub fn keygen<F: Files>(
    alloc: Global,
    files: &mut F,
    request: &KeygenRequest<'_>,
) -> Result<Ending, Stop>
    ensures { Does ending_of (keygen_plan (keygen_request_of request.now))
        (F.disk files.old) (F.disk files.new) result }
{
    let seed = read_key(alloc, files, request)?;
    let ending = key_ending(alloc, request, &seed)?;
    let key = key_bytes(alloc, request, &seed)?;
    write_file(files, request.key, &key)?;
    Ok(ending)
}
