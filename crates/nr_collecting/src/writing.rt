//! Writing authenticator files.

ghost use Rattle.std.specs.Prelude.{◌≡◌, ◌++◌, IfOk, OnOk, map};
ghost use Rattle.std.specs.List.{flat_map};
ghost use Rattle.nr_answer.specs.Views.{auth_of};
ghost use Rattle.nr_spec_log.specs.Authenticator.{authenticator, auths_file};

use nr_answer::Auth;
use nr_bytes::{List, Memory, put_bytes};
use std::alloc::Global;

const MAGIC: usize = 4;

// How many bytes the file has. One that passes the greatest number can't be had, and that number neither.
fn file_size(auths: &List<Auth<'_>>) -> usize {
    let mut size = MAGIC;
    for i in 0..auths.len() {
        match auths.get(i) {
            Some(auth) => size = size.saturating_add(auth.whole.len()),
            None => unreachable!(),
        }
    }
    size
}

fn put_auths(out: &mut Vec<u8>, auths: &List<Auth<'_>>) -> Result<(), Memory>
    ensures { OnOk result (out.new.items ≡ out.old.items ++ flat_map authenticator (map auth_of auths.now)) }
{
    for i in 0..auths.len() {
        match auths.get(i) {
            Some(auth) => put_bytes(out, auth.whole)?,
            None => unreachable!(),
        }
    }
    Ok(())
}

/// The bytes of the file of these authenticators: `NRT1`, and the spelling of each. The only error is that memory runs
/// out.
pub fn write_auths(alloc: Global, auths: &List<Auth<'_>>) -> Result<Vec<u8>, Memory>
    ensures { IfOk result (λ out. out.items ≡ auths_file (map auth_of auths.now)) }
{
    let mut out = Vec::with_capacity(alloc, file_size(auths))?;
    put_bytes(&mut out, b"NRT1")?;
    put_auths(&mut out, auths)?;
    Ok(out)
}
