//! Reading claims.

ghost use Rattle.std.specs.Prelude.{◌≡◌, ◌≤◌, ◌&&◌, ◌==◌, IfSome, is_some, nat_le};
ghost use Rattle.nr_spec_wire.specs.Reading.{Reads, IsOnward};
ghost use Rattle.nr_bytes.specs.Views.{offset_of};
ghost use Rattle.nr_spec_bgp.specs.Prefixes.{masked};
ghost use Rattle.nr_spec_evidence.specs.Evidence.{conflict_at, wrong_at, broken_at, claim_at};
ghost use Rattle.nr_evidence.specs.Views.{claim_of};

use nr_answer::Auth;
use nr_bytes::{Cursor, Place};
use nr_evidence::Claim;
use nr_prefix::Prefix;

#[tactic(auto, unfolding(nr_spec_evidence::specs::Evidence::conflict_at))]
fn read_conflict<'a>(cursor: &mut Cursor<'a>) -> Result<Claim<'a>, Place>
    ensures value { Reads claim_of offset_of result cursor.new (conflict_at cursor.old) }
    ensures onward { IsOnward cursor.old cursor.new }
{
    let auth = Auth::read(cursor)?;
    Ok(Claim::Conflict(auth))
}

fn is_cause(cause: u8) -> bool
    ensures { result ≡ (nat_le 1 cause && nat_le cause 8) }
{
    1 <= cause && cause <= 8
}

#[tactic(auto, unfolding(nr_spec_evidence::specs::Evidence::wrong_at))]
fn read_wrong<'a>(cursor: &mut Cursor<'a>) -> Result<Claim<'a>, Place>
    ensures value { Reads claim_of offset_of result cursor.new (wrong_at cursor.old) }
    ensures onward { IsOnward cursor.old cursor.new }
{
    let seq = cursor.read_u64()?;
    let at = cursor.at();
    let cause = cursor.read_u8()?;
    if !is_cause(cause) {
        return Err(Place(at));
    }
    Ok(Claim::Wrong { seq, cause })
}

// The prefix of an address that has no bit after the length.
fn prefix_of(addr: u32, len: u8) -> Option<Prefix>
    requires { len ≤ 32 }
    ensures some { IfSome result (λ p. p ≡ masked addr len) }
    ensures taken { is_some result ≡ ((masked addr len).addr == addr) }
{
    let prefix = Prefix::new(addr, len)?;
    if prefix.addr() == addr {
        Some(prefix)
    } else {
        None
    }
}

#[tactic(auto, unfolding(nr_spec_evidence::specs::Evidence::broken_at))]
fn read_broken<'a>(cursor: &mut Cursor<'a>) -> Result<Claim<'a>, Place>
    ensures value { Reads claim_of offset_of result cursor.new (broken_at cursor.old) }
    ensures onward { IsOnward cursor.old cursor.new }
{
    let promise = cursor.read_u16()?;
    let at = cursor.at();
    let len = cursor.read_u8()?;
    if len > 32 {
        return Err(Place(at));
    }
    let at = cursor.at();
    let addr = cursor.read_u32()?;
    let Some(prefix) = prefix_of(addr, len) else {
        return Err(Place(at));
    };
    let begin = cursor.read_u64()?;
    let end = cursor.read_u64()?;
    Ok(Claim::Broken {
        file: 0,
        promise,
        prefix,
        begin,
        end,
    })
}

/// Reads a claim. A fault may leave the cursor anywhere.
#[tactic(auto, unfolding(nr_spec_evidence::specs::Evidence::claim_at))]
pub fn read_claim<'a>(cursor: &mut Cursor<'a>) -> Result<Claim<'a>, Place>
    ensures value { Reads claim_of offset_of result cursor.new (claim_at cursor.old) }
    ensures onward { IsOnward cursor.old cursor.new }
{
    let at = cursor.at();
    let tag = cursor.read_u8()?;
    match tag {
        1 => read_conflict(cursor),
        2 => read_wrong(cursor),
        3 => read_broken(cursor),
        _ => Err(Place(at)),
    }
}
