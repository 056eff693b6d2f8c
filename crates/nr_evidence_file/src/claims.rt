//! The claims of a file.

ghost use Rattle.std.specs.Prelude.{◌≡◌};
ghost use Rattle.std.specs.Iterator.{YieldsFirstBy, item_count};
ghost use Rattle.nr_spec_wire.specs.Reading.{Reads, IsOnward};
ghost use Rattle.nr_bytes.specs.Views.{offset_of};
ghost use Rattle.nr_spec_evidence.specs.Counted.{counted_at, Stops};
ghost use Rattle.nr_spec_evidence.specs.Evidence.{claim_at};
ghost use Rattle.nr_evidence.specs.Views.{claim_of};

use crate::claim::read_claim;
use nr_bytes::{Cursor, Place};
use nr_evidence::Claim;
use std::marker::Model;

/// The claims of a file, in order.
#[derive(Drop)]
pub struct Claims<'a> {
    cursor: Cursor<'a>,
    left: u32,
}

impl<'a> Model for Claims<'a> {
    ghost use Rattle.std.specs.Prelude.{List, None, ◌≡◌};
    ghost use Rattle.nr_spec_wire.specs.Reading.{rows, fault};
    ghost use Rattle.nr_spec_report.specs.Claims.{Claim};
    ghost use Rattle.nr_spec_evidence.specs.Counted.{counted_at};
    ghost use Rattle.nr_spec_evidence.specs.Evidence.{claim_at};

    ghost Value = { List Claim };

    ghost view = { λ c. rows (counted_at claim_at c.left c.cursor) };

    ghost invariant = { λ c. fault (counted_at claim_at c.left c.cursor) ≡ None };
}

impl<'a> Claims<'a> {
    /// The same claims once more.
    pub fn fork(&self) -> Claims<'a>
        ensures { result ≡ self.now }
    {
        Claims {
            cursor: self.cursor.fork(),
            left: self.left,
        }
    }
}

impl<'a> Iterator for Claims<'a> {
    type Item = Claim<'a>;

    ghost next_gives = { YieldsFirstBy claim_of (λ c. c) };

    ghost remaining = { item_count (λ c. c) };

    fn next(&mut self) -> Option<Claim<'a>> {
        if self.left == 0 {
            return None;
        }
        match read_claim(&mut self.cursor) {
            Ok(claim) => {
                self.left -= 1;
                Some(claim)
            }
            Err(_) => unreachable!(),
        }
    }
}

// Reads a claim, and keeps only whether it reads.
fn pass_claim(cursor: &mut Cursor<'_>) -> Result<(), Place>
    ensures value { Stops offset_of result cursor.new (claim_at cursor.old) }
    ensures onward { IsOnward cursor.old cursor.new }
{
    match read_claim(cursor) {
        Ok(_) => Ok(()),
        Err(place) => Err(place),
    }
}

/// So many claims.
pub fn read_claims<'a>(cursor: &mut Cursor<'a>, count: u32) -> Result<Claims<'a>, Place>
    ensures value { Reads (λ claims. claims) offset_of result cursor.new (counted_at claim_at count cursor.old) }
    ensures onward { IsOnward cursor.old cursor.new }
{
    let start = cursor.fork();
    for _ in 0..count {
        pass_claim(cursor)?;
    }
    Ok(Claims {
        cursor: start,
        left: count,
    })
}
