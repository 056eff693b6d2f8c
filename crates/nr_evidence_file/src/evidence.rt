//! Evidence files.

ghost use Rattle.std.specs.Prelude.{◌≡◌, ◌≤◌, IfOk, length};
ghost use Rattle.nr_spec_wire.specs.Reading.{Answers, Reads, IsOnward};
ghost use Rattle.nr_spec_log.specs.Authenticator.{magic_at};
ghost use Rattle.nr_bytes.specs.Views.{offset_of};
ghost use Rattle.nr_evidence.specs.Views.{period_of};
ghost use Rattle.nr_spec_evidence.specs.Evidence.{evidence_of, sized_at, answer_offset, promise_offset, to_offset};

use crate::claims::{Claims, read_claims};
use nr_bytes::{Cursor, Place};
use nr_evidence::Period;
use std::marker::Model;

/// An evidence file: an answer file's bytes, a promise file's bytes, a period, and claims. What stands inside the
/// first two isn't looked at.
#[derive(Drop)]
pub struct Evidence<'a> {
    answer: &'a [u8],
    promise: &'a [u8],
    period: Period,
    claims: Claims<'a>,
}

impl<'a> Model for Evidence<'a> {
    ghost use Rattle.std.specs.Prelude.{◌≤◌, length};
    ghost use Rattle.nr_evidence.specs.Views.{period_of};
    ghost use Rattle.nr_spec_evidence.specs.Evidence.{EvidenceFile};

    ghost Value = { EvidenceFile };

    ghost view = { λ e. record {
      answer = e.answer.now;
      promise = e.promise.now;
      period = period_of e.period;
      claims = e.claims;
    } };

    ghost invariant = { λ e. (length e.answer.now ≤ 2147483647) × (length e.promise.now ≤ 1048576) };
}

// The four bytes with which a file begins.
fn read_magic<'a>(cursor: &mut Cursor<'a>, magic: &[u8; 4]) -> Result<&'a [u8], Place>
    ensures value { Reads (λ found. found.now) offset_of result cursor.new (magic_at magic.now cursor.old) }
    ensures onward { IsOnward cursor.old cursor.new }
{
    let at = cursor.at();
    let found = cursor.take(4)?;
    if found != magic.as_slice() {
        return Err(Place(at));
    }
    Ok(found)
}

// Bytes behind their length, which is at most this.
#[tactic(auto, unfolding(nr_spec_evidence::specs::Evidence::sized_at))]
fn read_sized<'a>(cursor: &mut Cursor<'a>, most: u32) -> Result<&'a [u8], Place>
    ensures value { Reads (λ bytes. bytes.now) offset_of result cursor.new (sized_at most cursor.old) }
    ensures onward { IsOnward cursor.old cursor.new }
    ensures bound { IfOk result (λ bytes. length bytes.now ≤ most) }
{
    let at = cursor.at();
    let size = cursor.read_u32()?;
    if size > most {
        return Err(Place(at));
    }
    let bytes = cursor.take(size)?;
    Ok(bytes)
}

impl<'a> Evidence<'a> {
    /// Reads an evidence file, or names its first malformed field.
    #[tactic(auto, unfolding(nr_spec_evidence::specs::Evidence::evidence_of))]
    pub fn read(bytes: &'a [u8]) -> Result<Evidence<'a>, Place>
        ensures { Answers (λ e. e) offset_of result (evidence_of bytes.now) }
    {
        let mut cursor = Cursor::new(bytes);
        read_magic(&mut cursor, b"NRE1")?;
        let answer = read_sized(&mut cursor, 2_147_483_647)?;
        let promise = read_sized(&mut cursor, 1_048_576)?;
        let from = cursor.read_u64()?;
        let to = cursor.read_u64()?;
        let count = cursor.read_u32()?;
        let claims = read_claims(&mut cursor, count)?;
        if cursor.left() != 0 {
            return Err(Place(cursor.at()));
        }
        Ok(Evidence {
            answer,
            promise,
            period: Period { from, to },
            claims,
        })
    }

    /// The answer file, and its offset.
    pub fn answer(&self) -> (Place, &'a [u8])
        ensures bytes { result.1.now ≡ self.now.answer }
        ensures place { result.0.0 ≡ answer_offset }
    {
        (Place(8), self.answer)
    }

    /// The promise file, and its offset.
    pub fn promise(&self) -> (Place, &'a [u8])
        ensures bytes { result.1.now ≡ self.now.promise }
        ensures place { result.0.0 ≡ promise_offset self.now.answer }
    {
        (Place(12 + self.answer.len() as u64), self.promise)
    }

    /// The period.
    pub fn period(&self) -> Period
        ensures { period_of result ≡ self.now.period }
    {
        self.period
    }

    /// The offset of the period's second end.
    pub fn end_place(&self) -> Place
        ensures { result.0 ≡ to_offset self.now.answer self.now.promise }
    {
        Place(20 + self.answer.len() as u64 + self.promise.len() as u64)
    }

    /// The claims, in order.
    pub fn claims(&self) -> Claims<'a>
        ensures { result ≡ self.now.claims }
    {
        self.claims.fork()
    }
}
