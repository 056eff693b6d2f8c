//! Reading authenticators.

ghost use Rattle.std.specs.Prelude.{◌≡◌, ◌≤◌, ◌==◌, ◌++◌, ◌↔◌, IsTrue, IfOk, Option, None, Some, length, drop};
ghost use Rattle.byteorder.specs.Endian.{big_bytes};
ghost use Rattle.nr_spec_wire.specs.Reading.{Reads, Gives, IsOnward, between};
ghost use Rattle.nr_spec_log.specs.Authenticator.{wanted_at, authenticator_at, signed_body, is_asn_of, is_seq_of, is_time_of};
ghost use Rattle.nr_spec_keys.specs.Trees.{IsSigned};
ghost use Rattle.nr_bytes.specs.Views.{offset_of};
ghost use Rattle.nr_answer.specs.Views.{auth_of, statement_of, wanted_of};

use crate::auth::Auth;
use crate::fields::read_digest;
use byteorder::{BigEndian, ByteOrder};
use nr_bytes::{Cursor, Place};
use nr_chain::Digest;
use nr_merkle::{Sig, verify};

/// The entry that an authenticator has to speak of.
#[derive(Clone, Copy, Debug)]
pub struct Wanted {
    pub asn: u32,
    pub seq: u64,
    pub time: u64,
}

fn is_wanted_asn(wanted: Option<Wanted>, asn: u32) -> bool
    ensures { result ≡ is_asn_of (wanted_of wanted) asn }
{
    match wanted {
        None => true,
        Some(w) => asn == w.asn,
    }
}

fn is_wanted_seq(wanted: Option<Wanted>, seq: u64) -> bool
    ensures { result ≡ is_seq_of (wanted_of wanted) seq }
{
    match wanted {
        None => true,
        Some(w) => seq == w.seq,
    }
}

fn is_wanted_time(wanted: Option<Wanted>, time: u64) -> bool
    ensures { result ≡ is_time_of (wanted_of wanted) time }
{
    match wanted {
        None => true,
        Some(w) => time == w.time,
    }
}

// A number and what follows it.
fn put_front(out: &mut [u8], asn: u32, seq: u64)
    requires { 12 ≤ length out.old }
    ensures { out.new ≡ (big_bytes 4 asn ++ big_bytes 8 seq) ++ drop 12 out.old }
{
    BigEndian::write_u32(out, asn);
    BigEndian::write_u64(&mut out[4..], seq);
}

// The bytes that are signed.
fn body_of(asn: u32, seq: u64, time: u64, hash: &Digest) -> [u8; 52]
    ensures { result ≡ big_bytes 4 asn ++ (big_bytes 8 seq ++ (big_bytes 8 time ++ hash.now.0)) }
{
    let mut body = [0u8; 52];
    put_front(&mut body, asn, seq);
    BigEndian::write_u64(&mut body[12..], time);
    body[20..].copy_from_slice(&hash.0);
    body
}

// The fields of an authenticator, without the bytes that they were read from.
#[derive(Clone, Copy, Debug)]
pub struct Statement<'a> {
    asn: u32,
    seq: u64,
    time: u64,
    hash: Digest,
    sig: Sig<'a>,
}

// The fields of an authenticator that speaks of the wanted entry.
#[tactic(auto, unfolding(nr_spec_log::specs::Authenticator::wanted_at))]
fn read_statement<'a>(
    cursor: &mut Cursor<'a>,
    wanted: Option<Wanted>,
) -> Result<Statement<'a>, Place>
    ensures value { Reads statement_of offset_of result cursor.new (wanted_at (wanted_of wanted) cursor.old) }
    ensures onward { IsOnward cursor.old cursor.new }
{
    let at = cursor.at();
    let asn = cursor.read_u32()?;
    if !is_wanted_asn(wanted, asn) {
        return Err(Place(at));
    }
    let at = cursor.at();
    let seq = cursor.read_u64()?;
    if !is_wanted_seq(wanted, seq) {
        return Err(Place(at));
    }
    let at = cursor.at();
    let time = cursor.read_u64()?;
    if !is_wanted_time(wanted, time) {
        return Err(Place(at));
    }
    let hash = read_digest(cursor)?;
    let sig = Sig::read(cursor)?;
    Ok(Statement {
        asn,
        seq,
        time,
        hash,
        sig,
    })
}

/// An authenticator that speaks of the wanted entry. A fault may leave the cursor anywhere.
pub fn read_wanted<'a>(cursor: &mut Cursor<'a>, wanted: Option<Wanted>) -> Result<Auth<'a>, Place>
    ensures value { Reads auth_of offset_of result cursor.new (wanted_at (wanted_of wanted) cursor.old) }
    ensures onward { IsOnward cursor.old cursor.new }
    ensures whole { IfOk result (λ auth. auth.whole.now ≡ between cursor.old cursor.new) }
{
    let start = cursor.fork();
    let statement = read_statement(cursor, wanted)?;
    let whole = cursor.since(&start);
    Ok(Auth {
        asn: statement.asn,
        seq: statement.seq,
        time: statement.time,
        hash: statement.hash,
        sig: statement.sig,
        whole,
    })
}

impl<'a> Auth<'a> {
    /// Reads an authenticator, or names its first malformed field and leaves the cursor where it was.
    pub fn read(cursor: &mut Cursor<'a>) -> Result<Auth<'a>, Place>
        ensures value { Gives auth_of offset_of result cursor.old cursor.new (authenticator_at cursor.old) }
        ensures onward { IsOnward cursor.old cursor.new }
        ensures whole { IfOk result (λ auth. auth.whole.now ≡ between cursor.old cursor.new) }
    {
        let mut ahead = cursor.fork();
        let auth = read_wanted(&mut ahead, None)?;
        *cursor = ahead;
        Ok(auth)
    }

    /// Whether it is signed under a root: its signature signs its AS, seq, time and hash.
    pub fn signed(&self, root: &Digest) -> bool
        ensures { IsTrue result ↔ IsSigned root.now.0 (signed_body (auth_of self.now)) (auth_of self.now).sig }
    {
        let body = body_of(self.asn, self.seq, self.time, &self.hash);
        verify(root, &body, &self.sig)
    }
}
