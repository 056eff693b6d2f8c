//! Reading contents.

ghost use Rattle.std.specs.Prelude.{◌≡◌, ◌≤◌, ◌<◌, ◌⊎◌, ◌^◌, length, option_map, IfOk, IfSome};
ghost use Rattle.nr_bytes.specs.Views.{offset_of};
ghost use Rattle.nr_chain.specs.Views.{digest_bytes};
ghost use Rattle.nr_spec_wire.specs.Reading.{Reads, Answers, IsOnward, start_of, bytes_at};
ghost use Rattle.nr_spec_log.specs.Authenticator.{digest_size};
ghost use Rattle.nr_spec_entry.specs.Contents.{IsContent};
ghost use Rattle.nr_spec_entry.specs.ContentReading.{neighbour_at, exchange_at, state_at, ack_at, commit_at, checkpoint_at, promise_at, content_at, content_in};
ghost use Rattle.nr_entry.specs.Views.{content_view, exchange_view};

use crate::content::{AUDITOR, Content, PROMISE};
use nr_bytes::{Cursor, Place};
use nr_chain::Digest;

const SEND: u8 = 1;

const RECV: u8 = 2;

const STATE: u8 = 3;

const ACK: u8 = 4;

const COMMIT: u8 = 5;

const CHECKPOINT: u8 = 6;

// A year in seconds.
const MOST_DELAY: u32 = 31_536_000;

// A neighbour, which is below 256.
fn read_neighbour(cursor: &mut Cursor<'_>) -> Result<u16, Place>
    ensures value { Reads (λ n. n) offset_of result cursor.new (neighbour_at cursor.old) }
    ensures onward { IsOnward cursor.old cursor.new }
    ensures range { IfOk result (λ n. n < 256) }
{
    let at = cursor.at();
    let neighbour = cursor.read_u16()?;
    if neighbour >= 256 {
        return Err(Place(at));
    }
    Ok(neighbour)
}

fn digest_from(bytes: &[u8]) -> Digest
    requires { length bytes.now ≡ 32 }
    ensures { result.0 ≡ bytes.now }
{
    let mut digest = [0u8; 32];
    digest.copy_from_slice(bytes);
    Digest(digest)
}

fn read_digest(cursor: &mut Cursor<'_>) -> Result<Digest, Place>
    ensures value { Reads digest_bytes offset_of result cursor.new (bytes_at digest_size cursor.old) }
    ensures onward { IsOnward cursor.old cursor.new }
{
    let bytes = cursor.take(32)?;
    Ok(digest_from(bytes))
}

// A neighbour, whether AS numbers have four bytes, and a message.
#[derive(Clone, Copy, Debug)]
struct Exchange<'a> {
    neighbour: u16,
    as4: bool,
    raw: &'a [u8],
}

#[tactic(auto, unfolding(nr_spec_entry::specs::ContentReading::exchange_at))]
fn read_exchange<'a>(content: &'a [u8]) -> Result<Exchange<'a>, Place>
    ensures value { Answers exchange_view offset_of result (exchange_at (start_of content.now)) }
    ensures range { IfOk result (λ x. x.neighbour < 256) }
{
    let mut cursor = Cursor::new(content);
    let neighbour = read_neighbour(&mut cursor)?;
    let at = cursor.at();
    let as4 = cursor.read_u8()?;
    if as4 > 1 {
        return Err(Place(at));
    }
    Ok(Exchange {
        neighbour,
        as4: as4 == 1,
        raw: &content[3..],
    })
}

#[tactic(auto, unfolding(nr_spec_entry::specs::ContentReading::state_at))]
fn read_state<'a>(content: &'a [u8]) -> Result<Content<'a>, Place>
    ensures value { Answers content_view offset_of result (state_at (start_of content.now)) }
    ensures range { IfOk result (λ c. IsContent (content_view c)) }
{
    let mut cursor = Cursor::new(content);
    let neighbour = read_neighbour(&mut cursor)?;
    let old = cursor.read_u16()?;
    let new = cursor.read_u16()?;
    if cursor.left() > 0 {
        return Err(Place(cursor.at()));
    }
    Ok(Content::State {
        neighbour,
        old,
        new,
    })
}

#[tactic(auto, unfolding(nr_spec_entry::specs::ContentReading::ack_at))]
fn read_ack<'a>(content: &'a [u8]) -> Result<Content<'a>, Place>
    ensures value { Answers content_view offset_of result (ack_at (start_of content.now)) }
    ensures range { IfOk result (λ c. IsContent (content_view c)) }
{
    let mut cursor = Cursor::new(content);
    let neighbour = read_neighbour(&mut cursor)?;
    let upto = cursor.read_u64()?;
    let seq = cursor.read_u64()?;
    let time = cursor.read_u64()?;
    let hash = read_digest(&mut cursor)?;
    let sig = read_digest(&mut cursor)?;
    if cursor.left() > 0 {
        return Err(Place(cursor.at()));
    }
    Ok(Content::Ack {
        neighbour,
        upto,
        seq,
        time,
        hash,
        sig,
    })
}

#[tactic(auto, unfolding(nr_spec_entry::specs::ContentReading::commit_at))]
fn read_commit<'a>(content: &'a [u8]) -> Result<Content<'a>, Place>
    ensures value { Answers content_view offset_of result (commit_at (start_of content.now)) }
    ensures range { IfOk result (λ c. IsContent (content_view c)) }
{
    let mut cursor = Cursor::new(content);
    let at = cursor.at();
    let neighbour = cursor.read_u16()?;
    if neighbour >= 256 && neighbour != AUDITOR {
        return Err(Place(at));
    }
    let leaf = cursor.read_u32()?;
    if cursor.left() > 0 {
        return Err(Place(cursor.at()));
    }
    Ok(Content::Commit { neighbour, leaf })
}

#[tactic(auto, unfolding(nr_spec_entry::specs::ContentReading::checkpoint_at))]
fn read_checkpoint<'a>(content: &'a [u8]) -> Result<Content<'a>, Place>
    ensures value { Answers content_view offset_of result (checkpoint_at (start_of content.now)) }
    ensures range { IfOk result (λ c. IsContent (content_view c)) }
{
    let mut cursor = Cursor::new(content);
    let body = read_digest(&mut cursor)?;
    if cursor.left() > 0 {
        return Err(Place(cursor.at()));
    }
    Ok(Content::Checkpoint { body })
}

#[tactic(auto, unfolding(nr_spec_entry::specs::ContentReading::promise_at))]
fn read_promise<'a>(content: &'a [u8]) -> Result<Content<'a>, Place>
    ensures value { Answers content_view offset_of result (promise_at (start_of content.now)) }
    ensures range { IfOk result (λ c. IsContent (content_view c)) }
{
    let mut cursor = Cursor::new(content);
    let file = read_digest(&mut cursor)?;
    let at = cursor.at();
    let count = cursor.read_u16()?;
    if count > 256 {
        return Err(Place(at));
    }
    let at = cursor.at();
    let delay = cursor.read_u32()?;
    if delay > MOST_DELAY {
        return Err(Place(at));
    }
    if cursor.left() > 0 {
        return Err(Place(cursor.at()));
    }
    Ok(Content::Promise { file, count, delay })
}

#[tactic(auto, unfolding(nr_spec_entry::specs::ContentReading::content_at))]
fn read_content<'a>(kind: u8, content: &'a [u8]) -> Result<Content<'a>, Place>
    ensures value { Answers content_view offset_of result (content_at kind (start_of content.now)) }
    ensures range { IfOk result (λ c. IsContent (content_view c)) }
{
    match kind {
        SEND => {
            let sent = read_exchange(content)?;
            Ok(Content::Send {
                neighbour: sent.neighbour,
                as4: sent.as4,
                raw: sent.raw,
            })
        }
        RECV => {
            let received = read_exchange(content)?;
            Ok(Content::Recv {
                neighbour: received.neighbour,
                as4: received.as4,
                raw: received.raw,
            })
        }
        STATE => read_state(content),
        ACK => read_ack(content),
        COMMIT => read_commit(content),
        CHECKPOINT => read_checkpoint(content),
        PROMISE => read_promise(content),
        _ => Err(Place(0)),
    }
}

/// Reads the content of an entry of a kind. `None` comes exactly where the bytes aren't in the grammar of that kind.
pub fn read<'a>(kind: u8, content: &'a [u8]) -> Option<Content<'a>>
    ensures value { option_map content_view result ≡ content_in kind content.now }
    ensures range { IfSome result (λ c. IsContent (content_view c)) }
{
    read_content(kind, content).ok()
}
