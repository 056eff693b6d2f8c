//! What a network makes of a frame.

ghost use Rattle.std.specs.Prelude.{◌≡◌, ◌&&◌, ◌+◌, ◌<◌, ◌≤◌, ◌^◌, length, map, nat_le, option_map};
ghost use Rattle.nr_spec_history.specs.Conflicts.{is_signed};
ghost use Rattle.nr_spec_frames.specs.Verdicts.{received_from, receipt_in, receipts, frame_value, last_item_time, last_seq, is_signed_end, matched, verdict};
ghost use Rattle.nr_answer.specs.Views.{auth_of};
ghost use Rattle.nr_entry.specs.Views.{content_view};
ghost use Rattle.nr_exchange.specs.Views.{frame_item_of, view_seen, verdict_of};
ghost use Rattle.nr_exchange.specs.Matching.{Finds, receipt_if};

use crate::frame::Frame;
use crate::items::time_of;
use nr_answer::Auth;
use nr_bytes::List;
use nr_chain::{Digest, Item, Walk};
use nr_entry::Content;

/// What one network knows of a neighbour: the root of its key, the number that the neighbour uses for this session, the
/// last accepted number of an entry with its chain value (0 and the genesis value before the first), how many of the
/// messages to the neighbour are acknowledged, and the messages after these.
#[derive(Clone, Copy)]
pub struct View<'a> {
    pub root: Digest,
    pub number: u16,
    pub seq: u64,
    pub hash: Digest,
    pub upto: u64,
    pub pending: &'a List<&'a [u8]>,
}

/// What a network makes of a frame.
#[derive(Clone, Copy, Debug, PartialEq, Eq)]
pub enum Verdict {
    /// The receipts stand in order up to this message, counted from 1; the number from before where there is none.
    Accepted(u64),
    /// It shows nothing after what is accepted already.
    Old,
    /// Its authenticator isn't the neighbour's, or doesn't speak of its last item.
    Unsigned,
    /// Entries are missing before its first.
    Unlinked,
    /// It gives the last accepted entry another chain value than the kept one.
    Conflict {
        seq: u64,
        kept: Digest,
        found: Digest,
    },
    /// The neighbour says that a message came which isn't among those sent. Receipts are counted from 0.
    Disputed(u32),
}

// ---- what the items say

// A message that came from a neighbour.
fn raw_from<'a>(content: Option<Content<'a>>, number: u16) -> Option<&'a [u8]>
    ensures { option_map (λ raw. raw.now) result ≡ received_from number (option_map content_view content.entry) }
{
    match content {
        Some(Content::Recv { neighbour, raw, .. }) => {
            if neighbour == number { Some(raw) } else { None }
        }
        _ => None,
    }
}

// The receipt in an item.
fn receipt_of<'a>(item: &Item<'a>, number: u16) -> Option<&'a [u8]>
    ensures { option_map (λ raw. raw.now) result ≡ receipt_in number (frame_item_of item.now) }
{
    match item {
        Item::Shown(entry) => raw_from(nr_entry::read(entry.kind, entry.content), number),
        Item::Hidden { .. } => None,
    }
}

// The receipt in the item of entry `seq`, where that stands after the accepted one.
fn receipt_after<'a>(item: &Item<'a>, number: u16, accepted: u64, seq: u64) -> Option<&'a [u8]>
    ensures { option_map (λ raw. raw.now) result ≡ receipt_if number accepted seq (frame_item_of item.now) }
{
    if accepted < seq {
        receipt_of(item, number)
    } else {
        None
    }
}

// The chain value that a frame gives to an entry.
fn value_at(frame: &Frame<'_>, seq: u64) -> Digest
    requires { seq ≤ last_seq frame.now }
    ensures { result.0 ≡ frame_value frame.now seq }
{
    let mut walk = Walk::new(frame.prev, frame.first);
    for item in frame.items() {
        if walk.next_seq() <= seq {
            walk.push(&item);
        }
    }
    walk.value()
}

// The time of the last item.
fn end_time(frame: &Frame<'_>) -> u64
    ensures { result ≡ last_item_time 0 frame.now.items }
{
    let mut time = 0;
    for item in frame.items() {
        time = time_of(&item);
    }
    time
}

// ---- the lines of the table

fn is_under(root: &Digest, auth: &Auth<'_>) -> bool
    ensures { result ≡ is_signed root.now.0 (auth_of auth.now) }
{
    auth.signed(root)
}

// Whether the authenticator is signed under the root, and speaks of the last item.
fn is_signed(root: &Digest, frame: &Frame<'_>) -> bool
    ensures { result ≡ is_signed_end root.now.0 frame.now }
{
    let last = frame.last_seq();
    is_under(root, &frame.auth)
        && frame.auth.asn == frame.from_as
        && frame.auth.seq == last
        && frame.auth.time == end_time(frame)
        && frame.auth.hash.0.as_slice() == value_at(frame, last).0.as_slice()
}

// Whether a frame speaks of an entry, or begins after it.
fn reaches(seq: u64, frame: &Frame<'_>) -> bool
    ensures { result ≡ (nat_le frame.now.first (seq + 1) && nat_le seq (last_seq frame.now)) }
{
    frame.first - 1 <= seq && seq <= frame.last_seq()
}

// The first message from a place on that has these bytes.
fn find_from(pending: &List<&[u8]>, from: usize, raw: &[u8]) -> Option<usize>
    requires { from ≤ length pending.now }
    ensures { Finds (map (λ p. p.now) pending.now) from raw.now result }
{
    for i in from..pending.len() {
        match pending.get(i) {
            Some(send) => {
                if send == raw {
                    return Some(i);
                }
            }
            None => unreachable!(),
        }
    }
    None
}

// The receipts against the messages that are pending.
fn match_receipts(view: &View<'_>, frame: &Frame<'_>) -> Verdict
    requires { view.now.upto + length view.now.pending.now < 2 ^ 64 }
    ensures { verdict_of result ≡ matched view.now.upto 0 (receipts view.now.number view.now.seq frame.now)
        (map (λ p. p.now) view.now.pending.now) }
{
    let mut seq = frame.first;
    let mut next = 0;
    let mut receipt = 0;
    for item in frame.items() {
        if let Some(raw) = receipt_after(&item, view.number, view.seq, seq) {
            match find_from(view.pending, next, raw) {
                Some(at) => {
                    next = at + 1;
                    receipt += 1;
                }
                None => return Verdict::Disputed(receipt),
            }
        }
        seq += 1;
    }
    Verdict::Accepted(view.upto + next as u64)
}

/// What a network makes of a frame: the first line that applies of the table in docs/exchange.md. It takes no memory.
///
/// Nothing of `from_as` (but that the authenticator has it), `to_as` and `number` is compared with the view: the caller
/// has to test first that the frame is from this neighbour and for this network.
#[tactic(auto, unfolding(nr_spec_frames::specs::Verdicts::verdict))]
pub fn accept(view: &View<'_>, frame: &Frame<'_>) -> Verdict
    requires { view.now.upto + length view.now.pending.now < 2 ^ 64 }
    ensures { verdict_of result ≡ verdict (view_seen view.now) frame.now }
{
    if !is_signed(&view.root, frame) {
        return Verdict::Unsigned;
    }
    if view.seq < frame.first - 1 {
        return Verdict::Unlinked;
    }
    if reaches(view.seq, frame) {
        let found = value_at(frame, view.seq);
        if found.0.as_slice() != view.hash.0.as_slice() {
            return Verdict::Conflict {
                seq: view.seq,
                kept: view.hash,
                found,
            };
        }
    }
    if frame.last_seq() <= view.seq {
        return Verdict::Old;
    }
    match_receipts(view, frame)
}
