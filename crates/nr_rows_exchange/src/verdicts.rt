//! What a network makes of a frame, one row for each verdict.

use crate::frames::{of_both, of_second, values};
use nr_bytes::List;
use nr_chain::Digest;
use nr_exchange::{Frame, Verdict, View, accept};
use std::alloc::Global;
use std::test::Fail;

// What is known of the neighbour: its root, the last accepted entry with its value, and the messages to it.
fn judged<'a>(
    alloc: Global,
    frame: &[u8],
    root: Digest,
    seq: u64,
    hash: Digest,
    sent: [&'a [u8]; 2],
) -> Result<Verdict, Fail> {
    let mut pending: List<&'a [u8]> = List::new(alloc);
    pending.push(sent[0])?;
    pending.push(sent[1])?;
    let frame = Frame::read(frame).ok().ok_or("a frame")?;
    let view = View {
        root,
        number: 0,
        seq,
        hash,
        upto: 0,
        pending: &pending,
    };
    Ok(accept(&view, &frame))
}

#[test]
fn receipts_are_matched_in_order(rt: HostRuntime) -> Result<(), Fail> {
    let (bytes, root) = of_both(rt.alloc())?;
    let (before, _, _) = values();
    assert!(rt;
        judged(rt.alloc(), &bytes, root, 0, before, [b"\x09", b"\x07"])? == Verdict::Accepted(2)
    );
    assert!(rt;
        judged(rt.alloc(), &bytes, root, 0, before, [b"\x07", b"\x07"])? == Verdict::Accepted(1)
    );
    assert!(rt;
        judged(rt.alloc(), &bytes, root, 0, before, [b"\x09", b"\x07\0"])? == Verdict::Disputed(0)
    );
    Ok(())
}

#[test]
fn a_frame_has_to_go_on_from_what_is_kept(rt: HostRuntime) -> Result<(), Fail> {
    let (bytes, root) = of_second(rt.alloc())?;
    let (before, first, second) = values();
    let none: [&[u8]; 2] = [b"", b""];
    assert!(rt; judged(rt.alloc(), &bytes, root, 0, before, none)? == Verdict::Unlinked);
    assert!(rt; judged(rt.alloc(), &bytes, root, 1, first, none)? == Verdict::Accepted(0));
    assert!(rt; judged(rt.alloc(), &bytes, root, 2, second, none)? == Verdict::Old);
    assert!(rt;
        judged(rt.alloc(), &bytes, root, 2, first, none)?
            == Verdict::Conflict {
                seq: 2,
                kept: first,
                found: second
            }
    );
    assert!(rt;
        judged(rt.alloc(), &bytes, root, 1, second, none)?
            == Verdict::Conflict {
                seq: 1,
                kept: second,
                found: first
            }
    );
    Ok(())
}

#[test]
fn the_first_line_that_applies(rt: HostRuntime) -> Result<(), Fail> {
    let (bytes, root) = of_second(rt.alloc())?;
    let (before, first, _) = values();
    let none: [&[u8]; 2] = [b"", b""];
    // unlinked, too
    assert!(rt; judged(rt.alloc(), &bytes, first, 0, before, none)? == Verdict::Unsigned);
    // nothing new, too
    assert!(rt;
        matches!(
            judged(rt.alloc(), &bytes, root, 2, before, none)?,
            Verdict::Conflict { seq: 2, .. }
        )
    );
    Ok(())
}
