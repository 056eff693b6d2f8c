//! The authenticators of a file's frames.

ghost use Rattle.std.specs.Prelude.{◌≡◌, IfOk, map, option_map};
ghost use Rattle.nr_answer.specs.Views.{auth_of};
ghost use Rattle.nr_spec_frames.specs.Frames.{frame_of};
ghost use Rattle.nr_spec_collecting.specs.Collecting.{head_from, heads_from};

use nr_answer::Auth;
use nr_bytes::{List, Memory};
use nr_exchange::{Frame, Frames};
use std::alloc::Global;

// The authenticator of a frame from an AS. Bytes that aren't a frame have none.
fn head_of<'a>(bytes: &'a [u8], asn: u32) -> Option<Auth<'a>>
    ensures { option_map auth_of result ≡ head_from asn (frame_of bytes.now) }
{
    match Frame::read(bytes) {
        Ok(frame) => {
            if frame.from_as == asn {
                Some(frame.auth)
            } else {
                None
            }
        }
        Err(_) => None,
    }
}

/// The authenticators of the frames from AS `asn`, in file order: of those whose `from_as` it is. Bytes that don't read
/// as a frame are passed over. That an authenticator speaks of its frame, or of this AS, or is signed, isn't looked at:
/// this is for whoever takes it. The only error is that memory runs out.
pub fn collect_heads<'a>(
    alloc: Global,
    frames: &Frames<'a>,
    asn: u32,
) -> Result<List<Auth<'a>>, Memory>
    ensures { IfOk result (λ heads. map auth_of heads ≡ heads_from asn frames.now) }
{
    let mut heads = List::new(alloc);
    for bytes in frames.iter() {
        if let Some(head) = head_of(bytes, asn) {
            heads.push(head)?;
        }
    }
    Ok(heads)
}
