//! Frames, and files of them.

ghost use Rattle.std.specs.Prelude.{◌≡◌, ℕ, List, Ok};
ghost use Rattle.nr_spec_wire.specs.Reading.{IsBytes};
ghost use Rattle.nr_spec_log.specs.Authenticator.{AreAuthenticators, auths_file, auths_of};
ghost use Rattle.nr_spec_collecting.specs.Collecting.{heads_from};
ghost use Rattle.nr_spec_frames.specs.Frames.{Frame, IsFrame, AreFramed, frame, frame_of, frames_file, frames_of};

/// What is read as a frame is one, and the bytes are its spelling, all of them.
pub fn frame_found()
    ensures { (bytes : List ℕ) (f : Frame) → IsBytes bytes → frame_of bytes ≡ Ok f → IsFrame f × (bytes ≡ frame f) }
{}

/// The spelling of a frame is read as that frame.
pub fn frame_again()
    ensures { (f : Frame) → IsFrame f → frame_of (frame f) ≡ Ok f }
{}

/// What is read as a file of frames is the spelling of these frames' bytes, all of it.
pub fn frames_file_found()
    ensures { (bytes : List ℕ) (frames : List (List ℕ)) → IsBytes bytes → frames_of bytes ≡ Ok frames
        → AreFramed frames × (bytes ≡ frames_file frames) }
{}

/// The spelling of a file of frames is read as these frames' bytes.
pub fn frames_file_again()
    ensures { (frames : List (List ℕ)) → AreFramed frames → frames_of (frames_file frames) ≡ Ok frames }
{}

/// The authenticators of the frames of a file have spellings, whatever AS they are from, and the file that is written of
/// them is read as them.
pub fn collected_heads_read_back()
    ensures { (bytes : List ℕ) (frames : List (List ℕ)) (asn : ℕ) → IsBytes bytes → frames_of bytes ≡ Ok frames
        → AreAuthenticators (heads_from asn frames)
        × (auths_of (auths_file (heads_from asn frames)) ≡ Ok (heads_from asn frames)) }
{}
