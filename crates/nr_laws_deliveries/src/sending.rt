//! What the frames of a recorder show.

ghost use Rattle.std.specs.Prelude.{◌≡◌, ◌<◌, ◌≤◌, ℕ, List, length, take, true};
ghost use Rattle.nr_spec_log.specs.Chain.{LogEntry, value_after};
ghost use Rattle.nr_spec_history.specs.KeyFiles.{Key, key_root};
ghost use Rattle.nr_spec_frames.specs.Frames.{IsFrame};
ghost use Rattle.nr_spec_frames.specs.Showing.{Shows};
ghost use Rattle.nr_spec_frames.specs.Verdicts.{is_signed_end};
ghost use Rattle.nr_spec_steps.specs.Heads.{log_chain};
ghost use Rattle.nr_spec_deliveries.specs.Sending.{frame_for};
ghost use Rattle.nr_laws_deliveries.specs.Rooms.{HasRoom};

/// A frame shows the neighbour the entries after `after` up to entry k of the log, and hides those that don't name it.
pub fn frame_shows_the_log()
    ensures { (key : Key) (to_as n : ℕ) (log : List LogEntry) (after k : ℕ) → after < k → k ≤ length log
        → Shows n log after k (frame_for key to_as n log after k) }
{}

/// The authenticator of a frame states the number and the chain value of its last entry.
pub fn frame_head_states_its_last_entry()
    ensures { (key : Key) (to_as n : ℕ) (log : List LogEntry) (after k : ℕ) → k ≤ length log
        → ((frame_for key to_as n log after k).auth.seq ≡ k)
        × ((frame_for key to_as n log after k).auth.hash ≡ value_after (log_chain key.asn) (take k log)) }
{}

/// The authenticator of a frame is signed under the key's root and speaks of the frame's last item, with the AS, the number,
/// the time and the chain value that its receiver finds there: no frame of a recorder is `unsigned`.
pub fn a_frame_is_signed_as_its_receiver_asks()
    ensures { (key : Key) (to_as n : ℕ) (log : List LogEntry) (after k : ℕ) → after < k → k ≤ length log
        → is_signed_end (key_root key) (frame_for key to_as n log after k) ≡ true }
{}

/// Where what it shows has room, it is a frame, so it has a spelling, which is read as this frame.
pub fn what_a_recorder_sends_is_a_frame()
    ensures { (key : Key) (to_as n : ℕ) (log : List LogEntry) (after k : ℕ) → HasRoom key to_as n log after k
        → IsFrame (frame_for key to_as n log after k) }
{}
