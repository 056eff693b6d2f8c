//! What a recorder acknowledges.

ghost use Rattle.std.specs.Prelude.{◌≡◌, ◌≤◌, ℕ, List, Ok, Some, length};
ghost use Rattle.nr_spec_wire.specs.Reading.{IsBytes};
ghost use Rattle.nr_spec_log.specs.Chain.{LogEntry};
ghost use Rattle.nr_spec_entry.specs.Contents.{Content};
ghost use Rattle.nr_spec_counts.specs.Tallies.{Numbers};
ghost use Rattle.nr_spec_frames.specs.Frames.{Frame, frame_of};
ghost use Rattle.nr_spec_frames.specs.Verdicts.{Accepted, verdict};
ghost use Rattle.nr_spec_steps.specs.Steps.{known};
ghost use Rattle.nr_spec_steps.specs.Telling.{IsFairAck};
ghost use Rattle.nr_spec_deliveries.specs.Sending.{Peer};
ghost use Rattle.nr_spec_deliveries.specs.Deliveries.{acknowledged_by};
ghost use Rattle.nr_laws_deliveries.specs.Laws.{IsAcceptance};

/// Behind a log whose last ACK of each neighbour acknowledges no more messages than were sent to it, what is acknowledged
/// is an ACK of a neighbour of the own file, whose place isn't before the last one's nor behind the last message sent.
pub fn acknowledges_fairly()
    ensures { (own : Numbers) (asn : ℕ) (peers : List Peer) (log : List LogEntry) (bytes : List ℕ) (content : Content)
        → own.count ≡ length peers → IsBytes bytes → ((n : ℕ) → (known log).acked n ≤ (known log).sends n)
        → acknowledged_by asn peers log bytes ≡ Some content → IsFairAck own (known log) content }
{}

/// Only of a frame that is addressed to the recorder's AS and is accepted as from a neighbour something is acknowledged:
/// its last entry, and the messages up to which its receipts stand.
pub fn acknowledged_was_accepted()
    ensures { (asn : ℕ) (peers : List Peer) (log : List LogEntry) (bytes : List ℕ) (content : Content)
        → acknowledged_by asn peers log bytes ≡ Some content → IsAcceptance asn peers log bytes content }
{}
