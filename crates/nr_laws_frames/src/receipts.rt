//! Receipts among what was sent.

ghost use Rattle.std.specs.Prelude.{◌≡◌, ◌≤◌, ◌++◌, ℕ, List, drop, length, take};
ghost use Rattle.nr_spec_frames.specs.Verdicts.{Accepted, matched};
ghost use Rattle.nr_spec_frames.specs.Receipts.{Received, Tight};

/// Where what came stands in order up to the u-th message, the last of it there, and others were matched after it up to
/// the v-th, all of them stand in order up to the v-th, the last of them there.
pub fn more_receipts_stand()
    ensures { (came others sends : List (List ℕ)) (i u v : ℕ) → u ≤ length sends → Tight came (take u sends)
        → matched u i others (drop u sends) ≡ Accepted v
        → (v ≤ length sends) × Tight (came ++ others) (take v sends) }
{}

/// What stands tight in the first u messages came in order and byte for byte, and the last of it is the u-th.
pub fn receipts_are_received()
    ensures { (came sends : List (List ℕ)) (u : ℕ) → u ≤ length sends → Tight came (take u sends)
        → Received came sends u }
{}
