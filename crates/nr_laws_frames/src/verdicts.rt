//! What a verdict says of the receipts.

ghost use Rattle.std.specs.Prelude.{◌≡◌, ◌≤◌, ◌+◌, ◌-◌, ℕ, List, drop, length, take};
ghost use Rattle.nr_spec_log.specs.Chain.{LogEntry};
ghost use Rattle.nr_spec_frames.specs.Frames.{Frame};
ghost use Rattle.nr_spec_frames.specs.Showing.{Shows};
ghost use Rattle.nr_spec_frames.specs.Verdicts.{Accepted, Disputed, View, matched, receipts, verdict};
ghost use Rattle.nr_spec_frames.specs.Receipts.{Among, IsFirstLeft, Stands, Tight};

/// Where a frame is accepted, its receipts were matched.
pub fn accepted_matches()
    ensures { (v : View) (f : Frame) (u : ℕ) → verdict v f ≡ Accepted u
        → matched v.upto 0 (receipts v.number v.seq f) v.pending ≡ Accepted u }
{}

/// The acknowledged number isn't below the one before, nor above the number of the messages.
pub fn accepted_in_bounds()
    ensures { (v : View) (f : Frame) (u : ℕ) → verdict v f ≡ Accepted u
        → (v.upto ≤ u) × (u ≤ v.upto + length v.pending) }
{}

/// The acknowledged number is the least up to which the receipts stand in order among the messages: they do stand
/// so, the last of them at the message of this number; up to no lower one do they stand; and where there is no receipt
/// it is the number from before.
pub fn accepted_is_least()
    ensures stand { (upto i : ℕ) (receipts sends : List (List ℕ)) (u : ℕ) → matched upto i receipts sends ≡ Accepted u
        → (upto ≤ u) × (u ≤ upto + length sends) × Tight receipts (take (u - upto) sends) }
    ensures least { (upto i : ℕ) (receipts sends : List (List ℕ)) (u k : ℕ) → matched upto i receipts sends ≡ Accepted u
        → Among receipts (take k sends) → u ≤ upto + k }
{}

/// A disputed receipt is the first that can't stand in order after those before it.
pub fn disputed_is_first()
    ensures { (upto i : ℕ) (receipts sends : List (List ℕ)) (j : ℕ) → matched upto i receipts sends ≡ Disputed j
        → IsFirstLeft i j receipts sends }
{}

/// A frame that shows a log's entries up to k is accepted: where what came up to the kept entry stands tight in what is
/// acknowledged, so does what came up to entry k in what is acknowledged then.
pub fn accepted_stands()
    ensures { (n : ℕ) (log : List LogEntry) (after k : ℕ) (f : Frame) (v : View) (sends : List (List ℕ)) (u : ℕ)
        → Shows n log after k f → v.number ≡ n → v.pending ≡ drop v.upto sends → Stands n log sends v.upto v.seq
        → verdict v f ≡ Accepted u → Stands n log sends u k }
{}
