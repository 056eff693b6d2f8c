//! What a crash leaves of a file, by what was done to it.

ghost use Rattle.std.specs.Prelude.{◌≡◌, ◌≤◌, ℕ, List, Some, Result, length};
ghost use Rattle.nr_spec_plans.specs.Disk.{Disk, Fault, Loose, Moment, Told, TornWrite, bytes_of, loose_by_write, moment_of, settled, written};
ghost use Rattle.nr_spec_plans.specs.Plans.{Action, Answer, Acts};
ghost use Rattle.nr_spec_crash.specs.Crashes.{IsSound};
ghost use Rattle.nr_spec_crash.specs.Images.{IsImage, IsImageOf, IsPending};

/// Of a file that is all on the disk a crash leaves what a read gives.
pub fn a_settled_file_is_left()
    ensures { (m : Moment) (name image : List ℕ) → m.loose name ≡ settled (bytes_of (m.holds name))
        → IsImage m name image → image ≡ bytes_of (m.holds name) }
{}

/// Of such a file nothing is pending.
pub fn nothing_settled_is_pending()
    ensures { (m : Moment) (name : List ℕ) → m.loose name ≡ settled (bytes_of (m.holds name))
        → IsPending m name → ⊥ }
{}

/// After a write into a file that was all on the disk, a crash leaves any bytes where it was written and past the end,
/// and every other byte as it was.
pub fn written_bytes_may_be_any()
    ensures { (m : Moment) (name : List ℕ) (at n : ℕ) (file image : List ℕ) → at ≤ length file
        → m.loose name ≡ loose_by_write at n (length file) (settled file)
        → TornWrite at n file (bytes_of (m.holds name)) → IsImage m name image → TornWrite at n file image }
{}

/// What a crash within a write leaves, one after the same write leaves where it went well.
pub fn a_torn_write_counts_as_a_whole_one()
    ensures { (at : ℕ) (from file torn image : List ℕ) (l : Loose) → at ≤ length file
        → TornWrite at (length from) file torn → IsImageOf (loose_by_write at (length from) (length file) l) torn image
        → IsImageOf (loose_by_write at (length from) (length file) l) (written at from file) image }
{}

/// What a read gives is itself an image, where its length lies between the least and the greatest.
pub fn what_is_read_is_an_image()
    ensures { (name : List ℕ) (d : Disk) (t : Told) → IsSound name d → d.told ≡ Some t
        → IsImage (moment_of t) name (bytes_of (t.holds name)) }
{}

/// Where it lies there before a step it does after it, whatever the step was and answered.
pub fn steps_keep_lengths_between()
    ensures { (name : List ℕ) (action : Action) (old mid : Disk) (got : Result (Answer action) Fault)
        → IsSound name old → Acts action old mid got → IsSound name mid }
{}
