//! What the definitions say in the words of a reader.

ghost use Rattle.std.specs.Prelude.{◌≡◌, ◌++◌, ◌∷◌, ◌<◌, ◌*◌, ◌+◌, ◌↔◌, [], ℕ, List, IfSome, IsTrue, length, Some};
ghost use Rattle.nr_spec_log.specs.Chain.{LogEntry};
ghost use Rattle.nr_spec_log.specs.Authenticator.{digest_size};
ghost use Rattle.nr_spec_entry.specs.ContentReading.{content_of};
ghost use Rattle.nr_spec_counts.specs.Tallies.{Numbers, Tally, tally_after};
ghost use Rattle.nr_spec_counts.specs.Steps.{counted};
ghost use Rattle.nr_spec_counts.specs.Bodies.{checkpoint_body};
ghost use Rattle.nr_spec_counts.specs.Causes.{is_overdue};

/// What is known after one entry more follows from what was known before it and from the entry's content and time.
#[tactic(auto, using(crate::proofs::OneMore::one_counted))]
pub fn one_more_entry_is_counted()
    ensures { (base : Tally) (past : List LogEntry) (e : LogEntry)
        → tally_after base (past ++ e ∷ []) ≡ counted (tally_after base past) (content_of e) e.time }
{}

/// The body of no rows has 6,463 bytes.
#[tactic(auto, using(crate::proofs::Sizes::no_rows_size))]
pub fn the_body_of_no_rows_has_6463_bytes()
    ensures { (t : Tally) → IfSome t.in_force (λ f. length f.digest ≡ digest_size)
        → length (checkpoint_body t []) ≡ 6463 }
{}

/// A neighbour is overdue exactly where a promise is in force that declares it, and its oldest message waits for longer
/// than the commit delay of that promise.
#[tactic(auto, using(crate::proofs::Waits::overdue_is))]
pub fn overdue_neighbours()
    ensures { (t : Tally) (time n : ℕ) → IsTrue (is_overdue t time t.in_force n) ↔ ((force : Numbers) × (since : ℕ)
        × (t.in_force ≡ Some force) × (n < force.count) × (t.oldest n ≡ Some since)
        × (since + force.delay * 1000000 < time)) }
{}
