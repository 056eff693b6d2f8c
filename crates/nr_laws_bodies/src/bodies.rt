//! Bodies and bases.

ghost use Rattle.std.specs.Prelude.{◌≡◌, ◌≤◌, ℕ, List, Ok, length};
ghost use Rattle.nr_spec_wire.specs.Reading.{IsBytes};
ghost use Rattle.nr_spec_log.specs.Chain.{LogEntry};
ghost use Rattle.nr_spec_log.specs.Answer.{most_body};
ghost use Rattle.nr_spec_bounds.specs.Bounds.{AreStated, HasRoom};
ghost use Rattle.nr_spec_report.specs.Wrong.{Base, nothing_before};
ghost use Rattle.nr_spec_bodies.specs.Reading.{base_of};
ghost use Rattle.nr_spec_bodies.specs.Bases.{IsBase, body_of, state_after};

/// The body of a base is read as that base.
#[tactic(auto, using(crate::proofs::Body::base_again))]
pub fn spelled_bodies_read()
    ensures { (b : Base) → IsBase b → base_of (body_of b) ≡ Ok b }
{}

/// What is read of bytes is a base that has a body, and its body is these bytes: so each base has one body.
pub fn read_bodies_are_spelled()
    ensures { (bytes : List ℕ) (b : Base) → IsBytes bytes → base_of bytes ≡ Ok b
        → IsBase b × (body_of b ≡ bytes) }
{}

/// The state after entries has a body, which is read as that state, where the counts before the entries have room for so
/// many and the body is as short as an answer asks.
pub fn states_have_bodies()
    ensures fits { (base : Base) (entries : List LogEntry) → IsBase base → AreStated entries
        → HasRoom base.tally (length entries) → length (body_of (state_after base entries)) ≤ most_body
        → IsBase (state_after base entries) }
    ensures reads { (base : Base) (entries : List LogEntry) → IsBase base → AreStated entries
        → HasRoom base.tally (length entries) → length (body_of (state_after base entries)) ≤ most_body
        → base_of (body_of (state_after base entries)) ≡ Ok (state_after base entries) }
{}

/// Before the first entry of a log there is a base that has a body.
#[tactic(auto, using(crate::proofs::States::nothing_is))]
pub fn nothing_before_has_a_body()
    ensures { IsBase nothing_before }
{}
