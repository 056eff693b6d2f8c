//! Reading and spelling.

ghost use Rattle.std.specs.Prelude.{◌≡◌, ℕ, List, Some};
ghost use Rattle.nr_spec_wire.specs.Reading.{IsBytes};
ghost use Rattle.nr_spec_entry.specs.Contents.{Content, IsContent, content_bytes, kind_of};
ghost use Rattle.nr_spec_entry.specs.ContentReading.{content_in};
ghost use Rattle.nr_laws_entry.specs.Fits.{HasBytes};

/// What is read as a content is of its kind, in its ranges, and its spelling is what was read.
pub fn read_contents_are_spelled()
    ensures { (kind : ℕ) (bytes : List ℕ) (c : Content) → IsBytes bytes → content_in kind bytes ≡ Some c
        → (kind ≡ kind_of c) × (bytes ≡ content_bytes c) × IsContent c × HasBytes c }
{}

/// The spelling of a content that is in its ranges is read, under its kind, as that content.
#[tactic(auto, using(crate::proofs::Spelled::content_again))]
pub fn spelled_contents_are_read()
    ensures { (c : Content) → IsContent c → content_in (kind_of c) (content_bytes c) ≡ Some c }
{}

/// No two contents of one kind are spelled alike.
#[tactic(auto, using(crate::proofs::Spelled::one_content))]
pub fn contents_have_one_spelling()
    ensures { (c d : Content) → IsContent c → IsContent d → kind_of c ≡ kind_of d → content_bytes c ≡ content_bytes d
        → c ≡ d }
{}
