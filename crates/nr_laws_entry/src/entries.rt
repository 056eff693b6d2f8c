//! Contents of entries.

ghost use Rattle.std.specs.Prelude.{◌≡◌, ◌<◌, ◌^◌, ℕ, Some};
ghost use Rattle.nr_spec_wire.specs.Reading.{IsBytes};
ghost use Rattle.nr_spec_log.specs.Chain.{LogEntry};
ghost use Rattle.nr_spec_log.specs.Answer.{IsEntry};
ghost use Rattle.nr_spec_entry.specs.Contents.{Content, content_bytes, kind_of};
ghost use Rattle.nr_spec_entry.specs.ContentReading.{content_of};
ghost use Rattle.nr_laws_entry.specs.Fits.{FitsEntry, made};

/// A content that fits an entry makes one at each time, which has that content. The content of the entry is bytes.
pub fn contents_make_entries()
    ensures entry { (time : ℕ) (c : Content) → time < 2 ^ 64 → FitsEntry c → IsEntry (made time c) }
    ensures bytes { (time : ℕ) (c : Content) → FitsEntry c → IsBytes (content_bytes c) }
    ensures content { (time : ℕ) (c : Content) → FitsEntry c → content_of (made time c) ≡ Some c }
{}

/// The content of an entry, where it is in the grammar of its kind, fits an entry, and makes that entry at its time.
pub fn entries_have_contents_that_fit()
    ensures fits { (e : LogEntry) (c : Content) → IsEntry e → IsBytes e.content → content_of e ≡ Some c → FitsEntry c }
    ensures made { (e : LogEntry) (c : Content) → IsBytes e.content → content_of e ≡ Some c → e ≡ made e.time c }
{}
