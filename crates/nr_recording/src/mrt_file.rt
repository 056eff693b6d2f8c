//! Files that were checked.

ghost use Rattle.std.specs.Prelude.{◌≡◌, is_ok, true};
ghost use Rattle.nr_spec_recording.specs.Records.{records_of};

/// An MRT file whose records read to its end (RFC 6396).
#[derive(Drop)]
pub struct MrtFile {
    pub bytes: Vec<u8>,
    ghost reads: { is_ok (records_of bytes.items) ≡ true },
}
