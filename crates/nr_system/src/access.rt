//! Who may read what a run writes.

/// Who may read the files that a run writes.
#[derive(Clone, Copy, Debug, PartialEq, Eq)]
pub enum Access {
    /// The owner alone, whatever the umask: for a file that holds a secret. An existing file is brought to mode 0600
    /// before its first byte is written, and a name that is a symbolic link is refused.
    Owner,
    /// Whom the umask lets. An existing file keeps its mode, and a symbolic link to a file is followed.
    Umask,
}
