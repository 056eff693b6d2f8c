//! What a command takes, and what its words give.

/// The option `--NAME VALUE`. It takes one value.
#[derive(Clone, Copy, Debug)]
pub struct OptionRule {
    pub name: &'static str,
    pub required: bool,
}

/// The word of a command, its options, and whether files without an option may follow.
#[derive(Clone, Copy, Debug)]
pub struct Grammar {
    pub command: &'static str,
    pub options: &'static [OptionRule],
    pub files: bool,
}

/// The value of each option in the order of the grammar, `None` where it isn't given, and the files.
#[derive(Debug, Drop)]
pub struct Values<'a> {
    pub options: Vec<Option<&'a str>>,
    pub files: Vec<&'a str>,
}
