/// Where a piece of the text stands: from its first byte up to the byte after its last, as offsets.
#[derive(Clone, Copy, Debug, PartialEq, Eq)]
pub struct Span {
    pub from: u32,
    pub to: u32,
}
