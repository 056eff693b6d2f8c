//! What a well typed text declares.

use crate::tree::Typing;
use nr_chain::Digest;
use nr_prefix::Prefix;
use nr_rule_syntax::Word;
use sqlite_items::Items;

/// A neighbour: its AS, its address, and where they are known the root of its signing key and the number under which it
/// knows this network's session.
#[derive(Debug, Drop)]
pub struct Neighbour {
    pub name: Word,
    pub asn: u32,
    pub addr: u32,
    pub key: Option<(Digest, u16)>,
}

/// A promise: its grace in seconds, the prefixes at which it is judged (with none, each prefix that stands), and
/// what must hold.
#[derive(Drop)]
pub struct Promise {
    pub name: Word,
    pub grace: u32,
    pub at: Items<Prefix>,
    pub form: Typing,
}
