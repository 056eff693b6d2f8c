//! What a text of promises says, as a tree. Names and numbers keep the place where they stand.

use crate::word::Word;
use nr_chain::Digest;
use nr_prefix::Prefix;
use nr_spec_rules::Span;
use sqlite_items::{Boxed, Items};

/// A name, and where it stands.
#[derive(Debug, Drop)]
pub struct Name {
    pub word: Word,
    pub span: Span,
}

/// A number, and where it stands. An address is its number of 32 bits.
#[derive(Clone, Copy, Debug, PartialEq, Eq)]
pub struct Num {
    pub value: u32,
    pub span: Span,
}

/// The root of a neighbour's signing key, and where it stands.
#[derive(Clone, Copy, Debug, PartialEq, Eq)]
pub struct RootText {
    pub digest: Digest,
    pub span: Span,
}

/// A prefix and the greatest length that is meant, where one is written. The span is that of the prefix.
#[derive(Clone, Copy, Debug)]
pub struct PatternText {
    pub prefix: Prefix,
    pub most: Option<Num>,
    pub span: Span,
}

/// A prefix, and where it stands.
#[derive(Clone, Copy, Debug)]
pub struct PrefixText {
    pub prefix: Prefix,
    pub span: Span,
}

/// A whole text: its declarations in their order, and the offset of its end.
#[derive(Drop)]
pub struct File {
    pub decls: Items<Decl>,
    pub end: u32,
}

/// A declaration. The span of `Network` and `Commit` is that of the keyword.
#[derive(Drop)]
pub enum Decl {
    /// The AS whose promises these are.
    Network {
        value: Num,
        span: Span,
    },
    /// The commit delay in seconds.
    Commit {
        value: Num,
        span: Span,
    },
    /// A neighbour, its AS and address, and, where its signing key is known, the key's root and the number under
    /// which it knows its session with this network.
    Neighbour {
        name: Name,
        asn: Num,
        addr: Num,
        key: Option<(RootText, Num)>,
    },
    Group {
        name: Name,
        members: Items<Name>,
    },
    Define {
        name: Name,
        patterns: Items<PatternText>,
    },
    /// A promise, its grace in seconds, the prefixes at which alone it is judged, where there are some,
    /// and what must hold.
    Promise {
        name: Name,
        grace: Num,
        at: Items<PrefixText>,
        form: Form,
    },
}

/// Which way a route went.
#[derive(Clone, Copy, Debug, PartialEq, Eq)]
pub enum Side {
    Sent,
    Received,
}

/// What must hold. An `And` or `Or` has at least two members; parentheses leave no node.
#[derive(Drop)]
pub enum Form {
    True,
    False,
    Not(Boxed<Form>),
    And(Items<Form>),
    Or(Items<Form>),
    Implies(Boxed<Form>, Boxed<Form>),
    /// It holds for each neighbour of the group.
    All {
        var: Name,
        group: Name,
        form: Boxed<Form>,
    },
    /// It holds for some neighbour of the group.
    Some {
        var: Name,
        group: Name,
        form: Boxed<Form>,
    },
    /// The first form with the route where there is one, else the second.
    If {
        var: Name,
        side: Side,
        of: Name,
        yes: Boxed<Form>,
        no: Boxed<Form>,
    },
    /// There is such a route.
    Stands {
        side: Side,
        of: Name,
    },
    /// The community stands in the route.
    Has {
        var: Name,
        community: u32,
    },
    /// The AS stands in the route's path.
    Crosses {
        var: Name,
        term: Term,
    },
    /// The two are one neighbour.
    Is {
        left: Name,
        right: Name,
    },
    /// The prefix stands in the set.
    PrefixIn {
        set: Name,
    },
    Compare {
        left: Term,
        op: Cmp,
        right: Term,
    },
}

/// A whole number.
#[derive(Debug, Drop)]
pub enum Term {
    Number(Num),
    /// The length of the prefix.
    Bits,
    Length(Name),
    Med(Name),
    Pref(Name),
    Origin(Name),
    First(Name),
    Last(Name),
    Hop(Name),
    Asn(Name),
}

/// How two numbers are compared.
#[derive(Clone, Copy, Debug, PartialEq, Eq)]
pub enum Cmp {
    Eq,
    Ne,
    Lt,
    Le,
    Gt,
    Ge,
}
