//! What names stand for.

use crate::shared::Shared;
use nr_prefix::Pattern;
use nr_rule_syntax::Word;

/// What a declared name stands for.
#[derive(Debug, Drop)]
pub enum Named {
    /// The neighbour of this number.
    Neighbour(u16),
    /// The neighbours of these numbers.
    Group(Shared<u16>),
    /// The prefixes that fit one of these patterns.
    Define(Shared<Pattern>),
    /// A promise. Nothing in a text refers to one.
    Promise,
}

/// A name that was declared, and what it stands for.
#[derive(Debug, Drop)]
pub struct Declared {
    pub word: Word,
    pub means: Named,
}

/// What a variable stands for.
#[derive(Clone, Copy, Debug, PartialEq, Eq)]
pub enum Bound {
    Neighbour,
    Route,
}

/// A variable of a formula.
#[derive(Debug, Drop)]
pub struct Variable {
    pub word: Word,
    pub bound: Bound,
}
