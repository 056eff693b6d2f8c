//! What follows for a reader from the plans that the program's runs follow. The functions have no code: each is a
//! theorem, which its contract states.
#![tactic(auto)]

pub mod laws;
