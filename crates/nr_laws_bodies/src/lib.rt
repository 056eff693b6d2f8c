//! The laws of checkpoint bodies: a body and the base that it states are inverse to each other, and the state after
//! entries has a body. The functions have no code: each is a theorem, which its contract states.
#![tactic(auto)]

mod bodies;

pub use bodies::{
    nothing_before_has_a_body, read_bodies_are_spelled, spelled_bodies_read, states_have_bodies,
};
