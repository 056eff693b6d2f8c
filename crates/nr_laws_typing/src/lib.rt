//! Laws of the typing of promises, each the contract of a function with an empty body: what is demanded of a text in
//! the words of the language, where a text is refused, what its names are resolved to, and what it then says. They
//! speak of the definitions alone, so that a reader sees what follows from these without reading any code.
#![tactic(auto)]

mod apart;
mod fine;
mod meanings;
mod nodes;
mod numbered;
mod resolved;
mod says;

pub use apart::{declared_names_differ, neighbours_and_promises_differ};
pub use fine::{
    file_is_refused_at_its_first_mistake, formula_is_refused_at_its_first_misuse,
    places_are_not_asked,
};
pub use meanings::names_are_what_is_declared;
pub use nodes::tree_is_of_its_construct;
pub use numbered::neighbours_are_numbered;
pub use resolved::{
    bound_variable_is_the_next, variables_are_resolved, variables_have_different_names,
};
pub use says::{promise_has_the_tree_of_its_text, text_says_what_is_declared};
