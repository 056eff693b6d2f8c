//! The routes that stand after the entries of a log, and the prefixes that an entry touches.
//!
//! The rows are kept in order, and for each neighbour the places of its own rows, so that an entry which empties a
//! neighbour looks at no other row. A row names the place of its block of attributes, which rows with the same block
//! share.
#![tactic(auto)]

mod block;
mod blocks;
mod change;
mod effect;
mod gathered;
mod key;
mod places;
mod row;
mod rows;
mod shared;
mod standing;
mod state;
mod table;
mod touched;

pub use nr_spec_routes::Direction;
pub use row::Row;
pub use rows::Rows;
pub use standing::Standing;
pub use state::State;
pub use touched::Touched;
