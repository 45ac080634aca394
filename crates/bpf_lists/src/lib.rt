//! The rows of a keyed map: made once, and looked up by a key. And the bytes of constants.
//!
//! - `numbers`: the bytes of keys as numbers in network byte order
//! - `refusal`: which rows are refused
//! - `keys`: the keys of rows, one after the other
//! - `chains`: rows with exact keys by a number that the keys give
//! - `order`: rows in the order of their data, and the search
//! - `sorting`: how the order is made; `starts`: where a search begins
//! - `rows`: what a map has; `list`: what is given for a map, rows or constants
#![tactic(auto)]

mod chains;
mod keys;
mod list;
mod numbers;
mod order;
mod refusal;
mod rows;
mod sorting;
mod starts;

pub use list::{ConstantBytes, MapList};
pub use refusal::RowsRefusal;
pub use rows::KeyedRows;
