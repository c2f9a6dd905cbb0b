// Numbers in groups of seven bits, lowest first: a reader and a writer on byte slices, and a writer of many. A slice and a place in it are two arguments
// throughout, since a caller keeps its slice and goes on at the place that it is told.
#![tactic(auto)]

mod numbers;
mod reader;
mod writer;

pub use numbers::encode_all;
pub use reader::{ReadError, decode};
pub use writer::{NoRoom, encode};
