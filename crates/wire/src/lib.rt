// The wire side of a request, beside the monitor: OSI TP's primitives for it as numbers in the drill format. A writer into a lent buffer, a reader on a
// slice, and what an accepted request asks to be written.
#![tactic(auto)]

mod reader;
mod sequence;
mod writer;

pub use reader::{ReadError, wire_read};
pub use sequence::{Request, wire_of};
pub use writer::{WriteError, wire_write};
