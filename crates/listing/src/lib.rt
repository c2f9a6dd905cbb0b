// Answers as text: one line a call, and the pieces of a drill file run and listed, turn after turn.
#![tactic(auto)]

mod piece;
mod text;
mod turn;

pub use piece::{Listed, list_piece};
pub use turn::{Turned, list_turn};
