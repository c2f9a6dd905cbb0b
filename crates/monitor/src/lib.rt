// The running monitor: its record as words that are lent and changed in place; one call, a list of calls, drill files, soundness, equality,
// each equal to its definition, in the crate rules or, of drill files, in specs/File.
#![tactic(auto)]

mod conversations;
mod entry;
mod equality;
mod file;
mod found;
mod fresh;
mod kinds;
mod links;
mod party;
mod replies;
mod requests;
mod returns;
mod rights;
mod run;
mod searches;
mod services;
mod sound;
mod states;
mod steps;
mod transaction;
mod tx;
mod votes;
mod words;

pub use entry::{
    monitor_equal, monitor_file, monitor_fresh, monitor_run, monitor_sound, monitor_step,
};
pub use equality::equal;
pub use file::{FileRan, Passed, WriteError, read_call, run_file, run_piece, write_calls};
pub use fresh::run_fresh;
use rules::Answer;
pub use run::run_list;
pub use sound::is_sound;
pub use steps::step;
pub use words::{Store, WORDS};

// What a rule tells, beside the record. The code is a number, since some stand beside values, and one is made by a sum; 0 stands for none in the other
// fields, as in C's answer, into which they go.
#[derive(Clone, Copy, Default)]
pub struct Told {
    pub code: i64,
    pub value: u32,
    pub event: u32,
    pub token: u32,
    pub service: u32,
}

// What a call by value gives.
#[derive(Clone, Copy)]
pub struct Stepped {
    pub store: Store,
    pub answer: Answer,
}

// What a list of calls gives, beside its answers: the record after it, and its code, a number as C's entry gives it.
#[derive(Clone, Copy)]
pub struct Ran {
    pub store: Store,
    pub code: i64,
}
