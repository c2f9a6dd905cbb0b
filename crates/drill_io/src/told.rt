// Why a program stops before its drill file is over.
ghost use Rattle.std.specs.Prelude.{Some};
ghost use Rattle.drill_io.specs.Failures.{failure_text};

use std::error::Error;
use std::fmt;

#[derive(Clone, Copy, Debug, PartialEq, Eq)]
pub enum Failure {
    CannotRead,
    CannotWrite,
}

impl fmt::Display for Failure {
    ghost output = { λ failure. Some (failure_text failure) };

    fn fmt<W: fmt::Write>(&self, f: &mut fmt::Formatter<W>) -> fmt::Result {
        match self {
            Failure::CannotRead => write!(f, "cannot read"),
            Failure::CannotWrite => write!(f, "cannot write"),
        }
    }
}

impl Error for Failure {}

// Tells a failure in a program's name, which need not be text.
pub(crate) fn tell(errors: &impl Print, program: &[u8], failure: Failure) {
    let _ = errors.write_all(program);
    let _ = println!(errors; ": {failure}");
}
