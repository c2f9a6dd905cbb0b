// The reader: which request a slice of bytes says.
ghost use Rattle.std.specs.Prelude.{◌≡◌};
ghost use Rattle.wire.specs.Sequences.{meaning_of};
ghost use Rattle.wire.specs.Entries.{read_of};
ghost use Rattle.wire.specs.Answers.{read_code, read_told};

use super::sequence::{Request, request_of};
use arrayvec::ArrayVec;
use rules::{Refusal, is_service};

// Why no request is read. No `Refusal`: whoever matches it has these arms alone.
#[derive(Clone, Copy, Debug, PartialEq, Eq)]
pub enum ReadError {
    // a number is cut short
    CutShort,
    // a number is too long, too large, or longer than needed
    Malformed,
    // the numbers are no request's
    NoSuchSequence,
}

impl ReadError {
    // The refusal's number. No `From`: `error.code()` says what number it is, `i64::from(error)` would not.
    pub fn code(self) -> i64
        ensures { result ≡ read_code self }
    {
        match self {
            ReadError::CutShort => Refusal::CutShort.code(),
            ReadError::Malformed => Refusal::Malformed.code(),
            ReadError::NoSuchSequence => Refusal::NoSuchSequence.code(),
        }
    }
}

impl From<number::ReadError> for ReadError {
    ghost use Rattle.wire.specs.Answers.{number_refusal};

    ghost from_gives = { λ e own. own ≡ number_refusal e };

    fn from(error: number::ReadError) -> ReadError {
        match error {
            number::ReadError::CutShort => ReadError::CutShort,
            number::ReadError::Malformed => ReadError::Malformed,
        }
    }
}

// The request that these numbers say.
#[tactic(auto, using(crate::proofs::Meaning::says_its_own, crate::proofs::Meaning::says_no_service, crate::proofs::Meaning::says_none))]
fn meaning(numbers: &[u32]) -> Result<Request, ReadError>
    ensures { read_told result ≡ meaning_of numbers.now }
{
    request_of(numbers)
        .filter(|r| is_service(r.service))
        .ok_or(ReadError::NoSuchSequence)
}

// Reads every number of the input, of which the first bad one decides, 17 or 18; then what they say, or 33.
#[tactic(auto, using(crate::proofs::Kept::keeps_none, crate::proofs::Kept::keeps_one, number::proofs::Reading::number_after), unfolding(number::specs::Answers::decoded))]
pub fn wire_read(input: &[u8]) -> Result<Request, ReadError>
    ensures { read_told result ≡ read_of input.now }
{
    // Eight numbers are no request's, whatever follows.
    let mut numbers = ArrayVec::<u32, 8>::new();
    let mut at = 0;
    // A while, since the next place is what `decode` tells: there is no iterator of numbers.
    while at < input.len() {
        let (value, next) = number::decode(input, at)?;
        let _ = numbers.try_push(value);
        at = next;
    }
    meaning(&numbers)
}
