// The writer: a request put into a lent buffer.
ghost use Rattle.std.specs.Prelude.{◌≡◌};
ghost use Rattle.wire.specs.Entries.{wire_answer, wire_buffer};
ghost use Rattle.wire.specs.Answers.{write_code, written_told};

use super::sequence::{Request, is_writable, put_sequence};
use number::NoRoom;
use rules::Refusal;

// Why no request is written. No `Refusal`: whoever matches it has these arms alone.
#[derive(Clone, Copy, Debug, PartialEq, Eq)]
pub enum WriteError {
    // the request cannot be written
    BadArgument,
    // the buffer is too short
    TooLittleRoom,
}

impl WriteError {
    // The refusal's number; no `From`, as in the reader.
    pub fn code(self) -> i64
        ensures { result ≡ write_code self }
    {
        match self {
            WriteError::BadArgument => Refusal::BadArgument.code(),
            WriteError::TooLittleRoom => Refusal::TooLittleRoom.code(),
        }
    }
}

impl From<NoRoom> for WriteError {
    ghost use Rattle.wire.specs.declared.writer.WriteError.TheVariants.{TooLittleRoom};

    ghost from_gives = { λ _ e. e ≡ TooLittleRoom };

    fn from(_error: NoRoom) -> WriteError {
        WriteError::TooLittleRoom
    }
}

// Puts a request's sequence into the buffer, from its front on, and tells how many bytes were written: 22, then 16. Where it is refused the buffer stays
// as it was; 11 bytes are always enough.
#[tactic(auto, unfolding(crate::specs::Entries::wire_answer, crate::specs::Entries::wire_buffer, crate::specs::Entries::as_written, number::specs::Answers::encoded, rules::specs::Choice::pick))]
pub fn wire_write(buffer: &mut [u8], request: Request) -> Result<usize, WriteError>
    ensures answer { written_told result ≡ wire_answer buffer.old request }
    ensures bytes { buffer.new ≡ wire_buffer buffer.old request }
{
    if !is_writable(request) {
        return Err(WriteError::BadArgument);
    }
    Ok(put_sequence(buffer, request)?)
}
