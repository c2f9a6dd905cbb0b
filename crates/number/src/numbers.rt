// Numbers one after the other, put into a lent slice at a place.
ghost use Rattle.std.specs.Prelude.{◌≡◌, leb, length};
ghost use Rattle.number.specs.Writer.{write_answer, write_buffer};
ghost use Rattle.number.specs.Numbers.{numbers_bytes};
ghost use Rattle.number.specs.Answers.{encoded};

use super::writer::{NoRoom, encode, size};

// Is there room for the numbers? A loop, here and below: tried with `sum` and with `try_fold`, and the proof did not close.
#[tactic(auto, using(crate::proofs::Successive::long_next, crate::proofs::Successive::long_end))]
fn fits(values: &[u32], room: usize) -> bool
    ensures { result ≡ leb (length (numbers_bytes values.now)) room }
{
    let mut left = room;
    for value in values {
        let needed = size(*value);
        if left < needed {
            return false;
        }
        left -= needed;
    }
    true
}

// Puts numbers into the buffer at a place, and answers the place after them. Where there is no room for all of them, the buffer
// stays as it was.
#[tactic(auto, using(crate::proofs::Successive::writes_none, crate::proofs::Successive::writes_one, crate::proofs::Successive::writes_room, crate::proofs::Successive::writes_all, crate::proofs::Stores::fit_answer, crate::proofs::Stores::fit_buffer, crate::proofs::Stores::unfit_answer, crate::proofs::Stores::unfit_buffer), unfolding(crate::specs::Answers::encoded))]
pub fn encode_all(buffer: &mut [u8], place: usize, values: &[u32]) -> Result<usize, NoRoom>
    ensures answer { encoded result ≡ write_answer buffer.old place (numbers_bytes values.now) }
    ensures bytes { buffer.new ≡ write_buffer buffer.old place (numbers_bytes values.now) }
{
    let room = buffer.len().checked_sub(place).ok_or(NoRoom)?;
    if !fits(values, room) {
        return Err(NoRoom);
    }
    // The place after each number is what `encode` tells, and no index.
    let mut at = place;
    for value in values {
        at = encode(buffer, at, *value)?;
    }
    Ok(at)
}
