// The writer: a number put into a lent slice at a place.
ghost use Rattle.std.specs.Prelude.{◌≡◌, ◌+◌, ◌≤◌, ◌<◌, ◌^◌, length};
ghost use Rattle.std.proofs.lemmas.List.Edits.{sets};
ghost use Rattle.number.specs.Writer.{number_bytes, write_answer, write_buffer};
ghost use Rattle.number.specs.Answers.{encoded};

// There is too little room at the place, and nothing is written; `encoded` gives document 01's code.
#[derive(Clone, Copy, Debug, PartialEq, Eq)]
pub struct NoRoom;

// Puts a number into the buffer at a place, and answers the place after its last byte. Where there is no room for all of it, the
// buffer stays as it was.
#[tactic(auto, using(crate::proofs::Stores::fit_answer, crate::proofs::Stores::unfit_answer, crate::proofs::Stores::unfit_buffer, crate::proofs::Groups::bytes_some, crate::proofs::Stores::one_long, crate::proofs::Stores::one_byte_more, crate::proofs::Stores::one_stored, crate::proofs::Stores::rest_fits, crate::proofs::Stores::more_stored), unfolding(crate::specs::Answers::encoded))]
pub fn encode(buffer: &mut [u8], place: usize, value: u32) -> Result<usize, NoRoom>
    ensures answer { encoded result ≡ write_answer buffer.old place (number_bytes 5 value) }
    ensures bytes { buffer.new ≡ write_buffer buffer.old place (number_bytes 5 value) }
{
    if buffer.len() <= place {
        return Err(NoRoom);
    }
    if value < 128 {
        // Narrowed by `as`, here and below: a group is below 256, and `try_from` would give a `Result` for it.
        buffer[place] = value as u8;
        return Ok(place + 1);
    }
    let room = buffer.len() - place;
    let needed = size(value);
    if room < needed {
        return Err(NoRoom);
    }
    buffer[place] = (value % 128 + 128) as u8;
    Ok(encode_rest(buffer, place + 1, value / 128))
}

// How many bytes a number takes.
#[tactic(auto, using(crate::proofs::Groups::bytes_last, crate::proofs::Groups::bytes_more))]
pub(crate) fn size(value: u32) -> usize
    ensures { result ≡ length (number_bytes 5 value) }
{
    match value {
        0..128 => 1,
        128..16384 => 2,
        16384..2097152 => 3,
        2097152..268435456 => 4,
        _ => 5,
    }
}

// The groups from the second on; the answer is the place after them.
#[tactic(auto, using(crate::proofs::Groups::bytes_some, crate::proofs::Stores::one_long, crate::proofs::Stores::one_set))]
fn encode_rest(buffer: &mut [u8], place: usize, value: u32) -> usize
    requires value_bound { value < 2 ^ 28 }
    requires value_in_bounds { place + length (number_bytes 4 value) ≤ length buffer.old }
    ensures next { result ≡ place + length (number_bytes 4 value) }
    ensures bytes { buffer.new ≡ sets buffer.old place (number_bytes 4 value) }
{
    let mut rest = value;
    let mut at = place;
    // What is left of the number ends the loop, so a `for` over the buffer would be no plainer.
    while 128 <= rest {
        buffer[at] = (rest % 128 + 128) as u8;
        rest /= 128;
        at += 1;
    }
    buffer[at] = rest as u8;
    at + 1
}
