// The reader: what number stands in a slice at a place.
ghost use Rattle.std.specs.Prelude.{◌≡◌, ◌<◌, drop};
ghost use Rattle.number.specs.Reader.{continued, read_groups, read_number};
ghost use Rattle.number.specs.Answers.{decoded};

// Why there is no number; `decoded` gives document 01's code of each.
#[derive(Clone, Copy, Debug, PartialEq, Eq)]
pub enum ReadError {
    // the input ends before the number does
    CutShort,
    // too long, too large, or longer than needed
    Malformed,
}

// The number at a place of the input, and the place after its last byte.
#[tactic(auto, using(crate::proofs::Groups::place_past, crate::proofs::Groups::place_last, crate::proofs::Groups::place_more), unfolding(crate::specs::Answers::decoded, crate::specs::Reader::read_number))]
pub fn decode(input: &[u8], place: usize) -> Result<(u32, usize), ReadError>
    ensures { decoded result ≡ read_number 5 32 input.now place }
{
    if input.len() <= place {
        return Err(ReadError::CutShort);
    }
    let first = u32::from(input[place]);
    if first < 128 {
        return Ok((first, place + 1));
    }
    decode_rest(input, place + 1, first % 128)
}

// The groups from the second on, where the first is `low`.
#[tactic(auto, using(crate::proofs::Turns::cut_short), unfolding(crate::specs::Answers::decoded))]
fn decode_rest(input: &[u8], place: usize, low: u32) -> Result<(u32, usize), ReadError>
    requires { low < 128 }
    ensures { decoded result ≡ continued low 128 (read_groups 4 25 place (drop place input.now)) }
{
    let mut value = low;
    let mut at = place;
    // The place goes on beside the weights, since the input may end at each of them.
    for weight in [128, 16384, 2097152] {
        if input.len() <= at {
            return Err(ReadError::CutShort);
        }
        let byte = u32::from(input[at]);
        at += 1;
        value += byte % 128 * weight;
        if byte < 128 {
            if byte == 0 {
                return Err(ReadError::Malformed);
            }
            return Ok((value, at));
        }
    }
    if input.len() <= at {
        return Err(ReadError::CutShort);
    }
    let last = u32::from(input[at]);
    if last == 0 || 15 < last {
        return Err(ReadError::Malformed);
    }
    Ok((value + last * 268435456, at + 1))
}
