// The three queries: what stands behind their first two bytes, and the calls that answer them. Each gives nothing where the query is incomplete or
// unknown.
use super::show;
use rules::{Answer, Call};
use std::io::Read;
use wire::Request;

// The next bytes, as many as the array has.
pub fn bytes<R: Read, const N: usize>(source: &mut R) -> Option<[u8; N]> {
    let mut bytes = [0; N];
    source.read_exact(&mut bytes).ok()?;
    Some(bytes)
}

// The numbers at the front of these bytes, as many as the array has, and 0 past the last. A query is read at once, since an input may keep what was
// written in packets.
fn numbers<const N: usize>(query: &[u8]) -> [u32; N] {
    let mut numbers = [0; N];
    let (fours, _) = query.as_chunks::<4>();
    for (number, four) in numbers.iter_mut().zip(fours) {
        *number = u32::from_le_bytes(*four);
    }
    numbers
}

// Bytes that are read: as many as the count says.
pub fn answer_read<R: Read>(source: &mut R, out: &impl Print, count: u8) -> Option<()> {
    let mut query = [0; 255];
    let input = &mut query[..usize::from(count)];
    source.read_exact(input).ok()?;
    // a line that cannot be written is passed over
    let _ = show::read(out, input);
    Some(())
}

// By hand, here and below: this program alone reads them so, and the types are of other crates.
fn request(query: &[u8]) -> Request {
    let [service, token, reply, tx] = numbers::<4>(query);
    Request {
        service,
        token,
        reply,
        tx,
    }
}

// A request that is written into so many bytes, at most 16, which hold ee.
pub fn answer_write<R: Read>(source: &mut R, out: &impl Print, room: u8) -> Option<()> {
    let mut buffer = [0xEE; 16];
    let lent = buffer.get_mut(..usize::from(room))?;
    let query = bytes::<R, 16>(source)?;
    let _ = show::write(out, lent, request(&query));
    Some(())
}

// The code's eight bytes come before the other fields.
fn answer(query: &[u8]) -> Option<Answer> {
    let (eights, _) = query.as_chunks::<8>();
    let code = i64::from_le_bytes(*eights.first()?);
    let [value, event, token, service, tx] = numbers::<5>(query.get(8..)?);
    Some(Answer {
        code,
        value,
        event,
        token,
        service,
        tx,
    })
}

// A call and its answer; the count is 0.
pub fn answer_of<R: Read>(source: &mut R, out: &impl Print, count: u8) -> Option<()> {
    if count != 0 {
        return None;
    }
    let query = bytes::<R, 52>(source)?;
    let (call, rest) = query.split_at(24);
    let _ = show::of(out, Call::from(numbers(call)), answer(rest)?);
    Some(())
}
