// A turn's text, and the bytes that are sent for its call.
ghost use Rattle.std.specs.Prelude.{◌≤◌, length};

use hex_io::Hex;
use rules::{Answer, Call};
use std::io;
use std::num::TryFromIntError;

// The answer in six places, where a host in C has it. All but the code are of 32 bits. One program reads answers so: `TryFrom` would stand in `rules`, public
// and with a contract of its own.
fn answer_in(places: [i64; 6]) -> Result<Answer, TryFromIntError> {
    let [code, value, event, token, service, tx] = places;
    Ok(Answer {
        code,
        value: value.try_into()?,
        event: event.try_into()?,
        token: token.try_into()?,
        service: service.try_into()?,
        tx: tx.try_into()?,
    })
}

// The bytes that are sent for a call with its answer in these places, put into the buffer; nothing where nothing is sent.
fn sent(buffer: &mut [u8], call: Call, places: [i64; 6]) -> Option<&[u8]> {
    let answer = answer_in(places).ok()?;
    let request = wire::wire_of(call, answer)?;
    let count = wire::wire_write(buffer, request).ok()?;
    buffer.get(..count)
}

// The place of a text's first line feed, or the text's end.
fn line_end(text: &[u8]) -> usize
    ensures { result ≤ length text.now }
{
    text.iter()
        .position(|byte| *byte == b'\n')
        .unwrap_or(text.len())
}

// Writes a text whose first line goes on with what is sent. Once the line is written, each part is tried, also where the one before it failed.
fn write_with(out: &impl Print, text: &[u8], sent: &[u8]) -> io::Result<()> {
    let end = line_end(text);
    out.write_all(&text[..end])?;
    let colon = out.write_all(b":");
    let bytes = print!(out; "{}", Hex(sent));
    let rest = out.write_all(&text[end..]);
    colon.and(bytes).and(rest)
}

// Writes the text of a turn with this call at its front, the answer in these places. A sequence takes at most 11 bytes.
pub fn write_lines(
    out: &impl Print,
    text: &[u8],
    call: Option<Call>,
    places: [i64; 6],
) -> io::Result<()> {
    let mut buffer = [0; 11];
    match call.and_then(|call| sent(&mut buffer, call, places)) {
        Some(bytes) => write_with(out, text, bytes),
        None => out.write_all(text),
    }
}
