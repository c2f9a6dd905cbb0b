// What is written: words for yes and no and for the input's end, answer places.
use hex_io::Hex;
use std::io;

// A word for each answer, here and below: a `Display` of a bool's own would need a wrapper for each.
pub fn yes(is: bool) -> &'static str {
    if is { "yes" } else { "no" }
}

// Does the input end with the bytes in hand?
pub fn ends(last: bool) -> &'static str {
    if last { "ends" } else { "goes on" }
}

// Bytes. Where they cannot be written they are passed over, and what follows is tried.
pub fn bytes(rt: &impl Print, bytes: &[u8]) {
    let _ = print!(rt; "{}", Hex(bytes));
}

// Answer places, six to a line.
pub fn places(rt: &impl Print, answers: &[i64]) -> io::Result<()> {
    for line in answers.chunks(6) {
        for (i, place) in line.iter().enumerate() {
            if i > 0 {
                print!(rt; " ")?;
            }
            print!(rt; "{place}")?;
        }
        println!(rt)?;
    }
    Ok(())
}
