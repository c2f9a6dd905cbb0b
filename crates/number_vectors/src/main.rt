// Runs the reader and the writer over the borders and some hundreds of drawn numbers and inputs, a line each.
#![tactic(auto)]

ghost use Rattle.std.specs.Prelude.{◌<◌};

use hex_io::Hex;
use number::{NoRoom, ReadError};
use std::io;

// The numbers at the borders of each length.
const VALUES: [u32; 14] = [
    0, 1, 127, 128, 300, 16383, 16384, 2097151, 2097152, 268435455, 268435456, 2147483647,
    2147483648, 4294967295,
];

// Inputs at the borders of each length, and at those of what is refused.
const INPUTS: [&[u8]; 24] = [
    b"\x00",
    b"\x7F",
    b"\x80\x01",
    b"\xAC\x02",
    b"\x80\x00",
    b"\xFF\x00",
    b"\xFF\x7F",
    b"\x80\x80\x00",
    b"\x80\x80\x01",
    b"\xFF\xFF\x7F",
    b"\x80\x80\x80\x00",
    b"\x80\x80\x80\x01",
    b"\xFF\xFF\xFF\x7F",
    b"\x80\x80\x80\x80\x00",
    b"\x81\x80\x80\x80\x00",
    b"\x80\x80\x80\x80\x01",
    b"\x80\x80\x80\x80\x0F",
    b"\x80\x80\x80\x80\x10",
    b"\x80\x80\x80\x80\x7F",
    b"\xFF\xFF\xFF\xFF\x0F",
    b"\xFF\xFF\xFF\xFF\x10",
    b"\xFF\xFF\xFF\xFF\x80",
    b"\x80\x80\x80\x80\x80\x00",
    b"\xFF\xFF\xFF\xFF\xFF\x01",
];

// The greatest number of each length; it keeps of a number what that length holds.
const GREATEST: [u32; 5] = [127, 16383, 2097151, 268435455, 4294967295];

// Bytes that cannot be written are passed over, and what follows is tried.
fn show_bytes(out: &impl Print, bytes: &[u8]) {
    let _ = print!(out; "{}", Hex(bytes));
}

// Errors are printed as the codes that a file is refused with: their types are of another crate, so `Display` would need a wrapper for each.
fn show_read(out: &impl Print, input: &[u8], place: usize) -> io::Result<()> {
    print!(out; "read")?;
    show_bytes(out, input);
    print!(out; " at {place}: ")?;
    match number::decode(input, place) {
        Ok((value, next)) => println!(out; "{value} next {next}"),
        Err(ReadError::CutShort) => println!(out; "refused 17"),
        Err(ReadError::Malformed) => println!(out; "refused 18"),
    }
}

// Writes a number, shows the whole buffer, and reads at the same place.
fn show_write(out: &impl Print, buffer: &mut [u8], place: usize, value: u32) -> io::Result<()> {
    print!(out; "write {value} at {place}: ")?;
    match number::encode(buffer, place, value) {
        Ok(next) => print!(out; "next {next}")?,
        Err(NoRoom) => print!(out; "refused 16")?,
    }
    print!(out; " in")?;
    show_bytes(out, buffer);
    println!(out)?;
    show_read(out, buffer, place)
}

// Each number at the borders in rooms of up to six bytes, at places from 0 to 2.
fn write_borders(out: &impl Print) -> io::Result<()> {
    for value in VALUES {
        for room in 0..7 {
            for place in 0..3 {
                let mut buffer = [0xEE; 6];
                show_write(out, &mut buffer[..room], place, value)?;
            }
        }
    }
    Ok(())
}

// An input cut after each of its bytes, and whole at each place up to two past its end.
fn read_border(out: &impl Print, input: &[u8]) -> io::Result<()> {
    for cut in 0..input.len() {
        show_read(out, &input[..cut], 0)?;
    }
    for place in 0..input.len() + 3 {
        show_read(out, input, place)?;
    }
    Ok(())
}

fn read_borders(out: &impl Print) -> io::Result<()> {
    for input in INPUTS {
        read_border(out, input)?;
    }
    Ok(())
}

// A generator of numbers.
#[derive(Drop)]
struct Generator {
    state: u64,
}

impl Generator {
    // The better bits of the next state, which is below 2^31: a number below 2^15.
    fn draw(&mut self) -> u64
        ensures { result < 32768 }
    {
        self.state = (self.state % 2147483648 * 1103515245 + 12345) % 2147483648;
        self.state / 65536 % 32768
    }

    // A number drawn in three steps. Narrowed by `as` after a remainder, here and below: `try_from` would give a `Result` for what always fits.
    fn number(&mut self) -> u32 {
        let high = self.draw();
        let middle = self.draw();
        let low = self.draw();
        (((high * 32768 + middle) * 32768 + low) % 4294967296) as u32
    }

    // A byte of an input: three of four go on.
    fn byte(&mut self) -> u8 {
        let drawn = self.draw();
        let group = (drawn / 4 % 128) as u8;
        if drawn % 4 == 0 { group } else { group + 128 }
    }
}

// Numbers that are drawn, of each length in turn.
fn write_drawn(out: &impl Print) -> io::Result<()> {
    let mut generator = Generator { state: 1 };
    for i in 0..200 {
        let mut buffer = [0xEE; 8];
        let value = generator.number() & GREATEST[i % 5];
        show_write(out, &mut buffer, i % 4, value)?;
    }
    Ok(())
}

// Seven bytes that are drawn, or the first of them.
fn read_drawn(out: &impl Print) -> io::Result<()> {
    let mut generator = Generator { state: 2 };
    for i in 0..300 {
        let mut bytes = [0; 7];
        for byte in &mut bytes {
            *byte = generator.byte();
        }
        show_read(out, &bytes[..i % 8], i / 8 % 3)?;
    }
    Ok(())
}

fn main(rt: HostRuntime) -> io::Result<()> {
    write_borders(&rt)?;
    read_borders(&rt)?;
    write_drawn(&rt)?;
    read_drawn(&rt)
}
