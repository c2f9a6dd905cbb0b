// Calls read from the bytes of a drill file, and written into a buffer.
use super::show::bytes;
use super::stored::{ROOM, load};
use monitor::WriteError;
use number::ReadError;
use rules::Call;
use std::io;

// `wire_vectors` prints a call as here: `Display` for it would be public in `rules`, with a contract of its own, for the two.
fn show_call(rt: &impl Print, call: Call) -> io::Result<()> {
    print!(rt;
        "{} {} {} {} {} {}",
        call.clock, call.party, call.kind, call.a, call.b, call.c
    )
}

// What stands at a place; the place after it where it is a call, and else the place itself, which `show_write` reads again. Errors are printed as the
// codes that a file is refused with: their enums are of other crates, so `Display` would need a wrapper for each, for two numbers.
fn show_read(rt: &impl Print, name: &str, input: &[u8], place: usize) -> io::Result<usize> {
    print!(rt; "read_call {name} at {place}: ")?;
    match monitor::read_call(input, place) {
        Ok(Some((call, next))) => {
            show_call(rt, call)?;
            println!(rt; ", next {next}")?;
            return Ok(next);
        }
        Ok(None) => println!(rt; "end")?,
        Err(ReadError::CutShort) => println!(rt; "17")?,
        Err(ReadError::Malformed) => println!(rt; "18")?,
    }
    Ok(place)
}

// Each place, one past the end, and the greatest.
fn read_places(rt: &impl Print, name: &str, input: &[u8]) -> io::Result<()> {
    for place in 0..input.len() + 2 {
        show_read(rt, name, input, place)?;
    }
    show_read(rt, name, input, usize::MAX)?;
    Ok(())
}

pub fn reads(rt: &HostRuntime) -> io::Result<()> {
    for name in ["case-06", "case-45"] {
        let mut bytes = [0; ROOM];
        read_places(rt, name, load(rt, name, &mut bytes))?;
    }
    Ok(())
}

// The numbers of a file's first 39 calls, and zeros where it has fewer, so that each row has what it takes; the next place is what `read_call` tells.
// Here alone a call becomes its six numbers, so no `From` stands for it.
pub fn numbers(input: &[u8]) -> [u32; 234] {
    let mut list = [0; 234];
    let mut at = 0;
    let (sixes, _) = list.as_chunks_mut::<6>();
    for six in sixes {
        let Ok(Some((call, next))) = monitor::read_call(input, at) else {
            break;
        };
        *six = [call.clock, call.party, call.kind, call.a, call.b, call.c];
        at = next;
    }
    list
}

// Writes a list at a place, shows the buffer, and reads there.
fn show_write(rt: &impl Print, list: &[u32], place: usize, buffer: &mut [u8]) -> io::Result<()> {
    print!(rt;
        "write_calls {} numbers at {place} in {} bytes: ",
        list.len(),
        buffer.len()
    )?;
    match monitor::write_calls(buffer, place, list) {
        Ok(next) => print!(rt; "next {next}")?,
        Err(WriteError::NoRoom) => print!(rt; "16")?,
        Err(WriteError::Unfinished) => print!(rt; "17")?,
    }
    print!(rt; ",")?;
    bytes(rt, buffer);
    println!(rt)?;
    let next = show_read(rt, "there", buffer, place)?;
    show_read(rt, "there", buffer, next)?;
    Ok(())
}

// So many numbers of a list, into so many bytes, which hold ee.
fn write(rt: &impl Print, list: &[u32], count: usize, place: usize, room: usize) -> io::Result<()> {
    let mut buffer = [0xEE; 32];
    if let (Some(numbers), Some(lent)) = (list.get(..count), buffer.get_mut(..room)) {
        show_write(rt, numbers, place, lent)?;
    }
    Ok(())
}

fn write_list(rt: &impl Print, list: &[u32]) -> io::Result<()> {
    for (count, place, room) in [
        (12, 0, 27),
        (12, 0, 26),
        (12, 2, 29),
        (12, 2, 28),
        (12, 2, 32),
        (6, 0, 13),
        (6, 0, 12),
        (0, 4, 4),
        (0, 5, 4),
        (6, 5, 4),
        (0, 0, 0),
        (11, 0, 32),
        (1, 0, 32),
        (7, 5, 4),
        (12, usize::MAX, 32),
    ] {
        write(rt, list, count, place, room)?;
    }
    Ok(())
}

pub fn writes(rt: &HostRuntime) -> io::Result<()> {
    let mut bytes = [0; ROOM];
    let list = numbers(load(rt, "case-06", &mut bytes));
    write_list(rt, &list)
}
