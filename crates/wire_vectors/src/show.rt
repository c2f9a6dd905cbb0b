// The lines: what was asked, and what the library's calls tell. Each part of a line is tried, also where one before it failed.
use hex_io::Hex;
use rules::{Answer, Call};
use std::io;
use wire::Request;

// By its fields: `Display` would be public in `wire`, with a contract of its own, for this program alone.
fn request(out: &impl Print, r: Request) -> io::Result<()> {
    print!(out; " {} {} {} {}", r.service, r.token, r.reply, r.tx)
}

pub fn read(out: &impl Print, input: &[u8]) -> io::Result<()> {
    let asked = print!(out; "read{}:", Hex(input));
    let told = match wire::wire_read(input) {
        Ok(r) => request(out, r),
        Err(error) => print!(out; " refused {}", error.code()),
    };
    asked.and(told).and(println!(out))
}

pub fn write(out: &impl Print, buffer: &mut [u8], r: Request) -> io::Result<()> {
    let word = print!(out; "write");
    let asked = request(out, r);
    let room = print!(out; " room {}:", buffer.len());
    let told = match wire::wire_write(buffer, r) {
        Ok(length) => print!(out; " {length}"),
        Err(error) => print!(out; " refused {}", error.code()),
    };
    let bytes = println!(out; " in{}", Hex(buffer));
    word.and(asked).and(room).and(told).and(bytes)
}

// `public_calls` prints a call as here: `Display` for it would be public in `rules`, with a contract of its own, for the two.
pub fn of(out: &impl Print, c: Call, a: Answer) -> io::Result<()> {
    let asked = print!(out;
        "of {} {} {} {} {} {},",
        c.clock, c.party, c.kind, c.a, c.b, c.c
    );
    let answered = print!(out;
        " {} {} {} {} {} {}:",
        a.code, a.value, a.event, a.token, a.service, a.tx
    );
    let told = match wire::wire_of(c, a) {
        Some(r) => request(out, r),
        None => print!(out; " nothing"),
    };
    asked.and(answered).and(told).and(println!(out))
}
