// Answers queries of the wire side of a request, a line each: bytes that are read, requests that are written, and the requests of calls and answers.
// It ends where standard input does, and at a query that is incomplete or unknown.
//
// A query starts with two bytes: what is asked, and a count. The numbers behind them are 32 bits, lowest byte first; the code of an answer is 64.
#![tactic(auto)]

mod query;
mod show;

use std::io::Read;

// Answers the next query; nothing where there is none. The byte is matched here and nowhere else, so an enum with `TryFrom` would be a second match.
fn answer_next<R: Read>(source: &mut R, out: &impl Print) -> Option<()> {
    let [asked, count] = query::bytes::<R, 2>(source)?;
    match asked {
        0 => query::answer_read(source, out, count),
        1 => query::answer_write(source, out, count),
        2 => query::answer_of(source, out, count),
        _ => None,
    }
}

fn main(rt: HostRuntime) {
    let mut source = rt.stdin();
    let out = rt.stdout();
    // Every loop has to end, and how many queries come is not known.
    for _ in 0..u64::MAX {
        if answer_next(&mut source, &out).is_none() {
            return;
        }
    }
}
