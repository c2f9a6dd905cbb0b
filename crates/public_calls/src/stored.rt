// Stored drill files, and the records that cases start from.
ghost use Rattle.std.specs.Prelude.{◌≤◌, length};

use super::records::tells_rights;
use monitor::Store;
use std::io::Read;
use std::{fs, io};

// How many answer places there are at most. They hold 77 before a call.
pub const PLACES: usize = 237;

// Tells on standard error that a file cannot be opened: its name, a colon and why, without the error's number.
fn tell(rt: &HostRuntime, name: &str, error: io::Error) -> io::Result<()> {
    let words = error.to_string(rt.alloc())?;
    let why = words.split(" (os error ").next().unwrap_or("");
    eprintln!(rt; "{name}: {why}")
}

// How many bytes of a stored file are read at most.
pub const ROOM: usize = 4096;

// Reads until the buffer is full, the file ends or a read fails, and tells how many bytes it put at the buffer's front. A buffer, and no `Vec`, here and
// where files are read: it asks for no memory, without which less would be read and nothing told.
pub fn read_full<R: Read>(source: &mut R, buffer: &mut [u8]) -> usize
    ensures { result ≤ length buffer.new }
{
    let mut done = 0;
    while done < buffer.len() {
        let more = source.read(&mut buffer[done..]).unwrap_or(0);
        if more == 0 {
            return done;
        }
        done += more;
    }
    done
}

// The first bytes of a stored file, as many as the buffer holds; nothing where it cannot be opened, which is told. `drill_cases` has the like.
pub fn load<'a>(rt: &HostRuntime, name: &str, buffer: &'a mut [u8]) -> &'a [u8] {
    match fs::open(rt, name) {
        Ok(mut file) => {
            let count = read_full(&mut file, buffer);
            &buffer[..count]
        }
        Err(error) => {
            let _ = tell(rt, name, error);
            &[]
        }
    }
}

// The record after the file base: parties that own, serve and offer, three links, tokens unread.
pub fn base(rt: &HostRuntime) -> Store {
    let mut bytes = [0; ROOM];
    let input = load(rt, "base", &mut bytes);
    let mut answers = [77; PLACES];
    monitor::run_file(Store::fresh(), input, &mut answers).store
}

// A record that is not sound: its last transaction number is 60001.
pub fn unsound() -> Store {
    let mut m = Store::fresh();
    m.words[2] = 60001;
    m
}

// Did any word of the record change? `damaged` has the like: what both use would be public in `monitor`, with a contract of its own, for two words.
pub fn kept(before: Store, after: Store) -> &'static str {
    if before == after { "kept" } else { "changed" }
}

// Do all words that tell rights, or all others, hold the value?
pub fn all_of(m: Store, rights: bool, value: u32) -> bool {
    m.words
        .iter()
        .enumerate()
        .all(|(at, word)| tells_rights(at) != rights || *word == value)
}
