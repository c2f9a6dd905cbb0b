// Short stored files, run from a record many times over, or listed from it.
ghost use Rattle.std.specs.Prelude.{◌≤◌, length};

use monitor::Store;
use std::fs;
use std::io::Read;

// The answer places of 40 calls, six by six, as a host in C lends them.
const PLACES: usize = 240;

// How many bytes of a stored file are read at most.
const ROOM: usize = 4096;

// Reads until the buffer is full, the file ends or a read fails, and tells how many bytes it put at the buffer's front. A buffer, and no `Vec`, here and
// below: it asks for no memory, without which less would be read and nothing told.
fn read_full<R: Read>(source: &mut R, buffer: &mut [u8]) -> usize
    ensures { result ≤ length buffer.new }
{
    let mut done = 0;
    while done < buffer.len() {
        let more = source.read(&mut buffer[done..]).unwrap_or(0);
        if more == 0 {
            return done;
        }
        done += more;
    }
    done
}

// The first bytes of a stored file, as many as the buffer holds; nothing where it cannot be opened, which is told. `public_calls` has the like.
fn load<'a>(rt: &HostRuntime, name: &str, buffer: &'a mut [u8]) -> &'a [u8] {
    match fs::open(rt, name) {
        Ok(mut file) => {
            let count = read_full(&mut file, buffer);
            &buffer[..count]
        }
        Err(e) => {
            let _ = eprintln!(rt; "{name}: {e}");
            &[]
        }
    }
}

// Buffers of their own in both functions: a struct of them for the two would be longer.
// The record after a stored file of up to 40 calls that is run a number of times.
#[inline(never)]
pub fn run_stored(rt: &HostRuntime, m: Store, name: &str, times: usize) -> Store {
    let mut bytes = [0; ROOM];
    let piece = load(rt, name, &mut bytes);
    let mut answers = [0; PLACES];
    let mut text = [0; 65536];
    let mut store = m;
    for _ in 0..times {
        store = listing::list_piece(store, piece, true, &mut answers, &mut text).store;
    }
    store
}

// Lists a stored file of up to 40 calls from a record, after its name.
#[inline(never)]
pub fn list_stored(rt: &HostRuntime, m: Store, name: &str) {
    let _ = rt.println(name);
    let mut bytes = [0; ROOM];
    let piece = load(rt, name, &mut bytes);
    let mut answers = [0; PLACES];
    let mut text = [0; 65536];
    let listed = listing::list_piece(m, piece, true, &mut answers, &mut text);
    let _ = rt.write_all(&text[..listed.written]);
}
