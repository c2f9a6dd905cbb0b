// Drill files and pieces of them, run by a library call.
ghost use Rattle.std.specs.Prelude.{◌≤◌};

use super::show::{ends, places};
use super::stored::{PLACES, ROOM, kept, load, unsound};
use monitor::Store;
use std::io;

// The two library calls that run the bytes of a drill file. An enum and no closure: which call it is is printed, too.
#[derive(Clone, Copy)]
enum By {
    File,
    Piece { last: bool },
}

// Pieces that the input goes on after, and that it ends with.
const GOES_ON: By = By::Piece { last: false };

const ENDS: By = By::Piece { last: true };

impl By {
    // Such a call on a file, with so many answer places.
    fn on(self, name: &'static str, count: usize) -> Case
        requires { count ≤ PLACES }
    {
        Case {
            by: self,
            name,
            count,
        }
    }
}

// A stored file, and what runs it: one of the two calls, with so many answer places.
#[derive(Clone, Copy)]
struct Case {
    by: By,
    name: &'static str,
    count: usize,
    ghost count_bound: { count ≤ 237 },
}

impl Case {
    // Runs these bytes of it.
    fn run(self, rt: &impl Print, m: Store, input: &[u8]) -> io::Result<()> {
        let name = self.name;
        let count = self.count;
        let mut room = [77; PLACES];
        let answers = &mut room[..count];
        let bytes = input.len();
        let ran = match self.by {
            By::File => {
                print!(rt; "run_file {name}, {bytes} bytes, {count} places: ")?;
                monitor::run_file(m, input, answers)
            }
            By::Piece { last } => {
                print!(rt; "run_piece {name}, {bytes} bytes, {}, ", ends(last))?;
                print!(rt; "{count} places: ")?;
                monitor::run_piece(m, input, last, answers)
            }
        };
        print!(rt; "code {}, calls {}, used {}", ran.code, ran.calls, ran.used)?;
        println!(rt; ", record {}", kept(m, ran.store))?;
        places(rt, answers)
    }

    // Runs all of it.
    fn whole(self, rt: &HostRuntime, m: Store) -> io::Result<()> {
        let mut bytes = [0; ROOM];
        self.run(rt, m, load(rt, self.name, &mut bytes))
    }
}

// Two calls, cut after each number of bytes: as whole files, and as pieces below. What a cut is run as differs, so a closure would be as long as the loop.
fn cut_files(rt: &impl Print, input: &[u8]) -> io::Result<()> {
    for cut in 0..=input.len() {
        By::File
            .on("case-06", 12)
            .run(rt, Store::fresh(), &input[..cut])?;
    }
    Ok(())
}

fn cut_pieces(rt: &impl Print, input: &[u8]) -> io::Result<()> {
    for cut in 0..=input.len() {
        let part = &input[..cut];
        GOES_ON.on("case-06", 12).run(rt, Store::fresh(), part)?;
        ENDS.on("case-06", 6).run(rt, Store::fresh(), part)?;
    }
    Ok(())
}

pub fn files(rt: &HostRuntime) -> io::Result<()> {
    for case in [
        By::File.on("case-00", 27),
        By::File.on("case-00", 23),
        By::File.on("case-01", 3),
        By::File.on("case-01", 0),
        By::File.on("case-06", 15),
        By::File.on("case-06", 11),
        By::File.on("case-35", 9),
        By::File.on("case-35", 5),
        By::File.on("case-41", 9),
        By::File.on("case-43", 9),
        By::File.on("case-45", 9),
        By::File.on("case-48", 9),
        By::File.on("case-48", 5),
        By::File.on("base", 237),
        By::File.on("base", 233),
    ] {
        case.whole(rt, Store::fresh())?;
    }
    let mut bytes = [0; ROOM];
    cut_files(rt, load(rt, "case-06", &mut bytes))?;
    println!(rt; "last transaction number 60001")?;
    for case in [
        By::File.on("case-00", 27),
        By::File.on("case-00", 23),
        By::File.on("case-01", 0),
        By::File.on("case-43", 9),
    ] {
        case.whole(rt, unsound())?;
    }
    Ok(())
}

pub fn pieces(rt: &HostRuntime) -> io::Result<()> {
    for case in [
        GOES_ON.on("base", 0),
        GOES_ON.on("base", 5),
        GOES_ON.on("base", 6),
        ENDS.on("base", 11),
        ENDS.on("base", 60),
        GOES_ON.on("case-41", 9),
        GOES_ON.on("case-43", 9),
        ENDS.on("case-43", 9),
        ENDS.on("case-43", 5),
        GOES_ON.on("case-48", 9),
        GOES_ON.on("case-48", 5),
    ] {
        case.whole(rt, Store::fresh())?;
    }
    let mut bytes = [0; ROOM];
    cut_pieces(rt, load(rt, "case-06", &mut bytes))?;
    println!(rt; "last transaction number 60001")?;
    for case in [GOES_ON.on("case-00", 27), ENDS.on("case-43", 0)] {
        case.whole(rt, unsound())?;
    }
    Ok(())
}
