// Turns of the drill program, run by a library call.
ghost use Rattle.std.specs.Prelude.{◌≤◌};

use super::show;
use super::stored::{PLACES, kept, load, read_full, unsound};
use listing::Turned;
use monitor::Store;
use std::fs::File;
use std::{fs, io};

// The bytes of text, and whether the rest of its buffer is as it was.
fn show_text(rt: &impl Print, out: &[u8], written: usize) -> io::Result<()> {
    if let Some((text, rest)) = out.split_at_checked(written) {
        let blank = show::yes(rest.iter().all(|byte| *byte == 0xEE));
        println!(rt; ", past the text kept {blank}")?;
        rt.write_all(text)?;
    }
    Ok(())
}

// A stored file, and what its turns are lent beside their input: so many answer places, which hold 77, and room for so much text, which holds ee.
#[derive(Clone, Copy)]
struct Case {
    name: &'static str,
    places: usize,
    room: usize,
    ghost places_bound: { places ≤ 237 },
    ghost room_bound: { room ≤ 550 },
}

impl Case {
    fn new(name: &'static str, places: usize, room: usize) -> Self
        requires places_bound { places ≤ 237 }
        requires room_bound { room ≤ 550 }
    {
        Case { name, places, room }
    }

    // A turn on so many bytes of the input, told beside the whole of it, as `list_turn` is lent them.
    fn turn(
        self,
        rt: &impl Print,
        m: Store,
        input: &mut [u8],
        count: usize,
        ended: bool,
    ) -> io::Result<Turned> {
        let name = self.name;
        let mut answers = [77; PLACES];
        let mut text = [0xEE; 550];
        let places = &mut answers[..self.places];
        let out = &mut text[..self.room];
        print!(rt;
            "list_turn {name}, {count} bytes of {}, {}",
            input.len(),
            show::ends(ended)
        )?;
        print!(rt; ", {} places, room {}: ", self.places, self.room)?;
        let turned = listing::list_turn(m, input, count, ended, places, out);
        print!(rt; "kept {}, written {}", turned.kept, turned.written)?;
        print!(rt;
            ", over {}, record {}",
            show::yes(turned.over),
            kept(m, turned.store)
        )?;
        show_text(rt, out, turned.written)?;
        print!(rt; "input")?;
        show::bytes(rt, input);
        println!(rt)?;
        show::places(rt, places)?;
        Ok(turned)
    }

    // The turn once the input has ended, and one more unless the file is over.
    fn end_turns(
        self,
        rt: &impl Print,
        m: Store,
        input: &mut [u8],
        count: usize,
    ) -> io::Result<()> {
        let turned = self.turn(rt, m, input, count, true)?;
        if !turned.over {
            self.turn(rt, turned.store, input, turned.kept, true)?;
        }
        Ok(())
    }

    // Two calls, the first bytes of them read for a turn, the rest behind what that leaves.
    fn chunk_turns(self, rt: &impl Print, file: &mut File, cut: usize) -> io::Result<()>
        requires { cut ≤ 32 }
    {
        let mut buffer = [0xEE; 32];
        let input: &mut [u8] = &mut buffer;
        let count = read_full(file, &mut input[..cut]);
        let first = self.turn(rt, Store::fresh(), input, count, false)?;
        let more = match input.get_mut(first.kept..) {
            Some(rest) => read_full(file, rest),
            None => 0,
        };
        self.end_turns(rt, first.store, input, first.kept.saturating_add(more))
    }

    // The file at the front of a buffer of so many bytes, the rest of which hold ee.
    fn once(
        self,
        rt: &HostRuntime,
        m: Store,
        size: usize,
        count: usize,
        ended: bool,
    ) -> io::Result<()>
        requires { size ≤ 32 }
    {
        let mut buffer = [0xEE; 32];
        let input = &mut buffer[..size];
        load(rt, self.name, input);
        self.turn(rt, m, input, count, ended)?;
        Ok(())
    }

    fn read_in_two(self, rt: &HostRuntime, cut: usize) -> io::Result<()>
        requires { cut ≤ 32 }
    {
        let mut file = fs::open(rt, self.name)?;
        self.chunk_turns(rt, &mut file, cut)
    }
}

// Each row is a call, where its size is proved to be within the buffer; a row of an array would need a type of its own for that.
fn single_turns(rt: &HostRuntime, m: Store) -> io::Result<()> {
    Case::new("case-00", 24, 550).once(rt, m, 25, 25, false)?;
    Case::new("case-00", 27, 550).once(rt, m, 28, 25, true)?;
    Case::new("case-06", 12, 286).once(rt, m, 30, 20, false)?;
    Case::new("case-06", 12, 286).once(rt, m, 30, 20, true)?;
    Case::new("case-06", 12, 286).once(rt, m, 20, 27, false)?;
    Case::new("case-06", 12, 286).once(rt, m, 27, usize::MAX, true)?;
    Case::new("case-06", 6, 154).once(rt, m, 27, 27, true)?;
    Case::new("case-06", 5, 22).once(rt, m, 27, 27, true)?;
    Case::new("case-06", 12, 285).once(rt, m, 27, 27, false)?;
    Case::new("case-06", 0, 21).once(rt, m, 27, 27, true)?;
    Case::new("case-35", 12, 286).once(rt, m, 16, 11, false)?;
    Case::new("case-43", 12, 286).once(rt, m, 16, 7, false)?;
    Case::new("case-48", 12, 286).once(rt, m, 16, 14, false)?;
    Case::new("case-48", 5, 22).once(rt, m, 16, 14, true)?;
    Case::new("case-01", 6, 154).once(rt, m, 4, 0, false)?;
    Case::new("case-01", 6, 154).once(rt, m, 4, 0, true)?;
    Case::new("case-01", 6, 154).once(rt, m, 0, 1, true)
}

pub fn turns(rt: &HostRuntime) -> io::Result<()> {
    single_turns(rt, Store::fresh())?;
    for cut in 0..28 {
        Case::new("case-06", 12, 286).read_in_two(rt, cut)?;
    }
    Case::new("case-06", 6, 154).read_in_two(rt, 20)?;
    println!(rt; "last transaction number 60001")?;
    let m = unsound();
    Case::new("case-00", 24, 550).once(rt, m, 25, 25, false)?;
    Case::new("case-01", 6, 154).once(rt, m, 4, 0, true)?;
    Case::new("case-00", 24, 549).once(rt, m, 25, 25, false)
}
