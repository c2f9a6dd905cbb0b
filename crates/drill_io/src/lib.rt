// A drill file from a reader, its answers in lines to an output. A turn's two ends, what it reads and what it leaves, serve other programs on drill files
// too.
#![tactic(auto)]

ghost use Rattle.std.specs.Prelude.{true, false, ◌≡◌, ◌≤◌, ◌<◌, length, take, IfOk, IfErr, IfSome, MatchOption};

mod told;

use listing::Turned;
use monitor::Store;
use std::io::Read;
pub use told::Failure;

// What waits in the input's buffer: how many bytes, and whether the input ended there, which is a fact about the file. The bytes are counted, and no slice of
// the buffer, since the next read goes into it; and the buffer is no field, since a turn of `listing` is lent it beside the count. By default nothing waits.
#[derive(Clone, Copy, Default)]
pub struct Waiting {
    pub count: usize,
    pub ended: bool,
}

impl Waiting {
    // Reads once, past the bytes that wait, unless the input has ended or the buffer is full. A read has room for a byte, so one that gives none has met
    // the input's end.
    pub fn receive<R: Read>(self, source: &mut R, input: &mut [u8]) -> Result<Waiting, Failure>
        ensures within { IfOk result (λ w. w.count ≤ length input.old) }
        ensures onward { IfOk result (λ w. self.count ≤ length input.old → self.count ≤ w.count) }
        ensures kept { take self.count input.new ≡ take self.count input.old }
        ensures error { IfErr result (λ e. (e ≡ Failure.CannotRead) × (self.count < length input.old)) }
    {
        if input.len() <= self.count {
            return Ok(Waiting {
                count: input.len(),
                ..self
            });
        }
        if self.ended {
            return Ok(self);
        }
        let more = source
            .read(&mut input[self.count..])
            .map_err(|_| Failure::CannotRead)?;
        Ok(Waiting {
            count: self.count + more,
            ended: more == 0,
        })
    }
}

// Between two turns: the record, and what waits.
#[derive(Clone, Copy)]
pub struct State {
    pub store: Store,
    pub waiting: Waiting,
}

impl State {
    // A fresh monitor, and nothing read yet.
    pub fn fresh() -> Self
        ensures { result.waiting.count ≡ 0 }
    {
        State {
            store: Store::fresh(),
            waiting: Waiting::default(),
        }
    }

    // What a turn leaves to the next one; nothing where the file is over.
    pub fn after(turned: Turned, ended: bool) -> Option<State>
        ensures { MatchOption result (turned.over ≡ true)
            (λ s. (turned.over ≡ false) × (s ≡ record { store = turned.store; waiting = record { count = turned.kept; ended = ended } })) }
    {
        if turned.over {
            return None;
        }
        Some(State {
            store: turned.store,
            waiting: Waiting {
                count: turned.kept,
                ended,
            },
        })
    }
}

// The input's buffer and the text's.
const ROOM: usize = 65536;

// The answer places of 496 calls, whose lines the text's buffer has room for. They lie six by six, as a host in C lends them.
const PLACES: usize = 2976;

// The buffers of a turn, of fixed size, since memory is fixed.
#[derive(Drop)]
struct Buffers {
    input: [u8; ROOM],
    answers: [i64; PLACES],
    output: [u8; ROOM],
}

impl Buffers {
    fn new() -> Self {
        Buffers {
            input: [0; ROOM],
            answers: [0; PLACES],
            output: [0; ROOM],
        }
    }

    // One turn: reads, has the calls that are whole run and listed, and writes their lines. Where the file goes on there is room for the next read.
    #[tactic(auto, using(listing::proofs::Turns::turn_fits, listing::proofs::Turns::turn_leaves_room, crate::proofs::Room::room_after))]
    fn turn<R: Read>(
        &mut self,
        source: &mut R,
        out: &impl Print,
        state: State,
    ) -> Result<Option<State>, Failure>
        requires { state.waiting.count < ROOM }
        ensures { IfOk result (λ next. IfSome next (λ s. s.waiting.count < ROOM)) }
    {
        let waiting = state.waiting.receive(source, &mut self.input)?;
        let turned = listing::list_turn(
            state.store,
            &mut self.input,
            waiting.count,
            waiting.ended,
            &mut self.answers,
            &mut self.output,
        );
        out.write_all(&self.output[..turned.written])
            .map_err(|_| Failure::CannotWrite)?;
        Ok(State::after(turned, waiting.ended))
    }
}

// Lists the drill file that a reader gives, up to its end, a bad number or a failure.
fn list<R: Read>(source: &mut R, out: &impl Print) -> Result<(), Failure> {
    let mut buffers = Buffers::new();
    let mut state = State::fresh();
    // Counted, since each loop has to end, and how many turns there are the input tells.
    for _ in 0..u64::MAX {
        let Some(next) = buffers.turn(source, out, state)? else {
            return Ok(());
        };
        state = next;
    }
    Ok(())
}

// Lists the drill file that a reader gives, up to its end, a bad number or a failure, which is told in the program's name.
pub fn list_all<R: Read>(source: &mut R, out: &impl Print, errors: &impl Print, program: &[u8]) {
    if let Err(failure) = list(source, out) {
        told::tell(errors, program, failure);
    }
}
