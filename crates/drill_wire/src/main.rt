// The drill program with the wire side of each request: a drill file from standard input, its answers in lines to standard output, the line of each
// accepted request going on with the bytes of its sequence.
#![tactic(auto)]

mod text;

ghost use Rattle.std.specs.Prelude.{◌≤◌, ◌<◌, length, IfOk, IfSome};

use drill_io::{Failure, State, Waiting};
use number::ReadError;
use std::io::Read;

// Is there a whole call at the front, or a bad number?
fn is_ready(waiting: &[u8]) -> bool {
    matches!(
        monitor::read_call(waiting, 0),
        Ok(Some(_)) | Err(ReadError::Malformed)
    )
}

// What waits for a turn. It reads only where no call is ready, so that each is answered as soon as it is there.
fn wait<R: Read>(source: &mut R, input: &mut [u8], waiting: Waiting) -> Result<Waiting, Failure>
    requires { waiting.count ≤ length input.old }
    ensures { IfOk result (λ w. w.count ≤ length input.old) }
{
    if is_ready(&input[..waiting.count]) {
        return Ok(waiting);
    }
    waiting.receive(source, input)
}

// One turn: has the call at the front run and listed, and writes its line. With six answer places, as a host in C lends them, there is one call to a turn, and
// its text, with a refusal behind it, takes at most 154 bytes. A call takes at most 30, so where the file goes on there is room for the next read. The input's
// buffer is lent beside the state, as `Waiting` says.
fn turn<R: Read>(
    source: &mut R,
    out: &impl Print,
    state: State,
    input: &mut [u8],
) -> Result<Option<State>, Failure>
    requires count_in_bounds { state.waiting.count < length input.old }
    requires in_bounds { 30 < length input.old }
    ensures { IfOk result (λ next. IfSome next (λ s. s.waiting.count < length input.old)) }
{
    let waiting = wait(source, input, state.waiting)?;
    let read = monitor::read_call(&input[..waiting.count], 0);
    let call = read.ok().flatten().map(|(call, _)| call);
    let mut answers = [0; 6];
    let mut lines = [0; 154];
    let turned = listing::list_turn(
        state.store,
        input,
        waiting.count,
        waiting.ended,
        &mut answers,
        &mut lines,
    );
    let written = text::write_lines(out, &lines[..turned.written], call, answers);
    written.map_err(|_| Failure::CannotWrite)?;
    Ok(State::after(turned, waiting.ended))
}

// Lists the drill file that a reader gives, up to its end, a bad number or a failure. The loop of `drill_io` over other turns: one loop for both would take
// the turn as a closure, with clauses longer than this.
fn list<R: Read>(source: &mut R, out: &impl Print) -> Result<(), Failure> {
    let mut input = [0; 4096];
    let mut state = State::fresh();
    // Counted, since each loop has to end, and how many turns there are the input tells.
    for _ in 0..u64::MAX {
        let Some(next) = turn(source, out, state, &mut input)? else {
            return Ok(());
        };
        state = next;
    }
    Ok(())
}

fn main(rt: HostRuntime) {
    if let Err(failure) = list(&mut rt.stdin(), &rt.stdout()) {
        let _ = eprintln!(rt; "drill_wire: {failure}");
    }
}
