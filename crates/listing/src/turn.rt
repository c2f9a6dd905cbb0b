// A turn of the drill program, on the lent buffers.
ghost use Rattle.std.specs.Prelude.{◌≡◌, ◌-◌, ◌≤◌, length, take, drop};
ghost use Rattle.monitor.specs.Pieces.{is_over};
ghost use Rattle.monitor.specs.View.{view};
ghost use Rattle.listing.specs.Turn.{turned, at_front, turned_of};

use super::piece::list_piece;
use monitor::Store;
use rules::codes;

// Moves the bytes from `used` up to `count` to the front, and tells how many they are.
fn keep_rest(buffer: &mut [u8], used: usize, count: usize) -> usize
    requires { count ≤ length buffer.old }
    ensures kept { result ≡ count - used }
    ensures moved { buffer.new ≡ at_front (drop used (take count buffer.old)) buffer.old }
{
    if count <= used {
        return 0;
    }
    buffer.copy_within(used..count, 0);
    count - used
}

// Is the file over? After a refusal, and where the input has ended and nothing is left.
#[tactic(auto, using(crate::proofs::Turns::over_refused, crate::proofs::Turns::over_open))]
fn is_over(ended: bool, code: i64, left: usize) -> bool
    ensures { result ≡ is_over ended code left }
{
    code != codes::FILE_RUN || (ended && left == 0)
}

// What a turn gives: the record after it, how many bytes are kept at the front of the input's buffer, how many bytes of text there are, and whether the
// file is over, which stands beside values that hold either way. Both counts are of lent buffers, of which the contract tells the rest, too.
#[derive(Clone, Copy)]
pub struct Turned {
    pub store: Store,
    pub kept: usize,
    pub written: usize,
    pub over: bool,
}

// Runs the whole calls of the first `count` bytes, as many as there are answer places for, lists their answers, and keeps the bytes that they did not take;
// `ended` says that the input ends with those bytes. A count stands beside the whole buffer, and no slice of it: a caller may count more than it holds, and
// then all of it is run. The two are `Waiting` in `drill_io`, whose method reads and must stand beside its struct; here nothing is read.
pub fn list_turn(
    m: Store,
    input: &mut [u8],
    count: usize,
    ended: bool,
    answers: &mut [i64],
    out: &mut [u8],
) -> Turned
    ensures { turned (view result.store.words) result.kept result.written result.over input.new answers.new out.new
        ≡ turned_of (view m.words) input.old count ended answers.old out.old }
{
    let held = count.min(input.len());
    let listed = list_piece(m, &input[..held], ended, &mut *answers, &mut *out);
    let kept = keep_rest(&mut *input, listed.used, held);
    Turned {
        store: listed.store,
        kept,
        written: listed.written,
        over: is_over(ended, listed.code, kept),
    }
}
