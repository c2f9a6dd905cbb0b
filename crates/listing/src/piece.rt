// A piece of a drill file, run and listed.
ghost use Rattle.std.specs.Prelude.{◌≡◌};
ghost use Rattle.monitor.specs.View.{view};
ghost use Rattle.listing.specs.Piece.{shown, listed_of};

use super::text::{put_lines, put_refusal};
use monitor::{Store, run_piece};
use rules::Refusal;

// What a piece gives: the record after its calls, how many of its bytes those took, how many bytes of text they made, and the code that ended it:
// 0 where it may go on, 16 where the text's buffer is too short, else the refusal. It is a number, as the library has it from C's struct for a drill file,
// beside values that hold either way. The text is a count, and no slice of its buffer: the contract tells what the buffer holds past the text, too.
#[derive(Clone, Copy)]
pub struct Listed {
    pub store: Store,
    pub used: usize,
    pub written: usize,
    pub code: i64,
}

// Runs the whole calls of a piece, as many as there are answer places for, and lists their answers; `last` says that the file ends with the piece.
// The answers lie six by six, as a host in C lends the places. 22 bytes is the longest refusal, 132 the longest line.
#[tactic(auto, using(crate::proofs::Pieces::few_calls, crate::proofs::Digits::lines_short, crate::proofs::Digits::lines_taken))]
pub fn list_piece(m: Store, input: &[u8], last: bool, answers: &mut [i64], out: &mut [u8]) -> Listed
    ensures { shown (view result.store.words) result.used result.written result.code answers.new out.new
        ≡ listed_of (view m.words) input.now last answers.old out.old }
{
    let room = out.len();
    if room < 22 || (room - 22) / 132 < answers.len() / 6 {
        return Listed {
            store: m,
            used: 0,
            written: 0,
            code: Refusal::TooLittleRoom.code(),
        };
    }
    let ran = run_piece(m, input, last, &mut *answers);
    let lines = put_lines(&mut *out, &answers[..ran.calls * 6]);
    let written = put_refusal(&mut *out, lines, ran.code);
    Listed {
        store: ran.store,
        used: ran.used,
        written,
        code: ran.code,
    }
}
