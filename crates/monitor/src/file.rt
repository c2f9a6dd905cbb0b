// The drill file: calls as numbers in groups of seven bits, six to a call; reading one, running a file, writing one.
// Answers lie six by six, as a host in C lends the places; a slice and a place in it are two arguments, as in `number`.
ghost use Rattle.std.specs.Prelude.{◌≡◌, true};
ghost use Rattle.rules.specs.Codes.{code_of};
ghost use Rattle.rules.specs.Sound.{sound};
ghost use Rattle.monitor.specs.View.{view};
ghost use Rattle.monitor.specs.declared.file.WriteError.TheVariants.{NoRoom};
ghost use Rattle.monitor.specs.File.{read_call, found, passed, piece_run, piece_of, file_of, file_calls, file_written, file_answer, file_buffer};

use super::run::put;
use super::sound::is_sound_in;
use super::steps::call_on;
use super::words::{Store, WORDS};
use number::{NoRoom, ReadError};
use rules::{Call, Refusal, codes};

// The call at a place, and the place after it; none where the file ends between two calls.
#[tactic(auto, using(crate::proofs::Calls::call_none, crate::proofs::Calls::reads_none, crate::proofs::Calls::call_read), unfolding(crate::specs::File::found, number::specs::Answers::decoded))]
pub fn read_call(input: &[u8], place: usize) -> Result<Option<(Call, usize)>, ReadError>
    ensures { found result ≡ read_call input.now place }
{
    if input.len() <= place {
        return Ok(None);
    }
    let mut values = [0u32; 6];
    let mut at = place;
    for value in &mut values {
        (*value, at) = number::decode(input, at)?;
    }
    Ok(Some((Call::from(values), at)))
}

// What a drill file tells, beside its answers and the record: its code, how many calls were run, and the place after them. C's entry gives it
// as it stands, a struct of C's.
#[repr(C)]
#[derive(Clone, Copy, Default)]
pub struct Passed {
    pub code: i64,
    pub calls: usize,
    pub used: usize,
}

// The same, with the record after its calls. Flat: with a `Passed` inside, callers and contracts would read through it; made by `new`, since it takes two.
// The code is a number as in C's struct, and stands beside values, since the calls before a bad number were carried out.
#[derive(Clone, Copy)]
pub struct FileRan {
    pub store: Store,
    pub code: i64,
    pub calls: usize,
    pub used: usize,
}

impl Passed {
    // A refusal before the first call.
    fn refused(why: Refusal) -> Passed
        ensures { result ≡ record { code = code_of why; calls = 0; used = 0 } }
    {
        Passed {
            code: why.code(),
            ..Passed::default()
        }
    }
}

impl FileRan {
    // What was told, with the record after it.
    fn new(store: Store, told: Passed) -> FileRan
        ensures { result ≡ record { store = store; code = told.code; calls = told.calls; used = told.used } }
    {
        FileRan {
            store,
            code: told.code,
            calls: told.calls,
            used: told.used,
        }
    }
}

// The calls of a piece of a file on a sound record, as many as there are answer places for. `last` is a fact of the input, that the file ends
// with the piece, and chooses no steps.
#[tactic(auto, using(crate::proofs::Calls::runs_none, crate::proofs::Calls::runs_over, crate::proofs::Calls::runs_cut), unfolding(rules::specs::Choice::pick))]
fn run_calls(s: &mut [u32; WORDS], input: &[u8], last: bool, answers: &mut [i64]) -> Passed
    requires { sound (view s.old) ≡ true }
    ensures { passed (view s.new) result.code result.calls result.used answers.new ≡ piece_run (view s.old) input.now last answers.old }
{
    let most = answers.len() / 6;
    // The place is the one that `read_call` tells, no index that a `for` could count; the count is told.
    let mut at = 0;
    let mut n = 0;
    // The code is a number beside values, as in `Passed`.
    let code = loop {
        match read_call(input, at) {
            Ok(Some((call, next))) => {
                if most <= n {
                    break codes::FILE_RUN;
                }
                let r = call_on(s, call);
                put(answers, n * 6, r);
                at = next;
                n += 1;
            }
            Ok(None) => break codes::FILE_RUN,
            Err(ReadError::CutShort) if last => break Refusal::CutShort.code(),
            Err(ReadError::CutShort) => break codes::FILE_RUN,
            Err(ReadError::Malformed) => break Refusal::Malformed.code(),
        }
    };
    Passed {
        code,
        calls: n,
        used: at,
    }
}

// A piece of a file, on whatever record is lent.
#[tactic(auto, unfolding(crate::specs::File::piece_of, rules::specs::Choice::pick))]
pub(crate) fn piece_on(
    s: &mut [u32; WORDS],
    input: &[u8],
    last: bool,
    answers: &mut [i64],
) -> Passed
    ensures { passed (view s.new) result.code result.calls result.used answers.new ≡ piece_of (view s.old) input.now last answers.old }
{
    if !is_sound_in(s) {
        return Passed::refused(Refusal::Unsound);
    }
    run_calls(s, input, last, answers)
}

// A piece of a file, by value; `run_file` beside it differs in what it calls.
pub fn run_piece(mut m: Store, input: &[u8], last: bool, answers: &mut [i64]) -> FileRan
    ensures { passed (view result.store.words) result.code result.calls result.used answers.new ≡ piece_of (view m.words) input.now last answers.old }
{
    let told = piece_on(&mut m.words, input, last, answers);
    FileRan::new(m, told)
}

// How many whole calls a file has, before its end or a bad number.
#[tactic(auto, using(crate::proofs::Calls::counts_none, crate::proofs::Calls::counts_nothing))]
fn count_calls(input: &[u8]) -> usize
    ensures { result ≡ (file_calls input.now).count }
{
    // As in `run_calls`: the place is told by `read_call`, and the count is what this tells.
    let mut at = 0;
    let mut n = 0;
    while let Ok(Some((_, next))) = read_call(input, at) {
        at = next;
        n += 1;
    }
    n
}

// A whole file, on whatever record is lent.
#[tactic(auto, unfolding(crate::specs::File::file_of, rules::specs::Choice::pick))]
pub(crate) fn file_on(s: &mut [u32; WORDS], input: &[u8], answers: &mut [i64]) -> Passed
    ensures { passed (view s.new) result.code result.calls result.used answers.new ≡ file_of (view s.old) input.now answers.old }
{
    let whole = count_calls(input);
    if answers.len() / 6 < whole {
        return Passed::refused(Refusal::TooLittleRoom);
    }
    piece_on(s, input, true, answers)
}

// A whole file.
pub fn run_file(mut m: Store, input: &[u8], answers: &mut [i64]) -> FileRan
    ensures { passed (view result.store.words) result.code result.calls result.used answers.new ≡ file_of (view m.words) input.now answers.old }
{
    let told = file_on(&mut m.words, input, answers);
    FileRan::new(m, told)
}

// Why nothing is written; `file_written` gives document 01's code of each. No `Refusal`: whoever matches it has these arms alone.
#[derive(Clone, Copy, Debug, PartialEq, Eq)]
pub enum WriteError {
    // too little room at the place
    NoRoom,
    // the list ends inside a call
    Unfinished,
}

impl From<NoRoom> for WriteError {
    ghost from_gives = { λ _ e. e ≡ NoRoom };

    fn from(_: NoRoom) -> WriteError {
        WriteError::NoRoom
    }
}

// A list of calls, six numbers to a call, put into the buffer at a place; answers the place after the last byte. Where it is refused the
// buffer stays as it was.
#[tactic(auto, unfolding(crate::specs::File::file_written, crate::specs::File::file_answer, crate::specs::File::file_buffer, crate::specs::File::whole_calls, number::specs::Answers::encoded, rules::specs::Choice::pick))]
pub fn write_calls(buffer: &mut [u8], place: usize, calls: &[u32]) -> Result<usize, WriteError>
    ensures answer { file_written result ≡ file_answer buffer.old place calls.now }
    ensures bytes { buffer.new ≡ file_buffer buffer.old place calls.now }
{
    if calls.len() % 6 != 0 {
        return Err(WriteError::Unfinished);
    }
    Ok(number::encode_all(buffer, place, calls)?)
}
