// A lent list of calls, six numbers to a call, with its list of answers, six places a call, as a host in C lends them.
ghost use Rattle.std.specs.Prelude.{◌≡◌, true, ◌++◌, ◌+◌, ◌*◌, ◌≤◌, length, take, drop};
ghost use Rattle.rules.specs.Sound.{sound};
ghost use Rattle.rules.specs.Run.{calls_in, places_of, ran_of, answers_of, listed, list_of};
ghost use Rattle.monitor.specs.View.{list_code, view};

use super::Ran;
use super::sound::is_sound_in;
use super::steps::call_on;
use super::words::{Store, WORDS};
use rules::{Answer, Call, Refusal, codes};

// An answer's six places, one by one: with one `copy_from_slice` a list of calls took 1.08 times as long.
pub(crate) fn put(out: &mut [i64], at: usize, r: Answer)
    requires { at + 6 ≤ length out.old }
    ensures { out.new ≡ take at out.old ++ places_of r ++ drop (at + 6) out.old }
{
    out[at] = r.code;
    out[at + 1] = i64::from(r.value);
    out[at + 2] = i64::from(r.event);
    out[at + 3] = i64::from(r.token);
    out[at + 4] = i64::from(r.service);
    out[at + 5] = i64::from(r.tx);
}

// Calls, one after the other.
#[tactic(auto, using(crate::proofs::Turns::runs_none))]
pub(crate) fn run(s: &mut [u32; WORDS], calls: &[u32], out: &mut [i64])
    requires { (sound (view s.old) ≡ true) × (calls_in calls.now * 6 ≤ length out.old) }
    ensures { (view s.new ≡ ran_of (calls_in calls.now) (view s.old) calls.now)
        × (out.new ≡ answers_of (calls_in calls.now) (view s.old) calls.now ++ drop (calls_in calls.now * 6) out.old) }
{
    let (calls, _) = calls.as_chunks::<6>();
    // Answers by place: of what `chunks_exact_mut` lent, a proof knows only how much it was.
    for (i, call) in calls.iter().enumerate() {
        let r = call_on(s, Call::from(*call));
        put(out, i * 6, r);
    }
}

// A whole list, on whatever record is lent.
#[tactic(auto, unfolding(rules::specs::Run::list_of, rules::specs::Choice::pick))]
pub(crate) fn run_on(
    s: &mut [u32; WORDS],
    calls: &[u32],
    answers: &mut [i64],
) -> Result<(), Refusal>
    ensures { listed (list_code result) (view s.new) answers.new ≡ list_of (view s.old) calls.now answers.old }
{
    if calls.len() % 6 != 0 {
        return Err(Refusal::CutShort);
    }
    if answers.len() < calls.len() {
        return Err(Refusal::TooLittleRoom);
    }
    if !is_sound_in(s) {
        return Err(Refusal::Unsound);
    }
    run(s, calls, answers);
    Ok(())
}

// How it was answered: 0, 17, 16 or 19.
pub(crate) fn list_code(ran: Result<(), Refusal>) -> i64
    ensures { result ≡ list_code ran }
{
    match ran {
        Ok(()) => codes::LIST_RUN,
        Err(why) => why.code(),
    }
}

// A whole list.
pub fn run_list(mut m: Store, calls: &[u32], answers: &mut [i64]) -> Ran
    ensures { listed result.code (view result.store.words) answers.new ≡ list_of (view m.words) calls.now answers.old }
{
    let code = list_code(run_on(&mut m.words, calls, answers));
    Ran { store: m, code }
}
