// One call: the questions before the kind's, the clock, the kind's rule, the answer's last field.
ghost use Rattle.std.specs.Prelude.{◌≡◌, true, ◌≤◌};
ghost use Rattle.rules.specs.Codes.{code_of};
ghost use Rattle.rules.specs.Sound.{sound};
ghost use Rattle.rules.specs.Step.{rule_of, advanced, answered_to, call_of, step_of};
ghost use Rattle.monitor.specs.Kinds.{kind_number};
ghost use Rattle.monitor.specs.View.{view, ruled_by, told_of, stepped, code_answer};

use super::conversations::{tpdiscon, tprecv, tpsend};
use super::kinds::Kind;
use super::links::coded;
use super::party::PartyNumber;
use super::replies::{tpcancel, tpgetrply};
use super::requests::{dispatch, tpacall, tpconnect};
use super::returns::{terminate, tpreturn};
use super::rights::set_rights;
use super::services::{tpadvertise, tpunadvertise};
use super::sound::is_sound_in;
use super::transaction::tx_of;
use super::tx::{
    tx_begin, tx_close, tx_commit, tx_info, tx_open, tx_rollback, tx_set_commit_return,
    tx_set_transaction_control, tx_set_transaction_timeout,
};
use super::votes::report;
use super::words::{Store, WORDS, clock, set_clock};
use super::{Stepped, Told};
use rules::{Answer, Call, Refusal};

// Each kind by its rule. A match, since the kinds are closed and take different arguments; these go by their letters, as in the rules: a struct of them
// would be taken apart in each kind.
#[tactic(auto, using(crate::proofs::Laws::sound_room), unfolding(rules::specs::Step::rule_of, rules::specs::Choice::pick))]
pub(crate) fn rule(
    s: &mut [u32; WORDS],
    p: PartyNumber,
    kind: Kind,
    a: u32,
    b: u32,
    c: u32,
) -> Result<Told, Refusal>
    requires { sound (view s.old) ≡ true }
    ensures { ruled_by (told_of result) (view s.new) ≡ rule_of (view s.old) p.index (kind_number kind) a b c }
{
    match kind {
        Kind::TxOpen => tx_open(s, p),
        Kind::TxClose => tx_close(s, p),
        Kind::TxBegin => tx_begin(s, p),
        Kind::TxCommit => tx_commit(s, p),
        Kind::TxRollback => tx_rollback(s, p),
        Kind::TxInfo => tx_info(s, p),
        Kind::TxSetCommitReturn => tx_set_commit_return(s, p, a),
        Kind::TxSetTransactionControl => tx_set_transaction_control(s, p, a),
        Kind::TxSetTransactionTimeout => tx_set_transaction_timeout(s, p, a),
        Kind::TpAdvertise => tpadvertise(s, p, a),
        Kind::TpUnadvertise => tpunadvertise(s, p, a),
        Kind::TpACall => tpacall(s, p, a, b, c),
        Kind::TpConnect => tpconnect(s, p, a, b, c),
        Kind::Dispatch => dispatch(s, p),
        Kind::TpGetRply => tpgetrply(s, p, a, b),
        Kind::TpCancel => tpcancel(s, p, a),
        Kind::TpSend => tpsend(s, p, a, b, c),
        Kind::TpRecv => tprecv(s, p, a),
        Kind::TpDiscon => tpdiscon(s, p, a),
        Kind::TpReturn => tpreturn(s, p, a, c),
        Kind::Terminate => Ok(terminate(s, p)),
        Kind::Report => report(s, p, a, b, c),
        Kind::SetRights => set_rights(s, p, a, b, c),
    }
}

// The clock becomes the greater of its own and the call's.
#[tactic(auto, unfolding(rules::specs::Step::later_of, rules::specs::Choice::pick))]
pub(crate) fn advance(s: &mut [u32; WORDS], t: u32)
    ensures { view s.new ≡ advanced (view s.old) t }
{
    let now = clock(s);
    set_clock(s, now.max(t));
}

// What a rule tells, a refusal by its number, with the caller's T afterwards.
#[tactic(auto, unfolding(rules::specs::Step::answered_to))]
pub(crate) fn tell(s: &[u32; WORDS], r: Result<Told, Refusal>, p: PartyNumber) -> Answer
    requires { (view s.now).count ≤ 32 }
    ensures { stepped result (view s.now) ≡ answered_to (ruled_by (told_of r) (view s.now)) p.index }
{
    let told = r.unwrap_or_else(|why| coded(why.code()));
    let t = tx_of(s, p);
    // Field by field: a `From` would be as long, with a contract of its own.
    Answer {
        code: told.code,
        value: told.value,
        event: told.event,
        token: told.token,
        service: told.service,
        tx: t,
    }
}

// The answer to questions 19, 20 and 21.
pub(crate) fn turn_down(why: Refusal) -> Answer
    ensures { result ≡ code_answer (code_of why) }
{
    Answer {
        code: why.code(),
        ..Answer::default()
    }
}

// A call on a sound record, which leaves a sound one.
#[tactic(auto, using(crate::proofs::Steady::clock_sound, crate::proofs::Steady::rule_room), unfolding(rules::specs::Step::call_of, rules::specs::Step::turned_down, rules::specs::Choice::pick))]
pub(crate) fn call_on(s: &mut [u32; WORDS], c: Call) -> Answer
    requires { sound (view s.old) ≡ true }
    ensures { (stepped result (view s.new) ≡ call_of (view s.old) c) × (sound (view s.new) ≡ true) }
{
    let kind = match Kind::try_from(c.kind) {
        Ok(kind) => kind,
        Err(why) => return turn_down(why),
    };
    let p = match PartyNumber::try_from(c.party) {
        Ok(p) => p,
        Err(why) => return turn_down(why),
    };
    advance(s, c.clock);
    let r = rule(s, p, kind, c.a, c.b, c.c);
    tell(s, r, p)
}

// One call, on whatever record is lent.
#[tactic(auto, unfolding(rules::specs::Step::step_of, rules::specs::Step::turned_down, rules::specs::Choice::pick))]
pub(crate) fn step_on(s: &mut [u32; WORDS], call: Call) -> Answer
    ensures { stepped result (view s.new) ≡ step_of (view s.old) call }
{
    if !is_sound_in(s) {
        return turn_down(Refusal::Unsound);
    }
    call_on(s, call)
}

// One call.
pub fn step(mut m: Store, call: Call) -> Stepped
    ensures { stepped result.answer (view result.store.words) ≡ step_of (view m.words) call }
{
    let answer = step_on(&mut m.words, call);
    Stepped { store: m, answer }
}
