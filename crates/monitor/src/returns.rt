// Kinds 20 and 21: a service returns, and a party dies.
ghost use Rattle.std.specs.Prelude.{◌≡◌, ◌≤◌, [], ◌∷◌, option_to_list};
ghost use Rattle.rules.specs.Choice.{pick};
ghost use Rattle.rules.specs.Lists.{first_of};
ghost use Rattle.rules.specs.Record.{is_server_free, own_end, is_conversation, is_working, is_returned, closed, disconnected_link, live, with_parties};
ghost use Rattle.rules.specs.Return.{plain_outcome, outcome_of, unread_after, rollback_only_by, close_own, end_own, rollback_only_served, serves_none, ending_of, hand_back, leave, return_with, return_of, died_out, after_death, terminate_of};
ghost use Rattle.monitor.specs.Ending.{outcome_number};
ghost use Rattle.monitor.specs.View.{view, ruled_by, told_of};

use super::Told;
use super::conversations::is_originator_end;
use super::links::{
    accept, change_at, close_end, disconnect_link, drop_unread, first_own, has_own_end, is_own_end,
    live_at, place_of, remove_at, sweep,
};
use super::party::PartyNumber;
use super::transaction::{end_tx, first_of_tx, is_lost, set_rollback_only};
use super::words::{WORDS, count, link_at, party_at, put_party};
use rules::{Link, Party, Refusal, codes};

// Is the server the sender, with no grant under way?
pub(crate) fn is_server_free(l: Link) -> bool
    ensures { result ≡ is_server_free l }
{
    l.sender == 1 && l.granting == 0
}

// How a service returned.
#[derive(Clone, Copy, Debug, PartialEq, Eq)]
pub(crate) enum Outcome {
    SvcErr,
    SvcFail,
    SvcSucc,
}

impl Outcome {
    // Its number, in the record, in an event and in the value of a return. No `From`: the name says which number it is.
    pub(crate) fn number(self) -> u32
        ensures { result ≡ outcome_number self }
    {
        match self {
            Outcome::SvcErr => codes::TPEV_SVCERR,
            Outcome::SvcFail => codes::TPEV_SVCFAIL,
            Outcome::SvcSucc => codes::TPEV_SVCSUCC,
        }
    }
}

// As the service means to return: a stays C's number, as the rules' `outcome_of` has it.
#[tactic(auto, unfolding(rules::specs::Return::plain_outcome, rules::specs::Choice::pick))]
pub(crate) fn plain_outcome(a: u32) -> Outcome
    ensures { outcome_number result ≡ plain_outcome a }
{
    if a == codes::TPSUCCESS {
        Outcome::SvcSucc
    } else {
        Outcome::SvcFail
    }
}

#[tactic(auto, unfolding(rules::specs::Return::outcome_of, rules::specs::Choice::pick))]
pub(crate) fn outcome_of(s: &[u32; WORDS], p: PartyNumber, a: u32, c: u32, l: Link) -> Outcome
    requires { (view s.now).count ≤ 32 }
    ensures { outcome_number result ≡ outcome_of (view s.now) p.index a c l }
{
    if has_own_end(s, p) || party_at(s, p.index).owned != 0 {
        return Outcome::SvcErr;
    }
    if a == codes::TPSUCCESS && is_lost(s, l.tx) {
        return Outcome::SvcErr;
    }
    if l.kind != 1 {
        return plain_outcome(a);
    }
    if l.disconnected != 0 {
        return Outcome::SvcErr;
    }
    if is_server_free(l) {
        return plain_outcome(a);
    }
    if a == codes::TPFAIL && c == 0 {
        return Outcome::SvcFail;
    }
    Outcome::SvcErr
}

// The served link, its unread dropped or kept.
#[tactic(auto, unfolding(rules::specs::Return::unread_after, rules::specs::Choice::pick))]
pub(crate) fn unread_after(o: Outcome, l: Link) -> Link
    ensures { result ≡ unread_after (outcome_number o) l }
{
    if o == Outcome::SvcErr || !is_server_free(l) {
        drop_unread(l)
    } else {
        l
    }
}

// The transactions of party p's own conversations become rollback-only; the first of its own links stands at the place `from`.
#[tactic(auto, using(crate::proofs::Closing::none_marked, crate::proofs::Laws::next_live, crate::proofs::Laws::end_live), unfolding(rules::specs::Return::rollback_only_by, rules::specs::Choice::pick))]
pub(crate) fn mark_own(s: &mut [u32; WORDS], p: PartyNumber, from: usize)
    requires { ((view s.old).count ≤ 32) × (from ≡ first_of (own_end p.index) (live (view s.old))) }
    ensures { view s.new ≡ with_parties (view s.old) (rollback_only_by p.index (live (view s.old)) (view s.old).parties) }
{
    for i in from..count(s) {
        let l = link_at(s, i);
        if is_originator_end(p, l) {
            set_rollback_only(s, l.tx);
        }
    }
}

// What is left of a link of party p's own as it closes.
#[tactic(auto, unfolding(rules::specs::Choice::pick))]
fn left_closed(l: Link) -> Option<Link>
    ensures { option_to_list result ≡ pick (is_conversation l) (pick (is_working l) (disconnected_link l ∷ []) []) (pick (is_returned l) [] (closed l ∷ [])) }
{
    if l.kind == 1 {
        return (l.state == 1).then_some(disconnect_link(l));
    }
    (l.state != 2).then_some(close_end(l))
}

// Party p's own links close.
#[tactic(auto, using(crate::proofs::Laws::count_kept, crate::proofs::Sweep::first_inside))]
pub(crate) fn close_own(s: &mut [u32; WORDS], p: PartyNumber)
    requires { (view s.old).count ≤ 32 }
    ensures { (view s.new ≡ close_own (view s.old) p.index) × ((view s.new).count ≤ 32) }
{
    let from = first_own(s, p);
    mark_own(s, p, from);
    sweep(s, from, |l| is_own_end(p, l), left_closed);
}

// Its own transaction, if any, ends without a new one.
#[tactic(auto, unfolding(rules::specs::Return::end_own, rules::specs::Choice::pick))]
pub(crate) fn end_own(s: &mut [u32; WORDS], p: PartyNumber)
    requires { (view s.old).count ≤ 32 }
    ensures { (view s.new ≡ end_own (view s.old) p.index) × ((view s.new).count ≤ 32) }
{
    let t = party_at(s, p.index).owned;
    if t != 0 {
        let from = first_of_tx(s, t);
        end_tx(s, p, from);
    }
}

#[tactic(auto, unfolding(rules::specs::Return::rollback_only_served, rules::specs::Choice::pick))]
pub(crate) fn set_served_rollback_only(s: &mut [u32; WORDS], o: Outcome, t: u32)
    ensures { view s.new ≡ rollback_only_served (outcome_number o) t (view s.old) }
{
    if o != Outcome::SvcSucc {
        set_rollback_only(s, t);
    }
}

#[tactic(auto, unfolding(rules::specs::Return::serves_none))]
pub(crate) fn serve_none(s: &mut [u32; WORDS], p: PartyNumber)
    ensures { view s.new ≡ serves_none (view s.old) p.index }
{
    let q = party_at(s, p.index);
    put_party(s, p.index, Party { served: 0, ..q });
}

#[tactic(auto, unfolding(rules::specs::Return::ending_of, rules::specs::Choice::pick))]
pub(crate) fn ending_of(o: Outcome, c: u32) -> u32
    ensures { result ≡ ending_of (outcome_number o) c }
{
    match o {
        Outcome::SvcErr => 0,
        Outcome::SvcFail | Outcome::SvcSucc => c,
    }
}

// The link d is returned, or goes if the originator's end is closed. d, o and e go by their letters, as in the rules: a struct of them would be taken
// apart at once. The place, then the link, here and below: a function of both would give a pair.
#[tactic(auto, unfolding(rules::specs::Return::hand_back, rules::specs::Record::link_of, rules::specs::Record::changed, rules::specs::Choice::pick))]
pub(crate) fn hand_back(s: &mut [u32; WORDS], d: u32, o: Outcome, e: u32)
    requires { (view s.old).count ≤ 32 }
    ensures { view s.new ≡ hand_back (view s.old) d (outcome_number o) e }
{
    let i = place_of(s, d);
    let l = live_at(s, i);
    if l.attached == 1 {
        let k = Link {
            state: 2,
            outcome: o.number(),
            ending: e,
            ..l
        };
        change_at(s, i, k);
    } else {
        remove_at(s, i, d);
    }
}

// Party p, which serves the link d, leaves it with the outcome o and the ending token e.
#[tactic(auto, unfolding(rules::specs::Return::leave, rules::specs::Return::rollback_only_served, rules::specs::Return::serves_none, rules::specs::Record::link_of, rules::specs::Record::changed, rules::specs::Choice::pick))]
pub(crate) fn leave_link(s: &mut [u32; WORDS], p: PartyNumber, d: u32, o: Outcome, e: u32)
    requires { (view s.old).count ≤ 32 }
    ensures { view s.new ≡ leave (view s.old) p.index d (outcome_number o) e }
{
    let i = place_of(s, d);
    let l = live_at(s, i);
    change_at(s, i, unread_after(o, l));
    close_own(s, p);
    end_own(s, p);
    set_served_rollback_only(s, o, l.tx);
    serve_none(s, p);
    hand_back(s, d, o, e);
}

// Party p returns with the outcome o and the token c.
#[tactic(auto, unfolding(rules::specs::Return::return_with))]
pub(crate) fn return_with(s: &mut [u32; WORDS], p: PartyNumber, o: Outcome, c: u32) -> Told
    requires { (view s.old).count ≤ 32 }
    ensures { ruled_by result (view s.new) ≡ return_with (view s.old) p.index (outcome_number o) c }
{
    let d = party_at(s, p.index).served;
    leave_link(s, p, d, o, ending_of(o, c));
    accept(o.number())
}

// Kind 20.
#[tactic(auto, unfolding(rules::specs::Return::return_of, rules::specs::Record::link_of, rules::specs::Choice::pick))]
pub(crate) fn tpreturn(
    s: &mut [u32; WORDS],
    p: PartyNumber,
    a: u32,
    c: u32,
) -> Result<Told, Refusal>
    requires { (view s.old).count ≤ 32 }
    ensures { ruled_by (told_of result) (view s.new) ≡ return_of (view s.old) p.index a c }
{
    let d = party_at(s, p.index).served;
    if d == 0 {
        return Err(Refusal::NotAllowedNow);
    }
    if a != codes::TPSUCCESS && a != codes::TPFAIL {
        return Err(Refusal::BadArgument);
    }
    let i = place_of(s, d);
    let l = live_at(s, i);
    let o = outcome_of(s, p, a, c, l);
    Ok(return_with(s, p, o, c))
}

// What a party that died leaves behind.
#[tactic(auto, unfolding(rules::specs::Return::died_out, rules::specs::Choice::pick))]
pub(crate) fn die_out(s: &mut [u32; WORDS], p: PartyNumber)
    requires { (view s.old).count ≤ 32 }
    ensures { view s.new ≡ died_out (view s.old) p.index }
{
    let d = party_at(s, p.index).served;
    if d == 0 {
        close_own(s, p);
        end_own(s, p);
    } else {
        leave_link(s, p, d, Outcome::SvcErr, 0);
    }
}

// What the party is then, by what it was.
pub(crate) fn after_death(q: Party) -> Party
    ensures { result ≡ after_death q }
{
    Party {
        mayrequest: q.mayrequest,
        mayadvertise: q.mayadvertise,
        ..Party::fresh()
    }
}

// Kind 21.
#[tactic(auto, unfolding(rules::specs::Return::terminate_of, rules::specs::Choice::pick))]
pub(crate) fn terminate(s: &mut [u32; WORDS], p: PartyNumber) -> Told
    requires { (view s.old).count ≤ 32 }
    ensures { ruled_by result (view s.new) ≡ terminate_of (view s.old) p.index }
{
    let before = party_at(s, p.index);
    die_out(s, p);
    put_party(s, p.index, after_death(before));
    if before.served == 0 {
        accept(0)
    } else {
        accept(Outcome::SvcErr.number())
    }
}
