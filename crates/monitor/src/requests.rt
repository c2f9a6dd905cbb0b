// Kinds 12 to 14: a request, a connect, and the dispatch of a waiting link.
ghost use Rattle.std.specs.Prelude.{◌≡◌, ◌+◌, ◌<◌, ◌≤◌, IfOk};
ghost use Rattle.rules.specs.declared.Ruled.{Ruled};
ghost use Rattle.rules.specs.Record.{added, new_link};
ghost use Rattle.rules.specs.Requests.{recv_only, connect_flags, link_tx, link_left, ask_link, request_of, connect_of, is_idle, fits};
ghost use Rattle.rules.specs.Requests.{dispatch_event, dispatched, next_waiting, dispatch_of};
ghost use Rattle.monitor.specs.View.{view, asked, place_among, with_number, ruled_by, told_of};

use super::Told;
use super::found::Found;
use super::links::{accept, has_own_end};
use super::party::PartyNumber;
use super::searches::first_link;
use super::services::{in_set, is_offered, is_offering};
use super::transaction::{is_late_at, live_owner, tx_of};
use super::words::{WORDS, add_link, count, last_link, link_at, party_at, put_link, put_party};
use rules::{Link, Monitor, Party, Refusal, codes, is_service, no_reply, no_tran};

// Does the server send first?
pub(crate) fn recv_only(b: u32) -> bool
    ensures { result ≡ recv_only b }
{
    b / codes::TPRECVONLY % 2 == 1
}

// The flags of a connect: TPNOTRAN, and one of TPSENDONLY and TPRECVONLY.
pub(crate) fn connect_flags(b: u32) -> bool
    ensures { result ≡ connect_flags b }
{
    b <= 15 && !no_reply(b) && (b / codes::TPSENDONLY % 2 == 1) != recv_only(b)
}

// The transaction of a new link with the flags b, 0 for none, as the link keeps it.
#[tactic(auto, unfolding(rules::specs::Requests::link_tx, rules::specs::Choice::pick))]
pub(crate) fn link_tx(s: &[u32; WORDS], p: PartyNumber, b: u32) -> u32
    requires { (view s.now).count ≤ 32 }
    ensures { result ≡ link_tx (view s.now) p.index b }
{
    if no_tran(b) { 0 } else { tx_of(s, p) }
}

// A waiting request of party p's for service a, of the transaction t, with the token c; it has no number yet. A connect changes it into a conversation.
pub(crate) fn new_request(p: PartyNumber, a: u32, t: u32, c: u32) -> Link
    ensures { result ≡ new_link 0 0 p.index 1 a t c 0 }
{
    Link {
        originator: u32::from(p),
        attached: 1,
        service: a,
        tx: t,
        first: c,
        ..Link::fresh()
    }
}

// Is there room for a link, and a number left?
pub(crate) fn is_link_left(s: &[u32; WORDS]) -> bool
    ensures { result ≡ link_left (view s.now) }
{
    count(s) < Monitor::LINKS && last_link(s) < Monitor::NUMBERS
}

// The questions after the flags.
#[tactic(auto, using(crate::proofs::Owners::ended_by, crate::proofs::Owners::expired_by), unfolding(rules::specs::Requests::ask_link, rules::specs::Services::may_request, rules::specs::Choice::pick))]
pub(crate) fn ask_link(s: &[u32; WORDS], p: PartyNumber, t: u32, a: u32) -> Result<(), Refusal>
    ensures answer { (rest : Ruled) → ask_link (view s.now) p.index t a rest ≡ asked result (view s.now) rest }
    ensures room { IfOk result (λ _. ((view s.now).count < 32) × ((view s.now).lastlink < 60000)) }
{
    if !in_set(party_at(s, p.index).mayrequest, a) {
        return Err(Refusal::NotPermitted);
    }
    let o = live_owner(s, t);
    if t != 0 && o.is_none() {
        return Err(Refusal::NotAllowedNow);
    }
    if is_late_at(s, o) {
        return Err(Refusal::TimedOut);
    }
    if !is_offered(s, a) {
        return Err(Refusal::NotOffered);
    }
    if !is_link_left(s) {
        return Err(Refusal::NoRoomLeft);
    }
    Ok(())
}

// The new link gets the next number, which is the answer, and its place. That there is room is a fact of the record, so contracts say it (`words::count`).
pub(crate) fn open_link(s: &mut [u32; WORDS], l: Link) -> u32
    requires { ((view s.old).count < 32) × ((view s.old).lastlink < 60000) }
    ensures { (result ≡ (view s.old).lastlink + 1) × (view s.new ≡ added (view s.old) (with_number l ((view s.old).lastlink + 1))) }
{
    let number = last_link(s) + 1;
    add_link(s, Link { number, ..l });
    number
}

// Kind 12.
#[tactic(auto, unfolding(rules::specs::Requests::request_of, rules::specs::Choice::pick))]
pub(crate) fn tpacall(
    s: &mut [u32; WORDS],
    p: PartyNumber,
    a: u32,
    b: u32,
    c: u32,
) -> Result<Told, Refusal>
    requires { (view s.old).count ≤ 32 }
    ensures { ruled_by (told_of result) (view s.new) ≡ request_of (view s.old) p.index a b c }
{
    let bare = b == codes::TPNOREPLY && tx_of(s, p) != 0;
    if !is_service(a) || b > 3 || bare {
        return Err(Refusal::BadArgument);
    }
    let t = link_tx(s, p, b);
    ask_link(s, p, t, a)?;
    let request = Link {
        attached: u32::from(!no_reply(b)),
        ..new_request(p, a, t, c)
    };
    let number = open_link(s, request);
    Ok(accept(if no_reply(b) { 0 } else { number }))
}

// Kind 13. As kind 12: what the two share is shorter than a function of it with its contract.
#[tactic(auto, unfolding(rules::specs::Requests::connect_of, rules::specs::Choice::pick))]
pub(crate) fn tpconnect(
    s: &mut [u32; WORDS],
    p: PartyNumber,
    a: u32,
    b: u32,
    c: u32,
) -> Result<Told, Refusal>
    requires { (view s.old).count ≤ 32 }
    ensures { ruled_by (told_of result) (view s.new) ≡ connect_of (view s.old) p.index a b c }
{
    if !is_service(a) || !connect_flags(b) {
        return Err(Refusal::BadArgument);
    }
    let t = link_tx(s, p, b);
    ask_link(s, p, t, a)?;
    let conversation = Link {
        kind: 1,
        sender: u32::from(recv_only(b)),
        ..new_request(p, a, t, c)
    };
    Ok(accept(open_link(s, conversation)))
}

// May party p take a link?
#[tactic(auto, unfolding(rules::specs::Requests::is_idle, rules::specs::Transaction::tx_of, rules::specs::Transaction::served_tx, rules::specs::Choice::pick))]
pub(crate) fn is_idle(s: &[u32; WORDS], p: PartyNumber) -> bool
    requires { (view s.now).count ≤ 32 }
    ensures { result ≡ is_idle (view s.now) p.index }
{
    let q = party_at(s, p.index);
    q.opened == 1 && q.served == 0 && q.owned == 0 && !has_own_end(s, p)
}

// Is it a waiting link of a service that the party offers?
#[tactic(auto, unfolding(rules::specs::Requests::fits))]
pub(crate) fn is_for(q: Party, l: Link) -> bool
    ensures { result ≡ fits q l }
{
    (l.state == 0) & is_offering(l.service, q)
}

// The place of the waiting link with the lowest number.
pub(crate) fn next_waiting(s: &[u32; WORDS], p: PartyNumber) -> Option<usize>
    requires { (view s.now).count ≤ 32 }
    ensures { result ≡ place_among (view s.now).count (next_waiting (view s.now) p.index) }
{
    let q = party_at(s, p.index);
    first_link(s, |l| is_for(q, l))
}

// The event of a dispatch, as C's answer has it: a number.
#[tactic(auto, unfolding(rules::specs::Requests::dispatch_event, rules::specs::Choice::pick))]
pub(crate) fn dispatch_event(l: Link) -> u32
    ensures { result ≡ dispatch_event l }
{
    if l.kind == 0 {
        codes::REQUEST_DISPATCHED
    } else if l.sender == 0 {
        codes::RECEIVER_DISPATCHED
    } else {
        codes::SENDER_DISPATCHED
    }
}

// The link found becomes working for party p.
#[tactic(auto, unfolding(rules::specs::Requests::dispatched))]
pub(crate) fn dispatch_at(s: &mut [u32; WORDS], p: PartyNumber, found: Found) -> Told
    ensures { ruled_by result (view s.new) ≡ dispatched (view s.old) p.index found.place found.link }
{
    let Found { place, link: l } = found;
    let q = party_at(s, p.index);
    put_party(
        s,
        p.index,
        Party {
            served: l.number,
            ..q
        },
    );
    put_link(
        s,
        place,
        Link {
            state: 1,
            server: u32::from(p),
            ..l
        },
    );
    Told {
        event: dispatch_event(l),
        token: l.first,
        service: l.service,
        ..accept(l.number)
    }
}

// Kind 14.
#[tactic(auto, unfolding(rules::specs::Requests::dispatch_of, rules::specs::Choice::pick))]
pub(crate) fn dispatch(s: &mut [u32; WORDS], p: PartyNumber) -> Result<Told, Refusal>
    requires { (view s.old).count ≤ 32 }
    ensures { ruled_by (told_of result) (view s.new) ≡ dispatch_of (view s.old) p.index }
{
    if !is_idle(s, p) {
        return Err(Refusal::NotAllowedNow);
    }
    let Some(place) = next_waiting(s, p) else {
        return Err(Refusal::NothingWaiting);
    };
    let link = link_at(s, place);
    Ok(dispatch_at(s, p, Found { place, link }))
}
