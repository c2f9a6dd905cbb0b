// Kinds 15 and 16: a request's reply fetched, or given up.
ghost use Rattle.std.specs.Prelude.{◌≡◌, true, ◌≤◌};
ghost use Rattle.rules.specs.Lists.{first_of, any_of};
ghost use Rattle.rules.specs.Record.{is_ending, live};
ghost use Rattle.rules.specs.Replies.{request_end, outcome_code, fetched, fetch_one, expired_end, replied_end, next_reply, fetch_any, fetch_of};
ghost use Rattle.rules.specs.Replies.{cancelled, cancel_of};
ghost use Rattle.rules.specs.Sound.{sound};
ghost use Rattle.monitor.specs.View.{view, Stands, place_among, ruled_by, told_of};

use super::Told;
use super::found::Found;
use super::links::{accept, close_end, find_link, is_own_end, remove_at};
use super::party::PartyNumber;
use super::searches::{first_link, first_link_from};
use super::transaction::is_expired;
use super::words::{WORDS, link_at, put_link};
use rules::{Link, Refusal, codes};

#[tactic(auto, unfolding(rules::specs::Replies::request_end))]
pub(crate) fn is_request_end(p: PartyNumber, l: Link) -> bool
    ensures { result ≡ request_end p.index l }
{
    l.kind == 0 && is_own_end(p, l)
}

// The code of an outcome, as the record has it: TPESVCERR (31) for TPEV_SVCERR (2), TPESVCFAIL (30) for TPEV_SVCFAIL (4), TP_ACCEPTED (0) for
// TPEV_SVCSUCC (8). A rule of the project asks for a sum, without a branch or a table.
#[tactic(auto, unfolding(rules::specs::Replies::outcome_code, rules::specs::Choice::pick))]
pub(crate) fn outcome_code(o: u32) -> i64
    requires { is_ending o ≡ true }
    ensures { result ≡ outcome_code o }
{
    let code = 31 - o / 4 - 29 * (o / 8);
    i64::from(code)
}

// The reply of the link found is taken, and the link goes; the value is v.
#[tactic(auto, unfolding(rules::specs::Replies::fetched))]
pub(crate) fn fetch(s: &mut [u32; WORDS], found: Found, v: u32) -> Told
    requires { ((view s.old).count ≤ 32) × Stands (view s.old) found × (is_ending found.link.outcome ≡ true) }
    ensures { ruled_by result (view s.new) ≡ fetched (view s.old) found.link.number found.link v }
{
    let Found { place, link } = found;
    remove_at(s, place, link.number);
    Told {
        code: outcome_code(link.outcome),
        value: v,
        token: link.ending,
        ..Told::default()
    }
}

// The reply of link a.
#[tactic(auto, using(crate::proofs::Laws::sound_room, crate::proofs::Replied::found_ended), unfolding(rules::specs::Replies::fetch_one, rules::specs::Replies::request_end, rules::specs::Record::own_end, rules::specs::Choice::pick))]
pub(crate) fn fetch_one(s: &mut [u32; WORDS], p: PartyNumber, a: u32) -> Result<Told, Refusal>
    requires { sound (view s.old) ≡ true }
    ensures { ruled_by (told_of result) (view s.new) ≡ fetch_one (view s.old) p.index a }
{
    let found = find_link(s, a)
        .filter(|found| is_request_end(p, found.link))
        .ok_or(Refusal::NoSuchEnd)?;
    let l = found.link;
    if is_expired(s, l.tx) {
        return Err(Refusal::TimedOut);
    }
    if l.state != 2 {
        return Err(Refusal::NoReplyYet);
    }
    Ok(fetch(s, found, 0))
}

// Is it an open request end of party p's, of an expired transaction?
#[tactic(auto, unfolding(rules::specs::Replies::expired_end))]
pub(crate) fn is_expired_end(s: &[u32; WORDS], p: PartyNumber, l: Link) -> bool
    ensures { result ≡ expired_end (view s.now) p.index l }
{
    is_request_end(p, l) && is_expired(s, l.tx)
}

// Is it one with its reply there?
#[tactic(auto, unfolding(rules::specs::Replies::replied_end))]
pub(crate) fn is_replied_end(p: PartyNumber, l: Link) -> bool
    ensures { result ≡ replied_end p.index l }
{
    is_request_end(p, l) && l.state == 2
}

// The place of party p's first open request end. Handed on: what is asked of such ends is asked from there on.
pub(crate) fn first_request_end(s: &[u32; WORDS], p: PartyNumber) -> Option<usize>
    requires { (view s.now).count ≤ 32 }
    ensures { result ≡ place_among (view s.now).count (first_of (request_end p.index) (live (view s.now))) }
{
    first_link(s, |l| is_request_end(p, l))
}

// Has one of them an expired transaction? The first of them stands at the place `from`.
#[tactic(auto, using(crate::proofs::Search::link_there, crate::proofs::Replied::expired_from))]
pub(crate) fn has_expired_end(s: &[u32; WORDS], p: PartyNumber, from: usize) -> bool
    requires { ((view s.now).count ≤ 32) × (from ≡ first_of (request_end p.index) (live (view s.now))) }
    ensures { result ≡ any_of (expired_end (view s.now) p.index) (live (view s.now)) }
{
    first_link_from(s, from, |l| is_expired_end(s, p, l)).is_some()
}

// The place of the returned one with the lowest number. The first of all stands at the place `from`.
pub(crate) fn next_reply(s: &[u32; WORDS], p: PartyNumber, from: usize) -> Option<usize>
    requires { ((view s.now).count ≤ 32) × (from ≡ first_of (request_end p.index) (live (view s.now))) }
    ensures { result ≡ place_among (view s.now).count (next_reply (view s.now) p.index) }
{
    first_link_from(s, from, |l| is_replied_end(p, l))
}

// Whichever reply is there.
#[tactic(auto, using(crate::proofs::Laws::sound_room, crate::proofs::Laws::read_live, crate::proofs::Laws::read_first, crate::proofs::Replied::next_ended, crate::proofs::Search::some_link, crate::proofs::Search::no_link, crate::proofs::Search::found_some, crate::proofs::Search::found_none), unfolding(rules::specs::Replies::fetch_any, rules::specs::Choice::pick))]
pub(crate) fn fetch_any(s: &mut [u32; WORDS], p: PartyNumber) -> Result<Told, Refusal>
    requires { sound (view s.old) ≡ true }
    ensures { ruled_by (told_of result) (view s.new) ≡ fetch_any (view s.old) p.index }
{
    let Some(from) = first_request_end(s, p) else {
        return Err(Refusal::NoSuchEnd);
    };
    if has_expired_end(s, p, from) {
        return Err(Refusal::TimedOut);
    }
    let Some(place) = next_reply(s, p, from) else {
        return Err(Refusal::NoReplyYet);
    };
    let link = link_at(s, place);
    Ok(fetch(s, Found { place, link }, link.number))
}

// Kind 15.
#[tactic(auto, unfolding(rules::specs::Replies::fetch_of, rules::specs::Choice::pick))]
pub(crate) fn tpgetrply(
    s: &mut [u32; WORDS],
    p: PartyNumber,
    a: u32,
    b: u32,
) -> Result<Told, Refusal>
    requires { sound (view s.old) ≡ true }
    ensures { ruled_by (told_of result) (view s.new) ≡ fetch_of (view s.old) p.index a b }
{
    match b {
        0 => fetch_one(s, p, a),
        codes::TPGETANY => fetch_any(s, p),
        _ => Err(Refusal::BadArgument),
    }
}

// The end of the link found closes.
#[tactic(auto, using(crate::proofs::Laws::replaced_of), unfolding(rules::specs::Replies::cancelled, rules::specs::Choice::pick))]
pub(crate) fn cancel(s: &mut [u32; WORDS], found: Found)
    requires { ((view s.old).count ≤ 32) × Stands (view s.old) found }
    ensures { view s.new ≡ cancelled (view s.old) found.link.number found.link }
{
    let Found { place, link } = found;
    if link.state == 2 {
        remove_at(s, place, link.number);
    } else {
        put_link(s, place, close_end(link));
    }
}

// Kind 16.
#[tactic(auto, unfolding(rules::specs::Replies::cancel_of, rules::specs::Replies::request_end, rules::specs::Record::own_end, rules::specs::Choice::pick))]
pub(crate) fn tpcancel(s: &mut [u32; WORDS], p: PartyNumber, a: u32) -> Result<Told, Refusal>
    requires { (view s.old).count ≤ 32 }
    ensures { ruled_by (told_of result) (view s.new) ≡ cancel_of (view s.old) p.index a }
{
    let found = find_link(s, a)
        .filter(|found| is_request_end(p, found.link))
        .ok_or(Refusal::NoSuchEnd)?;
    if found.link.tx != 0 {
        return Err(Refusal::InTransaction);
    }
    cancel(s, found);
    Ok(accept(0))
}
