// Kinds 17 to 19: send, receive and disconnect on a conversation.
ghost use Rattle.std.specs.Prelude.{◌≡◌, ◌<◌, ◌≤◌};
ghost use Rattle.rules.specs.Record.{changed, notified, with_sent, without_oldest};
ghost use Rattle.rules.specs.Conversations.{originator_end, server_end, any_end, hears_disconnect, hears_return, end_side, is_sender, tells_disconnect};
ghost use Rattle.rules.specs.Conversations.{tells_return, send_of, carries_grant, received, receive_of, disconnected_at, disconnect_of};
ghost use Rattle.monitor.specs.View.{view, Stands, ruled_by, told_of};

use super::Told;
use super::found::Found;
use super::links::{accept, coded, disconnect_link, find_link, is_own_end, remove_at};
use super::party::PartyNumber;
use super::transaction::{is_expired, set_rollback_only};
use super::words::{WORDS, put_link};
use rules::{Link, Refusal, codes};

// Is it an open conversation end of party p's, as its originator?
#[tactic(auto, unfolding(rules::specs::Conversations::originator_end))]
pub(crate) fn is_originator_end(p: PartyNumber, l: Link) -> bool
    ensures { result ≡ originator_end p.index l }
{
    l.kind == 1 && is_own_end(p, l)
}

// Is it p's as its server?
#[tactic(auto, unfolding(rules::specs::Conversations::server_end, rules::specs::Choice::same))]
pub(crate) fn is_server_end(p: PartyNumber, l: Link) -> bool
    ensures { result ≡ server_end p.index l }
{
    l.kind == 1 && l.state == 1 && l.server == u32::from(p) && l.disconnected != 2
}

#[tactic(auto, unfolding(rules::specs::Conversations::any_end))]
pub(crate) fn is_any_end(p: PartyNumber, l: Link) -> bool
    ensures { result ≡ any_end p.index l }
{
    is_originator_end(p, l) || is_server_end(p, l)
}

#[tactic(auto, unfolding(rules::specs::Conversations::hears_disconnect))]
pub(crate) fn hears_disconnect(p: PartyNumber, l: Link) -> bool
    ensures { result ≡ hears_disconnect p.index l }
{
    !is_originator_end(p, l) && l.disconnected == 1
}

#[tactic(auto, unfolding(rules::specs::Conversations::hears_return))]
pub(crate) fn hears_return(p: PartyNumber, l: Link) -> bool
    ensures { result ≡ hears_return p.index l }
{
    is_originator_end(p, l) && l.state == 2 && l.filled == 0
}

// Party p's end: 0 the originator's, 1 the server's; a number, since the record's `sender` is compared with it, and becomes it.
#[tactic(auto, unfolding(rules::specs::Conversations::end_side, rules::specs::Choice::pick))]
pub(crate) fn end_side(p: PartyNumber, l: Link) -> u32
    ensures { result ≡ end_side p.index l }
{
    if is_originator_end(p, l) { 0 } else { 1 }
}

#[tactic(auto, unfolding(rules::specs::Conversations::is_sender, rules::specs::Choice::same))]
pub(crate) fn is_sender(p: PartyNumber, l: Link) -> bool
    ensures { result ≡ is_sender p.index l }
{
    l.sender == end_side(p, l)
}

pub(crate) fn notify(l: Link) -> Link
    ensures { result ≡ notified l }
{
    Link {
        disconnected: 2,
        ..l
    }
}

// The server of the link found is notified that it was disconnected.
#[tactic(auto, using(crate::proofs::Laws::replaced_of), unfolding(rules::specs::Conversations::tells_disconnect))]
pub(crate) fn tell_disconnect(s: &mut [u32; WORDS], found: Found) -> Told
    requires { ((view s.old).count ≤ 32) × Stands (view s.old) found }
    ensures { ruled_by result (view s.new) ≡ tells_disconnect (view s.old) found.link.number found.link }
{
    put_link(s, found.place, notify(found.link));
    Told {
        event: codes::TPEV_DISCONIMM,
        ..coded(codes::TPEEVENT)
    }
}

// The originator learns how the service returned, and its link, which was found, goes.
#[tactic(auto, unfolding(rules::specs::Conversations::tells_return))]
pub(crate) fn tell_return(s: &mut [u32; WORDS], found: Found) -> Told
    requires { ((view s.old).count ≤ 32) × Stands (view s.old) found }
    ensures { ruled_by result (view s.new) ≡ tells_return (view s.old) found.link.number found.link }
{
    let Found { place, link } = found;
    remove_at(s, place, link.number);
    Told {
        event: link.outcome,
        token: link.ending,
        ..coded(codes::TPEEVENT)
    }
}

// The link with a token more, and with b = 1 the grant under way, as the record has it.
pub(crate) fn with_sent(l: Link, b: u32, c: u32) -> Link
    requires { (b ≤ 1) × (l.filled < 4) }
    ensures { result ≡ with_sent l b c }
{
    let mut unread = l.unread;
    // by `as`: Rust has no `From` from 32 bits to usize, and `try_from` cannot fail
    unread[l.filled as usize] = c;
    Link {
        granting: b,
        unread,
        filled: l.filled + 1,
        ..l
    }
}

// The token goes out on the link found.
#[tactic(auto, using(crate::proofs::Laws::replaced_of))]
pub(crate) fn send(s: &mut [u32; WORDS], found: Found, b: u32, c: u32)
    requires { ((view s.old).count ≤ 32) × Stands (view s.old) found × (b ≤ 1) × (found.link.filled < 4) }
    ensures { view s.new ≡ changed (view s.old) found.link.number (with_sent found.link b c) }
{
    put_link(s, found.place, with_sent(found.link, b, c));
}

// Kind 17.
#[tactic(auto, unfolding(rules::specs::Conversations::send_of, rules::specs::Conversations::send_on, rules::specs::Conversations::any_end, rules::specs::Conversations::originator_end, rules::specs::Conversations::server_end, rules::specs::Record::own_end, rules::specs::Choice::pick))]
pub(crate) fn tpsend(
    s: &mut [u32; WORDS],
    p: PartyNumber,
    a: u32,
    b: u32,
    c: u32,
) -> Result<Told, Refusal>
    requires { (view s.old).count ≤ 32 }
    ensures { ruled_by (told_of result) (view s.new) ≡ send_of (view s.old) p.index a b c }
{
    let found = find_link(s, a)
        .filter(|found| is_any_end(p, found.link))
        .ok_or(Refusal::NoSuchEnd)?;
    let l = found.link;
    if b > 1 {
        return Err(Refusal::BadArgument);
    }
    if is_expired(s, l.tx) {
        return Err(Refusal::TimedOut);
    }
    if hears_disconnect(p, l) {
        return Ok(tell_disconnect(s, found));
    }
    if hears_return(p, l) && l.outcome != codes::TPEV_SVCSUCC {
        return Ok(tell_return(s, found));
    }
    if !(is_sender(p, l) && l.granting == 0) {
        return Err(Refusal::NotAllowedNow);
    }
    if l.filled >= Link::UNREAD {
        return Err(Refusal::UnreadFull);
    }
    send(s, found, b, c);
    Ok(accept(0))
}

// Does the oldest token carry the grant?
#[tactic(auto, unfolding(rules::specs::Conversations::carries_grant))]
pub(crate) fn carries_grant(l: Link) -> bool
    ensures { result ≡ carries_grant l }
{
    l.filled == 1 && l.granting == 1
}

// The link with its oldest token gone.
pub(crate) fn without_oldest(l: Link, sender: u32, granting: u32) -> Link
    requires { 0 < l.filled }
    ensures { result ≡ without_oldest l sender granting }
{
    let [_, second, third, fourth] = l.unread;
    Link {
        sender,
        granting,
        unread: [second, third, fourth, 0],
        filled: l.filled - 1,
        ..l
    }
}

// The oldest token of the link found comes.
#[tactic(auto, using(crate::proofs::Laws::replaced_of), unfolding(rules::specs::Conversations::received, rules::specs::Choice::pick))]
pub(crate) fn receive(s: &mut [u32; WORDS], p: PartyNumber, found: Found) -> Told
    requires { ((view s.old).count ≤ 32) × Stands (view s.old) found × (0 < found.link.filled) }
    ensures { ruled_by result (view s.new) ≡ received (view s.old) p.index found.link.number found.link }
{
    let Found { place, link: l } = found;
    let [token, ..] = l.unread;
    if carries_grant(l) {
        put_link(s, place, without_oldest(l, end_side(p, l), 0));
        return Told {
            event: codes::TPEV_SENDONLY,
            token,
            ..coded(codes::TPEEVENT)
        };
    }
    put_link(s, place, without_oldest(l, l.sender, l.granting));
    Told { token, ..accept(0) }
}

// Kind 18. It begins as kind 17, which asks b in between and not of every return: one function of it would take both as closures.
#[tactic(auto, unfolding(rules::specs::Conversations::receive_of, rules::specs::Conversations::receive_on, rules::specs::Conversations::any_end, rules::specs::Conversations::originator_end, rules::specs::Conversations::server_end, rules::specs::Record::own_end, rules::specs::Choice::pick))]
pub(crate) fn tprecv(s: &mut [u32; WORDS], p: PartyNumber, a: u32) -> Result<Told, Refusal>
    requires { (view s.old).count ≤ 32 }
    ensures { ruled_by (told_of result) (view s.new) ≡ receive_of (view s.old) p.index a }
{
    let found = find_link(s, a)
        .filter(|found| is_any_end(p, found.link))
        .ok_or(Refusal::NoSuchEnd)?;
    let l = found.link;
    if is_expired(s, l.tx) {
        return Err(Refusal::TimedOut);
    }
    if hears_disconnect(p, l) {
        return Ok(tell_disconnect(s, found));
    }
    if hears_return(p, l) {
        return Ok(tell_return(s, found));
    }
    if is_sender(p, l) {
        return Err(Refusal::NotAllowedNow);
    }
    if l.filled == 0 {
        return Err(Refusal::NothingUnread);
    }
    Ok(receive(s, p, found))
}

// The conversation found is disconnected if working, and else goes.
#[tactic(auto, using(crate::proofs::Laws::replaced_of), unfolding(rules::specs::Conversations::disconnected_at, rules::specs::Choice::pick))]
pub(crate) fn disconnect(s: &mut [u32; WORDS], found: Found)
    requires { ((view s.old).count ≤ 32) × Stands (view s.old) found }
    ensures { view s.new ≡ disconnected_at (view s.old) found.link.number found.link }
{
    let Found { place, link } = found;
    if link.state == 1 {
        put_link(s, place, disconnect_link(link));
        return;
    }
    remove_at(s, place, link.number);
}

// Kind 19.
#[tactic(auto, unfolding(rules::specs::Conversations::disconnect_of, rules::specs::Conversations::originator_end, rules::specs::Record::own_end, rules::specs::Choice::pick))]
pub(crate) fn tpdiscon(s: &mut [u32; WORDS], p: PartyNumber, a: u32) -> Result<Told, Refusal>
    requires { (view s.old).count ≤ 32 }
    ensures { ruled_by (told_of result) (view s.new) ≡ disconnect_of (view s.old) p.index a }
{
    let found = find_link(s, a)
        .filter(|found| is_originator_end(p, found.link))
        .ok_or(Refusal::NoSuchEnd)?;
    set_rollback_only(s, found.link.tx);
    disconnect(s, found);
    Ok(accept(0))
}
