// When a record is sound: one pass over the links, and one over the parties.
ghost use Rattle.std.specs.Prelude.{◌≡◌, true, false, ◌≤◌, MatchOption};
ghost use Rattle.rules.specs.Record.{live};
ghost use Rattle.rules.specs.Sound.{link_good, links_good, reports_good, choices_good, parties_good, sound};
ghost use Rattle.monitor.specs.Served.{FoundAll};
ghost use Rattle.monitor.specs.View.{view};

use super::words::{Store, WORDS, count, last_link, last_tx, link_at, party_at};
use rules::{Link, Monitor, Party, codes};

// The tests of soundness are `&` and `|`: with `&&`, `||` and `all` it took 1.4 times as long, and missed its bar. The numbers are the greatest that a field holds, as
// `rules::Link` says them: 1 for yes or no, 2 for three choices, 15 for the last party. No plainer: a word that a host lends is any number.
#[tactic(auto, using(rules::proofs::Logic::and_assoc))]
pub(crate) fn link_good(l: Link) -> bool
    ensures { result ≡ link_good l }
{
    (l.kind <= 1)
        & (l.originator <= 15)
        & (l.attached <= 1)
        & (l.state <= 2)
        & (l.server <= 15)
        & ((l.outcome == 0)
            | (l.outcome == codes::TPEV_SVCERR)
            | (l.outcome == codes::TPEV_SVCFAIL)
            | (l.outcome == codes::TPEV_SVCSUCC))
        & (l.sender <= 1)
        & (l.granting <= 1)
        & (l.disconnected <= 2)
        & (l.filled <= Link::UNREAD)
        & !((l.state == 2) & (l.outcome == 0))
}

// None is above 14, the last report: 8 and a kind of report up to 6.
#[tactic(auto, using(rules::proofs::Logic::and_assoc, crate::proofs::Reports::reports_test))]
pub(crate) fn reports_good(r: [u32; 4]) -> bool
    ensures { result ≡ reports_good r }
{
    (r[0] <= 14) & (r[1] <= 14) & (r[2] <= 14) & (r[3] <= 14)
}

#[tactic(auto, using(rules::proofs::Logic::and_assoc))]
pub(crate) fn choices_good(q: Party) -> bool
    ensures { result ≡ choices_good q }
{
    (q.opened <= 1) & (q.control <= 1) & (q.rollbackonly <= 1) & reports_good(q.reports)
}

// For each party, if the links are good, the number that it serves where such a link works for it, and else 0, as the record has it. It requires that
// the count fits, which `is_sound_in` tests before, since the links stand in fixed memory.
#[tactic(auto, using(crate::proofs::Served::finds_bad, crate::proofs::Served::finds_small))]
pub(crate) fn links_found(s: &[u32; WORDS]) -> Option<[u32; 16]>
    requires { (view s.now).count ≤ 32 }
    ensures { MatchOption result (links_good (view s.now).lastlink 0 (live (view s.now)) ≡ false)
        (λ found. (links_good (view s.now).lastlink 0 (live (view s.now)) ≡ true) × FoundAll (view s.now) found) }
{
    let mut found = [0u32; 16];
    // The number before: the links are read from the words one by one, so that there is no list to take pairs of.
    let mut prev = 0;
    for i in 0..count(s) {
        let l = link_at(s, i);
        let ok = (prev < l.number) & link_good(l);
        if !ok {
            return None;
        }
        // by `as`: Rust has no `From` from 32 bits to usize, and `try_from` cannot fail
        let p = l.server as usize;
        let works = (l.state == 1) & (l.number == party_at(s, p).served);
        if works {
            found[p] = l.number;
        }
        prev = l.number;
    }
    if prev > last_link(s) {
        return None;
    }
    Some(found)
}

// Does each party serve what was found for it? It requires what `links_found` tells: else what was found says nothing of the parties.
#[tactic(auto, using(crate::proofs::Served::tests_bad, crate::proofs::Served::tests_good, crate::proofs::Served::tests_over))]
pub(crate) fn parties_found(s: &[u32; WORDS], found: &[u32; 16]) -> bool
    requires { (links_good (view s.now).lastlink 0 (live (view s.now)) ≡ true) × FoundAll (view s.now) found.now }
    ensures { result ≡ parties_good (view s.now) 0 (view s.now).parties }
{
    for p in 0..Monitor::PARTIES {
        let q = party_at(s, p);
        let ok = choices_good(q) & (q.served == found[p]);
        if !ok {
            return false;
        }
    }
    true
}

// In this order: with one chain of `&&` at the end, a list of calls on 32 links took 1.13 of the independent implementation's time, and missed its bar of 1.1.
#[tactic(auto, unfolding(rules::specs::Sound::sound, rules::specs::Choice::pick))]
pub(crate) fn is_sound_in(s: &[u32; WORDS]) -> bool
    ensures { result ≡ sound (view s.now) }
{
    let len = count(s);
    if len > Monitor::LINKS {
        return false;
    }
    let Some(found) = links_found(s) else {
        return false;
    };
    let parties = parties_found(s, &found);
    let last = last_link(s);
    let tx = last_tx(s);
    (last <= Monitor::NUMBERS) & ((tx <= Monitor::NUMBERS) & parties)
}

// Is the record sound?
pub fn is_sound(m: Store) -> bool
    ensures { result ≡ sound (view m.words) }
{
    is_sound_in(&m.words)
}
