// Searches: the first that passes a test, among the links there are and among the parties.
ghost use Rattle.std.specs.Prelude.{◌≡◌, ◌<◌, ◌≤◌, ℕ, Bool, IfSome};
ghost use Rattle.rules.specs.declared.Link.{Link};
ghost use Rattle.rules.specs.declared.Party.{Party};
ghost use Rattle.rules.specs.Lists.{first_of};
ghost use Rattle.rules.specs.Record.{live, party};
ghost use Rattle.monitor.specs.View.{view, link_in, first_place, place_among, tests};

use super::words::{WORDS, count, link_at, party_at};
use rules::{Link, Monitor, Party};

// The first of the places from one on and below another that passes the test. By hand: with `find` the proof did not close, since what a test that is a
// parameter was asked at each turn has no name there.
#[inline]
fn first_place<F: Fn(usize) -> bool>(from: usize, to: usize, test: F) -> Option<usize>
    requires { (i : ℕ) → i < to → F.pre test i }
    ensures { first_place (F.post test) from to result }
{
    for i in from..to {
        if test(i) {
            return Some(i);
        }
    }
    None
}

// The place of the first link that passes the test, and no more: most callers ask where it is, or whether there is one.
#[inline]
pub(crate) fn first_link<F: Fn(Link) -> bool>(s: &[u32; WORDS], test: F) -> Option<usize>
    requires room { (view s.now).count ≤ 32 }
    requires callable { F.IsAlwaysCallable test }
    ensures within { IfSome result (λ i. i < (view s.now).count) }
    ensures first { (f : Link → Bool) → tests (F.post test) f → result ≡ place_among (view s.now).count (first_of f (live (view s.now))) }
{
    first_link_from(s, 0, test)
}

// The same from a place on, where it is known that none before it passes.
#[inline]
pub(crate) fn first_link_from<F: Fn(Link) -> bool>(
    s: &[u32; WORDS],
    from: usize,
    test: F,
) -> Option<usize>
    requires room { (view s.now).count ≤ 32 }
    requires callable { F.IsAlwaysCallable test }
    ensures within { IfSome result (λ i. i < (view s.now).count) }
    ensures first { (f : Link → Bool) → tests (F.post test) f → from ≤ first_of f (live (view s.now))
        → result ≡ place_among (view s.now).count (first_of f (live (view s.now))) }
{
    first_place(
        from,
        count(s),
        |i|
            requires { (i < 32) × F.IsAlwaysCallable test }
            ensures { F.post test (link_in (view s.entry.now) i) result }
        { test(link_at(s, i)) },
    )
}

// The lowest party that passes the test. A number: a `PartyNumber` would save one clause (of `is_late_at`), and laws would read its index.
#[inline]
pub(crate) fn first_party<F: Fn(Party) -> bool>(s: &[u32; WORDS], test: F) -> Option<usize>
    requires { F.IsAlwaysCallable test }
    ensures { (f : Party → Bool) → tests (F.post test) f → result ≡ place_among 16 (first_of f (view s.now).parties) }
{
    first_place(
        0,
        Monitor::PARTIES,
        |p|
            requires { (p < 16) × F.IsAlwaysCallable test }
            ensures { F.post test (party (view s.entry.now) p) result }
        { test(party_at(s, p)) },
    )
}
