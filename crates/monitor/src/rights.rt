// Kind 23: the set of services that a party may request, or that it may advertise, is replaced.
ghost use Rattle.std.specs.Prelude.{◌≡◌};
ghost use Rattle.rules.specs.Rights.{granted, rights_of};
ghost use Rattle.monitor.specs.View.{view, ruled_by, told_of};

use super::Told;
use super::links::accept;
use super::party::PartyNumber;
use super::words::{WORDS, long, party_at, put_party};
use rules::{Party, Refusal};

// The party with the set that a names replaced: a is C's number of both the party and the set, and is taken apart here and below alone.
#[tactic(auto, unfolding(rules::specs::Rights::granted, rules::specs::Choice::pick))]
pub(crate) fn grant(q: Party, a: u32, set: u64) -> Party
    ensures { result ≡ granted q a set }
{
    if a % 2 == 1 {
        Party {
            mayadvertise: set,
            ..q
        }
    } else {
        Party {
            mayrequest: set,
            ..q
        }
    }
}

// Kind 23.
#[tactic(auto, unfolding(rules::specs::Rights::rights_of, rules::specs::Choice::pick))]
pub(crate) fn set_rights(
    s: &mut [u32; WORDS],
    p: PartyNumber,
    a: u32,
    b: u32,
    c: u32,
) -> Result<Told, Refusal>
    ensures { ruled_by (told_of result) (view s.new) ≡ rights_of (view s.old) p.index a b c }
{
    if p.index != 0 {
        return Err(Refusal::NotPermitted);
    }
    let Ok(granted) = PartyNumber::try_from(a / 2) else {
        return Err(Refusal::BadArgument);
    };
    let q = grant(party_at(s, granted.index), a, long(b, c));
    put_party(s, granted.index, q);
    Ok(accept(0))
}
