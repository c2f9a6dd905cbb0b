// The record's words: lengths and places, readers and stores. A number of 64 bits stands in two words, the low half first.
ghost use Rattle.std.specs.Prelude.{◌≡◌, ◌+◌, ◌*◌, ◌<◌, ◌≤◌};
ghost use Rattle.rules.specs.Record.{fresh_monitor, party, with_clock, with_last_tx, with_party, with_count, replaced, added};
ghost use Rattle.monitor.specs.Words.{low, high};
ghost use Rattle.monitor.specs.View.{view, link_in};

use rules::{Link, Monitor, Party};

// The head.
const CLOCK: usize = 0;

const LAST_LINK: usize = 1;

const LAST_TX: usize = 2;

const COUNT: usize = 3;

// A party: where the first one stands, how many words one has, and the place of each field but the first among them.
const PARTIES: usize = 4;

const PARTY: usize = 18;

const CONTROL: usize = 1;

const TIMEOUT: usize = 2;

const SERVICES: usize = 3;

const SERVICES_HIGH: usize = 4;

const OWNED: usize = 5;

const DEADLINE: usize = 6;

const DEADLINE_HIGH: usize = 7;

const ROLLBACK_ONLY: usize = 8;

const SERVED: usize = 9;

const REPORT: usize = 10;

const REPORT_SECOND: usize = 11;

const REPORT_THIRD: usize = 12;

const REPORT_FOURTH: usize = 13;

const MAY_REQUEST: usize = 14;

const MAY_REQUEST_HIGH: usize = 15;

const MAY_ADVERTISE: usize = 16;

const MAY_ADVERTISE_HIGH: usize = 17;

// A link.
const LINKS: usize = PARTIES + 16 * PARTY;

const LINK: usize = 19;

const KIND: usize = 1;

const ORIGINATOR: usize = 2;

const ATTACHED: usize = 3;

const SERVICE: usize = 4;

const TX: usize = 5;

const STATE: usize = 6;

const SERVER: usize = 7;

const FIRST: usize = 8;

const OUTCOME: usize = 9;

const ENDING: usize = 10;

const SENDER: usize = 11;

const GRANTING: usize = 12;

const DISCONNECTED: usize = 13;

const UNREAD: usize = 14;

const UNREAD_SECOND: usize = 15;

const UNREAD_THIRD: usize = 16;

const UNREAD_FOURTH: usize = 17;

const FILLED: usize = 18;

// All.
pub const WORDS: usize = LINKS + 32 * LINK;

// The record as a host holds it.
#[repr(C)]
#[derive(Clone, Copy, PartialEq, Eq)]
pub struct Store {
    pub words: [u32; WORDS],
}

impl Store {
    pub fn fresh() -> Store
        ensures { view result.words ≡ fresh_monitor }
    {
        let mut words = [0; WORDS];
        clear(&mut words);
        Store { words }
    }
}

// ---- the head: a function for each word, since one that takes the place would not say which field
pub(crate) fn clock(s: &[u32; WORDS]) -> u32
    ensures { result ≡ (view s.now).clock }
{
    s[CLOCK]
}

pub(crate) fn last_link(s: &[u32; WORDS]) -> u32
    ensures { result ≡ (view s.now).lastlink }
{
    s[LAST_LINK]
}

pub(crate) fn last_tx(s: &[u32; WORDS]) -> u32
    ensures { result ≡ (view s.now).lasttx }
{
    s[LAST_TX]
}

// How many links there are. Contracts ask that there are at most 32, and some that the record is sound. As a fact in a type this would need a struct that
// holds the lent words; it proves, where each function that changes them says that the struct still holds the same ones: a clause in the place of a clause.
// By `as`, here and below: Rust has no `From` between 32 bits and usize.
pub(crate) fn count(s: &[u32; WORDS]) -> usize
    ensures { result ≡ (view s.now).count }
{
    s[COUNT] as usize
}

pub(crate) fn set_clock(s: &mut [u32; WORDS], t: u32)
    ensures { view s.new ≡ with_clock (view s.old) t }
{
    s[CLOCK] = t;
}

pub(crate) fn set_last_tx(s: &mut [u32; WORDS], t: u32)
    ensures { view s.new ≡ with_last_tx (view s.old) t }
{
    s[LAST_TX] = t;
}

pub(crate) fn set_count(s: &mut [u32; WORDS], n: usize)
    requires { n ≤ 32 }
    ensures { view s.new ≡ with_count (view s.old) n }
{
    s[COUNT] = n as u32;
}

// ---- a number of 64 bits and its halves
pub(crate) fn long(low: u32, high: u32) -> u64
    ensures { result ≡ low + high * 4294967296 }
{
    u64::from(low) | u64::from(high) << 32
}

// By `as`: of the half that is left, `try_from` would ask what cannot fail.
fn low(x: u64) -> u32
    ensures { result ≡ low x }
{
    (x & 0xffff_ffff) as u32
}

fn high(x: u64) -> u32
    ensures { result ≡ high x }
{
    (x >> 32) as u32
}

// ---- a party
// The party p, by its place alone: soundness, equality, searches and `clear` go over all sixteen. Field by field, here and below, each at its place, as
// `specs/Words` reads them: a pattern over the words would be as long.
pub(crate) fn party_at(s: &[u32; WORDS], p: usize) -> Party
    requires { p < 16 }
    ensures { result ≡ party (view s.now) p }
{
    let at = PARTIES + p * PARTY;
    Party {
        opened: s[at],
        control: s[at + CONTROL],
        timeout: s[at + TIMEOUT],
        services: long(s[at + SERVICES], s[at + SERVICES_HIGH]),
        owned: s[at + OWNED],
        deadline: long(s[at + DEADLINE], s[at + DEADLINE_HIGH]),
        rollbackonly: s[at + ROLLBACK_ONLY],
        served: s[at + SERVED],
        reports: [
            s[at + REPORT],
            s[at + REPORT_SECOND],
            s[at + REPORT_THIRD],
            s[at + REPORT_FOURTH],
        ],
        mayrequest: long(s[at + MAY_REQUEST], s[at + MAY_REQUEST_HIGH]),
        mayadvertise: long(s[at + MAY_ADVERTISE], s[at + MAY_ADVERTISE_HIGH]),
    }
}

// The party p becomes q.
pub(crate) fn put_party(s: &mut [u32; WORDS], p: usize, q: Party)
    requires { p < 16 }
    ensures { view s.new ≡ with_party (view s.old) p q }
{
    let at = PARTIES + p * PARTY;
    s[at] = q.opened;
    s[at + CONTROL] = q.control;
    s[at + TIMEOUT] = q.timeout;
    s[at + SERVICES] = low(q.services);
    s[at + SERVICES_HIGH] = high(q.services);
    s[at + OWNED] = q.owned;
    s[at + DEADLINE] = low(q.deadline);
    s[at + DEADLINE_HIGH] = high(q.deadline);
    s[at + ROLLBACK_ONLY] = q.rollbackonly;
    s[at + SERVED] = q.served;
    s[at + REPORT] = q.reports[0];
    s[at + REPORT_SECOND] = q.reports[1];
    s[at + REPORT_THIRD] = q.reports[2];
    s[at + REPORT_FOURTH] = q.reports[3];
    s[at + MAY_REQUEST] = low(q.mayrequest);
    s[at + MAY_REQUEST_HIGH] = high(q.mayrequest);
    s[at + MAY_ADVERTISE] = low(q.mayadvertise);
    s[at + MAY_ADVERTISE_HIGH] = high(q.mayadvertise);
}

// The record becomes fresh: all is 0 but what the parties may do.
pub(crate) fn clear(s: &mut [u32; WORDS])
    ensures { view s.new ≡ fresh_monitor }
{
    *s = [0; WORDS];
    for p in 0..Monitor::PARTIES {
        put_party(s, p, Party::fresh());
    }
}

// ---- a link
// The link at the place i of the room.
pub(crate) fn link_at(s: &[u32; WORDS], i: usize) -> Link
    requires { i < 32 }
    ensures { result ≡ link_in (view s.now) i }
{
    let at = LINKS + i * LINK;
    Link {
        number: s[at],
        kind: s[at + KIND],
        originator: s[at + ORIGINATOR],
        attached: s[at + ATTACHED],
        service: s[at + SERVICE],
        tx: s[at + TX],
        state: s[at + STATE],
        server: s[at + SERVER],
        first: s[at + FIRST],
        outcome: s[at + OUTCOME],
        ending: s[at + ENDING],
        sender: s[at + SENDER],
        granting: s[at + GRANTING],
        disconnected: s[at + DISCONNECTED],
        unread: [
            s[at + UNREAD],
            s[at + UNREAD_SECOND],
            s[at + UNREAD_THIRD],
            s[at + UNREAD_FOURTH],
        ],
        filled: s[at + FILLED],
    }
}

// The link at the place i becomes l.
pub(crate) fn put_link(s: &mut [u32; WORDS], i: usize, l: Link)
    requires { i < 32 }
    ensures { view s.new ≡ replaced (view s.old) i l }
{
    let at = LINKS + i * LINK;
    s[at] = l.number;
    s[at + KIND] = l.kind;
    s[at + ORIGINATOR] = l.originator;
    s[at + ATTACHED] = l.attached;
    s[at + SERVICE] = l.service;
    s[at + TX] = l.tx;
    s[at + STATE] = l.state;
    s[at + SERVER] = l.server;
    s[at + FIRST] = l.first;
    s[at + OUTCOME] = l.outcome;
    s[at + ENDING] = l.ending;
    s[at + SENDER] = l.sender;
    s[at + GRANTING] = l.granting;
    s[at + DISCONNECTED] = l.disconnected;
    s[at + UNREAD] = l.unread[0];
    s[at + UNREAD_SECOND] = l.unread[1];
    s[at + UNREAD_THIRD] = l.unread[2];
    s[at + UNREAD_FOURTH] = l.unread[3];
    s[at + FILLED] = l.filled;
}

// A new link, which has the next number.
pub(crate) fn add_link(s: &mut [u32; WORDS], l: Link)
    requires { ((view s.old).count < 32) × ((view s.old).lastlink < 60000) }
    ensures { view s.new ≡ added (view s.old) l }
{
    let i = count(s);
    let d = last_link(s);
    put_link(s, i, l);
    s[LAST_LINK] = d + 1;
    s[COUNT] = i as u32 + 1;
}
