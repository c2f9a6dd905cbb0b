// The monitor's record, a call and its answer: the data that the rules in specs/ speak of. The crate monitor holds the record as words.
#![tactic(auto)]

mod arguments;
pub mod codes;
mod refusal;

ghost use Rattle.std.specs.Prelude.{◌≡◌};
ghost use Rattle.rules.specs.Record.{fresh_party, fresh_link};

pub use arguments::{is_service, no_reply, no_tran};
pub use refusal::Refusal;

// A party. Yes/no fields and other choices are numbers, so that whatever a host lends is a value that can be refused.
#[derive(Clone, Copy, PartialEq, Eq, Default)]
pub struct Party {
    // 0 not opened, 1 opened
    pub opened: u32,
    // transaction control: 0 unchained, 1 chained
    pub control: u32,
    // seconds, 0 none
    pub timeout: u32,
    // the services 1 to 64 that it offers, service n as bit n - 1
    pub services: u64,
    // the transaction that it owns, 0 none
    pub owned: u32,
    // of the owned transaction, 0 none
    pub deadline: u64,
    // the owned transaction can only be rolled back (document 01: doomed): 0 no, 1 yes
    pub rollbackonly: u32,
    // the number of the link that it serves, 0 none
    pub served: u32,
    // what each resource manager reported of the owned transaction: 0 none, 1 + b, or 8 + b where it can't start a new one;
    // b is 0 prepared, 1 read-only, 2 veto, 3 committed, 4 rolled back, 5 mixed, 6 hazard
    pub reports: [u32; 4],
    // the services that it may request, and that it may advertise, service n as bit n - 1; the only fields that are not 0 when fresh
    pub mayrequest: u64,
    pub mayadvertise: u64,
}

// A request or a conversation between its originator and the party that serves it. Choices are numbers, and 0 stands for none, as in a party: any word that
// a host lends must be one that can be refused.
#[derive(Clone, Copy, PartialEq, Eq, Default)]
pub struct Link {
    pub number: u32,
    // 0 request, 1 conversation
    pub kind: u32,
    pub originator: u32,
    // the originator's end: 0 closed, 1 open
    pub attached: u32,
    pub service: u32,
    // its transaction, 0 none
    pub tx: u32,
    // 0 waiting, 1 working, 2 returned
    pub state: u32,
    pub server: u32,
    // the token that came with the request
    pub first: u32,
    // 8 success, 4 fail, 2 error, 0 before a return
    pub outcome: u32,
    // the token that came with the return
    pub ending: u32,
    // which end may send (document 01: holder): 0 the originator's, 1 the server's
    pub sender: u32,
    // the grant of the sender's role is under way (document 01: handing over): 0 no, 1 yes
    pub granting: u32,
    // 0 no, 1 disconnected, 2 its server was notified (document 01: cut, told)
    pub disconnected: u32,
    // tokens sent and not yet received, the oldest first; places past the last are 0. An array with a count, since a host may lend any count, which must be
    // one that can be refused
    pub unread: [u32; 4],
    // how many are unread
    pub filled: u32,
}

#[derive(Clone, Copy)]
pub struct Monitor {
    pub clock: u32,
    // the last number given to a link, and to a transaction
    pub lastlink: u32,
    pub lasttx: u32,
    pub parties: [Party; 16],
    // the links there are, in rising number; places past the last are fresh (an array with a count, as the unread tokens)
    pub links: [Link; 32],
    // how many links there are
    pub count: usize,
}

// C's layout, here and in the answer, and C's numbers.
#[repr(C)]
#[derive(Clone, Copy)]
pub struct Call {
    pub clock: u32,
    pub party: u32,
    pub kind: u32,
    pub a: u32,
    pub b: u32,
    pub c: u32,
}

#[repr(C)]
#[derive(Clone, Copy, Default)]
pub struct Answer {
    pub code: i64,
    pub value: u32,
    pub event: u32,
    pub token: u32,
    pub service: u32,
    // the caller's transaction afterwards
    pub tx: u32,
}

// What a kind's rule gives: the record after it, and the answer's fields but the last. Of the rules alone, as the next: no code gives the two, and the crate
// monitor has the like over its words.
#[derive(Clone, Copy)]
pub struct Ruled {
    pub monitor: Monitor,
    pub code: i64,
    pub value: u32,
    pub event: u32,
    pub token: u32,
    pub service: u32,
}

// What a call gives.
#[derive(Clone, Copy)]
pub struct Stepped {
    pub monitor: Monitor,
    pub answer: Answer,
}

impl Party {
    // how many services it can offer
    pub const SERVICES: u32 = 8;
    // all services that there are, as a set
    pub const ALL_SERVICES: u64 = u64::MAX;
    // the longest timeout, in seconds
    pub const TIMEOUT: u32 = 2147483647;

    pub fn fresh() -> Party
        ensures { result ≡ fresh_party }
    {
        Party {
            mayrequest: Party::ALL_SERVICES,
            mayadvertise: Party::ALL_SERVICES,
            ..Party::default()
        }
    }
}

impl Link {
    // how many tokens can be unread
    pub const UNREAD: u32 = 4;

    // A name beside `Default`, as a party has one, whose fresh one is not all 0.
    pub fn fresh() -> Link
        ensures { result ≡ fresh_link }
    {
        Link::default()
    }
}

impl From<[u32; 6]> for Call {
    ghost use Rattle.rules.specs.Run.{call_at};

    ghost from_gives = { λ numbers call. call ≡ call_at numbers };

    // In a list and in a drill file: its fields in their order.
    #[tactic(auto, unfolding(crate::specs::Run::call_at))]
    fn from(numbers: [u32; 6]) -> Call {
        let [clock, party, kind, a, b, c] = numbers;
        Call {
            clock,
            party,
            kind,
            a,
            b,
            c,
        }
    }
}

impl Monitor {
    pub const PARTIES: usize = 16;

    pub const LINKS: usize = 32;
    // the last number that a link or a transaction can have
    pub const NUMBERS: u32 = 60000;
}
