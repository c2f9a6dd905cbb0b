// The sound record that each damage starts from, and others that are sound.
use super::show::show;
use rules::{Link, Monitor, Party};
use std::io;

// A request that waits, of party 0's transaction.
fn waiting() -> Link {
    Link {
        number: 2,
        attached: 1,
        service: 3,
        tx: 3,
        first: 9,
        ..Link::fresh()
    }
}

// A conversation that party 1 serves, with a token unread.
pub fn working() -> Link {
    Link {
        number: 4,
        kind: 1,
        state: 1,
        server: 1,
        unread: [11, 0, 0, 0],
        filled: 1,
        ..waiting()
    }
}

// A request of party 2's that party 1 served.
fn returned() -> Link {
    Link {
        number: 5,
        originator: 2,
        attached: 1,
        service: 3,
        state: 2,
        server: 1,
        outcome: 8,
        ending: 12,
        ..Link::fresh()
    }
}

// Party 0 owns transaction 3.
fn owner() -> Party {
    Party {
        opened: 1,
        control: 1,
        timeout: 30,
        owned: 3,
        deadline: 35,
        ..Party::fresh()
    }
}

// Party 1 serves link 4.
fn server() -> Party {
    Party {
        opened: 1,
        services: 4,
        served: 4,
        ..Party::fresh()
    }
}

// Nothing yet. Each 0 is written: no `Default` gives this record, since a fresh party has rights.
fn fresh() -> Monitor {
    Monitor {
        clock: 0,
        lastlink: 0,
        lasttx: 0,
        parties: [Party::fresh(); 16],
        links: [Link::fresh(); 32],
        count: 0,
    }
}

// Three links, numbered 2, 4 and 5, of seven that there were.
pub fn base() -> Monitor {
    let mut m = fresh();
    m.clock = 5;
    m.lastlink = 7;
    m.lasttx = 3;
    m.parties[0] = owner();
    m.parties[1] = server();
    m.links[0] = waiting();
    m.links[1] = working();
    m.links[2] = returned();
    m.count = 3;
    m
}

// Party 2 has requested in transaction 3, which party 0 owns, without serving in it.
pub fn stray_request() -> Monitor {
    let mut m = base();
    m.parties[1].served = 0;
    m.links[0].originator = 2;
    m.count = 1;
    m
}

// Party 1 serves a request of transaction 3 whose reply nobody waits for.
pub fn stray_service() -> Monitor {
    let mut m = base();
    m.links[0] = Link {
        kind: 0,
        filled: 0,
        attached: 0,
        ..working()
    };
    m.count = 1;
    m
}

// The request that party 1 served for party 2 is of transaction 2, which has ended.
pub fn stray_reply() -> Monitor {
    let mut m = base();
    m.links[2].tx = 2;
    m
}

// Party 1 serves a conversation that is disconnected, with four tokens of its own unread.
pub fn stray_unread() -> Monitor {
    let mut m = base();
    m.links[1] = Link {
        attached: 0,
        disconnected: 1,
        sender: 1,
        filled: 4,
        ..working()
    };
    m
}

// 32 waiting links, numbered 1 to 32.
pub fn full() -> Monitor {
    let mut m = base();
    m.parties[1].served = 0;
    for (link, number) in m.links.iter_mut().zip(1..=32) {
        *link = Link {
            number,
            ..waiting()
        };
    }
    m.lastlink = 32;
    m.count = 32;
    m
}

pub fn sound(out: &impl Print) -> io::Result<()> {
    show(out, "sound, three links", base())?;
    show(out, "sound, fresh", fresh())?;
    let mut m = full();
    show(out, "sound, 32 links", m)?;
    m.lastlink = 60000;
    m.lasttx = 60000;
    m.links[31].number = 60000;
    show(out, "sound, last numbers 60000", m)
}
