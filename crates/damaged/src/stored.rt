// A record as the words that a host lends: 4 of the head, 18 of each party, 19 of each link, a number of 64 bits as two, the low half first.
// Neither a party nor an array of words is this crate's, so functions make these words, and no `From`. They are made apart from the crate monitor, so that a
// wrong place there shows.
use monitor::Store;
use rules::{Link, Monitor, Party};

// The low half of a number. `monitor` has the like of this and of `high`, private there: its public ones would need contracts and callers outside. By `as`:
// of the half that is left, `try_from` would ask what cannot fail.
fn low(x: u64) -> u32 {
    (x & 0xffff_ffff) as u32
}

fn high(x: u64) -> u32 {
    (x >> 32) as u32
}

fn party_words(q: Party) -> [u32; 18] {
    let [first, second, third, fourth] = q.reports;
    [
        q.opened,
        q.control,
        q.timeout,
        low(q.services),
        high(q.services),
        q.owned,
        low(q.deadline),
        high(q.deadline),
        q.rollbackonly,
        q.served,
        first,
        second,
        third,
        fourth,
        low(q.mayrequest),
        high(q.mayrequest),
        low(q.mayadvertise),
        high(q.mayadvertise),
    ]
}

fn link_words(l: Link) -> [u32; 19] {
    let [first, second, third, fourth] = l.unread;
    [
        l.number,
        l.kind,
        l.originator,
        l.attached,
        l.service,
        l.tx,
        l.state,
        l.server,
        l.first,
        l.outcome,
        l.ending,
        l.sender,
        l.granting,
        l.disconnected,
        first,
        second,
        third,
        fourth,
        l.filled,
    ]
}

pub fn stored(m: Monitor) -> Store {
    let mut s = Store::fresh();
    s.words[0] = m.clock;
    s.words[1] = m.lastlink;
    s.words[2] = m.lasttx;
    // by `as`: Rust has no `From` between usize and 64 bits
    s.words[3] = low(m.count as u64);
    let (parties, _) = s.words[4..292].as_chunks_mut::<18>();
    for (places, q) in parties.iter_mut().zip(&m.parties) {
        *places = party_words(*q);
    }
    let (links, _) = s.words[292..].as_chunks_mut::<19>();
    for (places, l) in links.iter_mut().zip(&m.links) {
        *places = link_words(*l);
    }
    s
}
