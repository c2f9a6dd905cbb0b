// A record beside its copies that differ from it in one word: is the copy sound, and are the two equal?
ghost use Rattle.std.specs.Prelude.{◌<◌};

use super::show::yes;
use monitor::{Store, WORDS};
use std::io;

const HEAD: [&str; 4] = ["clock", "lastlink", "lasttx", "count"];

const PARTY: [&str; 18] = [
    "opened",
    "control",
    "timeout",
    "services low",
    "services high",
    "owned",
    "deadline low",
    "deadline high",
    "rollbackonly",
    "served",
    "report first",
    "report second",
    "report third",
    "report fourth",
    "mayrequest low",
    "mayrequest high",
    "mayadvertise low",
    "mayadvertise high",
];

const LINK: [&str; 19] = [
    "number",
    "kind",
    "originator",
    "attached",
    "service",
    "tx",
    "state",
    "server",
    "first",
    "outcome",
    "ending",
    "sender",
    "granting",
    "disconnected",
    "unread first",
    "unread second",
    "unread third",
    "unread fourth",
    "filled",
];

// Where the words of the parties begin, and those of the links.
const PARTIES: usize = HEAD.len();

const LINKS: usize = PARTIES + 16 * PARTY.len();

fn show_name(rt: &impl Print, at: usize) -> io::Result<()> {
    match at {
        0..PARTIES => print!(rt; "{}", HEAD[at]),
        PARTIES..LINKS => {
            let place = at - PARTIES;
            let field = PARTY[place % PARTY.len()];
            print!(rt; "party {} {field}", place / PARTY.len())
        }
        _ => {
            let place = at - LINKS;
            let field = LINK[place % LINK.len()];
            print!(rt; "link at {} {field}", place / LINK.len())
        }
    }
}

// Is this the place of a word that tells what a party may do, the last four of each?
pub fn tells_rights(at: usize) -> bool {
    (PARTIES..LINKS).contains(&at) && (at - PARTIES) % PARTY.len() >= PARTY.len() - 4
}

// By value and lent, both ways round, and the copy beside itself: all must tell the same.
fn show_copy(rt: &impl Print, base: Store, m: Store) -> io::Result<()> {
    let sound = monitor::is_sound(m);
    let sound_lent = monitor::monitor_sound(&m.words);
    let itself = monitor::equal(m, m);
    let equal = monitor::equal(base, m);
    let back = monitor::equal(m, base);
    let equal_lent = monitor::monitor_equal(&base.words, &m.words);
    let back_lent = monitor::monitor_equal(&m.words, &base.words);
    print!(rt; " sound {} equal {}", yes(sound), yes(equal))?;
    if [sound_lent, itself] != [sound; 2] || [back, equal_lent, back_lent] != [equal; 3] {
        print!(rt; ", calls differ")?;
    }
    Ok(())
}

fn show_change(rt: &impl Print, base: Store, at: usize, value: u32) -> io::Result<()>
    requires { at < WORDS }
{
    let mut m = base;
    m.words[at] = value;
    print!(rt; " {value}")?;
    show_copy(rt, base, m)
}

fn show_word(rt: &impl Print, base: Store, at: usize) -> io::Result<()>
    requires { at < WORDS }
{
    let word = base.words[at];
    show_name(rt, at)?;
    print!(rt; " {word}:")?;
    show_change(rt, base, at, word ^ 1)?;
    print!(rt; ",")?;
    show_change(rt, base, at, word ^ 2)?;
    print!(rt; ",")?;
    show_change(rt, base, at, u32::MAX)?;
    println!(rt)
}

// Each word by itself: of the head, of each party, of each link, and of the room past the last link.
pub fn changed(rt: &impl Print, base: Store) -> io::Result<()> {
    for at in 0..WORDS {
        show_word(rt, base, at)?;
    }
    Ok(())
}
