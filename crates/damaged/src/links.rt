// Damages of the links. The third link, which has returned and no party serves, is the one that most change.
use super::records::{full, working};
use super::show::{show, show_damage};
use rules::Link;
use std::io;

// "links number at most 32"
pub fn counts(out: &impl Print) -> io::Result<()> {
    let mut m = full();
    m.lastlink = 60000;
    m.count = 33;
    show(out, "33 links", m)?;
    m.count = 4294967295;
    show(out, "4294967295 links", m)
}

// "their numbers rise strictly from 1 to at most the last number, both last numbers are at most 60,000"
pub fn numbers(out: &impl Print) -> io::Result<()> {
    show_damage(out, "link numbers 2, 4, 4", |m| m.links[2].number = 4)?;
    show_damage(out, "link numbers 2, 4, 3", |m| m.links[2].number = 3)?;
    show_damage(out, "link numbers 2, 4, 0", |m| m.links[2].number = 0)?;
    show_damage(
        out,
        "link number 8 past the last, 7",
        |m| m.links[2].number = 8,
    )?;
    show_damage(out, "link numbers 0, 4, 5", |m| m.links[0].number = 0)?;
    let mut m = full();
    m.links[31].number = 31;
    show(out, "link number 31 in the 32nd place", m)?;
    last_numbers(out)
}

fn last_numbers(out: &impl Print) -> io::Result<()> {
    show_damage(out, "last link number 0", |m| m.lastlink = 0)?;
    show_damage(out, "last link number 60001", |m| m.lastlink = 60001)?;
    show_damage(out, "last transaction number 60001", |m| m.lasttx = 60001)
}

// "originators and servers are 0 to 15, unread is at most 4"
pub fn ranges(out: &impl Print) -> io::Result<()> {
    show_damage(out, "originator 16", |m| m.links[2].originator = 16)?;
    show_damage(out, "originator 255", |m| m.links[2].originator = 255)?;
    show_damage(out, "server 16", |m| m.links[2].server = 16)?;
    show_damage(out, "unread 5", |m| m.links[2].filled = 5)
}

// "fields with listed choices hold one of them, a returned link's outcome is not 0"
pub fn choices(out: &impl Print) -> io::Result<()> {
    show_damage(out, "kind 2", |m| m.links[2].kind = 2)?;
    show_damage(out, "attached 2", |m| m.links[2].attached = 2)?;
    show_damage(out, "state 3", |m| m.links[2].state = 3)?;
    show_damage(out, "sender 2", |m| m.links[2].sender = 2)?;
    show_damage(out, "granting 2", |m| m.links[2].granting = 2)?;
    show_damage(out, "disconnected 3", |m| m.links[2].disconnected = 3)?;
    outcomes(out)
}

// A link's state and outcome.
fn show_outcome(out: &impl Print, name: &str, state: u32, outcome: u32) -> io::Result<()> {
    show_damage(out, name, |m| {
        m.links[2].state = state;
        m.links[2].outcome = outcome;
    })
}

fn outcomes(out: &impl Print) -> io::Result<()> {
    for (name, state, outcome) in [
        ("outcome 1", 2, 1),
        ("outcome 3", 2, 3),
        ("outcome 6", 2, 6),
        ("outcome 16", 2, 16),
        ("outcome 5 of a waiting link", 0, 5),
        ("outcome 0 of a returned link", 2, 0),
    ] {
        show_outcome(out, name, state, outcome)?;
    }
    Ok(())
}

// Each field at its last choice; what soundness does not ask of a link; and a place past the last link.
pub fn sound(out: &impl Print) -> io::Result<()> {
    show_damage(out, "sound, each field at its border", |m| {
        m.links[2] = Link {
            number: 7,
            originator: 15,
            server: 15,
            sender: 1,
            granting: 1,
            disconnected: 2,
            filled: 4,
            ..working()
        }
    })?;
    show_outcome(out, "sound, outcome 2", 2, 2)?;
    show_outcome(out, "sound, outcome 4", 2, 4)?;
    show_outcome(out, "sound, outcome 8 of a working link", 1, 8)?;
    show_damage(out, "sound, service 255 and transaction 4294967295", |m| {
        m.links[2].service = 255;
        m.links[2].tx = 4294967295;
    })?;
    show_damage(out, "sound, kind 2 past the last link", |m| {
        m.links[3] = Link {
            kind: 2,
            ..m.links[2]
        }
    })
}
