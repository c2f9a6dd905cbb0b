// Damages of the parties, most of them of party 1, which serves.
use super::records::working;
use super::show::show_damage;
use rules::Link;
use std::io;

// "fields with listed choices hold one of them"
pub fn choices(out: &impl Print) -> io::Result<()> {
    show_damage(out, "opened 2", |m| m.parties[1].opened = 2)?;
    show_damage(out, "control 2", |m| m.parties[1].control = 2)?;
    show_damage(out, "rollbackonly 2", |m| m.parties[1].rollbackonly = 2)?;
    show_damage(
        out,
        "opened 255, of party 15",
        |m| m.parties[15].opened = 255,
    )?;
    reports(out)
}

// "one report or none a manager": 0, or 1 + b, or 8 + b where it can't start
fn reports(out: &impl Print) -> io::Result<()> {
    for (name, reports) in [
        ("report 15 of the first manager", [15, 0, 0, 0]),
        ("report 256 of the second manager", [0, 256, 0, 0]),
        (
            "report 4294967295 of the third manager",
            [0, 0, 4294967295, 0],
        ),
        ("report 15 of the fourth manager", [0, 0, 0, 15]),
    ] {
        show_damage(out, name, |m| m.parties[1].reports = reports)?;
    }
    Ok(())
}

fn show_served(out: &impl Print, name: &str, served: u32) -> io::Result<()> {
    show_damage(out, name, |m| m.parties[1].served = served)
}

// "each served number names a working link with that party as server"
pub fn served(out: &impl Print) -> io::Result<()> {
    show_served(out, "served 3, no link", 3)?;
    show_served(out, "served 4294967295, no link", 4294967295)?;
    show_damage(out, "served 2, a waiting link", |m| {
        m.links[0].server = 1;
        m.parties[1].served = 2;
    })?;
    show_served(out, "served 5, a returned link", 5)?;
    show_damage(
        out,
        "served 4, of server 1, by party 2",
        |m| m.parties[2].served = 4,
    )?;
    show_damage(out, "served 6, past the last link", |m| {
        m.links[3] = Link {
            number: 6,
            ..working()
        };
        m.parties[1].served = 6;
    })
}

// What soundness does not ask of a party; and a working link that its server does not serve.
pub fn sound(out: &impl Print) -> io::Result<()> {
    show_damage(
        out,
        "sound, a party's other fields at their greatest",
        |m| {
            let q = &mut m.parties[1];
            q.control = 1;
            q.timeout = 4294967295;
            q.services = 18446744073709551615;
            q.owned = 4294967295;
            q.deadline = 18446744073709551615;
            q.rollbackonly = 1;
            q.reports = [14; 4];
        },
    )?;
    show_damage(out, "sound, a party that may do nothing", |m| {
        m.parties[1].mayrequest = 0;
        m.parties[1].mayadvertise = 0;
    })?;
    show_served(out, "sound, served 0 beside a working link", 0)
}
