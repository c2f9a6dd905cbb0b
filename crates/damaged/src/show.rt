// What the monitor answers on a record, in a line.
ghost use Rattle.std.specs.Prelude.{◌≤◌};

use super::records::{base, stray_reply, stray_request, stray_service, stray_unread};
use super::stored::stored;
use monitor::Store;
use rules::{Call, Monitor};
use std::{fmt, io};

// One call, in six numbers as a host in C lends it: at clock 7 party 0 asks for the transaction information.
const CALLS: [u32; 6] = [7, 0, 6, 0, 0, 0];

// A code, or what stands in an answer place.
#[derive(Clone, Copy)]
struct Code(i64);

impl fmt::Display for Code {
    fn fmt<W: fmt::Write>(&self, f: &mut fmt::Formatter<W>) -> fmt::Result {
        match self.0 {
            -5 | -2 | 0 | 1 | 16 | 17 | 19 | 20 | 29 | 77 => write!(f, "{}", self.0),
            _ => write!(f, "another"),
        }
    }
}

// Is the record the same, word for word? `monitor::equal` cannot tell, since it says no for unsound ones. `public_calls` has the like: what both use would be
// public in `monitor`, with a contract of its own, for two words.
fn kept(before: Store, after: Store) -> &'static str {
    if before == after { "kept" } else { "changed" }
}

// A party's call at clock 7. Kinds are numbers, as a host gives them: one that there is not must be asked for, too.
fn call(party: u32, kind: u32, a: u32, b: u32) -> Call {
    Call {
        clock: 7,
        party,
        kind,
        a,
        b,
        c: 0,
    }
}

// A single call of a kind.
fn show_step(out: &impl Print, m: Store, kind: u32) -> io::Result<()> {
    let stepped = monitor::step(m, call(0, kind, 0, 0));
    print!(out; "{} {}", Code(stepped.answer.code), kept(m, stepped.store))
}

// A list with so many answer places, and the first of these, which hold 77 before.
fn show_list(out: &impl Print, m: Store, calls: &[u32], places: usize) -> io::Result<()>
    requires { places ≤ 6 }
{
    let mut answers = [77; 6];
    let ran = monitor::run_list(m, calls, &mut answers[..places]);
    print!(out;
        "{} {} answer {}",
        Code(ran.code),
        kept(m, ran.store),
        Code(answers[0])
    )
}

// A record: what a call of the kind 6 and one of no kind answer, and two lists.
pub fn show(out: &impl Print, name: &str, record: Monitor) -> io::Result<()> {
    let m = stored(record);
    print!(out; "{name}: step ")?;
    show_step(out, m, 6)?;
    print!(out; ", kind 4294967295 ")?;
    show_step(out, m, 4294967295)?;
    print!(out; ", list ")?;
    show_list(out, m, &CALLS, 6)?;
    print!(out; ", empty list ")?;
    show_list(out, m, &[], 6)?;
    println!(out)
}

// The sound record after some damage.
pub fn show_damage<F: FnOnce(&mut Monitor)>(
    out: &impl Print,
    name: &str,
    damage: F,
) -> io::Result<()>
    requires { F.IsAlwaysCallable damage }
{
    let mut m = base();
    damage(&mut m);
    show(out, name, m)
}

// A list that has too few answer places.
fn show_short(out: &impl Print, name: &str, record: Monitor, calls: &[u32]) -> io::Result<()> {
    print!(out; "{name}: ")?;
    show_list(out, stored(record), calls, 5)?;
    println!(out)
}

// What is asked of a list comes before soundness.
pub fn lists(out: &impl Print) -> io::Result<()> {
    let calls = CALLS;
    let five = &calls[..5];
    let mut m = base();
    show_short(out, "sound, five numbers and five places", m, five)?;
    show_short(out, "sound, six numbers and five places", m, &calls)?;
    m.count = 33;
    show_short(out, "33 links, five numbers and five places", m, five)?;
    show_short(out, "33 links, six numbers and five places", m, &calls)
}

// A party's end, its death or return, on a record; then party 0 commits.
fn show_commit_after(out: &impl Print, name: &str, record: Monitor, end: Call) -> io::Result<()> {
    let ended = monitor::step(stored(record), end);
    let committed = monitor::step(ended.store, call(0, 4, 0, 0));
    println!(out;
        "{name} {}, commit {}",
        Code(ended.answer.code),
        Code(committed.answer.code)
    )
}

// Sound records that no list of calls leads to. On lists these two rules show in no answer: a request that is given up leaves its transaction as
// it was, and a failed return makes the transaction rollback-only at once.
pub fn commits(out: &impl Print) -> io::Result<()> {
    show_commit_after(
        out,
        "a request of party 0's transaction by a party that is not in it: its originator dies",
        stray_request(),
        call(2, 21, 2, 0),
    )?;
    show_commit_after(
        out,
        "a request of party 0's transaction whose reply nobody waits for: its server fails",
        stray_service(),
        call(1, 20, 2, 0),
    )
}

// A party's call on a record.
fn show_answer(out: &impl Print, name: &str, record: Monitor, asked: Call) -> io::Result<()> {
    let stepped = monitor::step(stored(record), asked);
    println!(out; "{name} {}", Code(stepped.answer.code))
}

// Sound records that no list of calls leads to: the end of a transaction leaves no open request end, and a disconnect nothing unread.
pub fn answers(out: &impl Print) -> io::Result<()> {
    show_answer(
        out,
        "a returned request of a transaction that has ended: whichever reply is there",
        stray_reply(),
        call(2, 15, 0, 1),
    )?;
    show_answer(
        out,
        "a conversation that is disconnected, with four tokens of its server's unread: its server sends",
        stray_unread(),
        call(1, 17, 4, 0),
    )
}
