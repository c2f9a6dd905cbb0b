// Lists on a fresh monitor, and a record that is made fresh.
use super::calls::numbers;
use super::show::{places, yes};
use super::stored::{PLACES, ROOM, all_of, load, unsound};
use monitor::Store;
use std::io;

fn show_list(rt: &impl Print, base: Store, list: &[u32], answers: &mut [i64]) -> io::Result<()> {
    print!(rt;
        "run_fresh {} numbers, {} places: ",
        list.len(),
        answers.len()
    )?;
    let ran = monitor::run_fresh(list, answers);
    let equal = yes(monitor::equal(ran.store, base));
    let fresh = yes(monitor::equal(ran.store, Store::fresh()));
    println!(rt;
        "code {}, equal to base {equal}, to fresh {fresh}",
        ran.code
    )?;
    places(rt, answers)
}

// So many numbers of a list, with so many answer places.
fn list_of(
    rt: &impl Print,
    base: Store,
    list: &[u32],
    count: usize,
    room: usize,
) -> io::Result<()> {
    let mut answers = [77; PLACES];
    if let (Some(numbers), Some(lent)) = (list.get(..count), answers.get_mut(..room)) {
        show_list(rt, base, numbers, lent)?;
    }
    Ok(())
}

// The calls of the file base.
pub fn lists(rt: &HostRuntime, base: Store) -> io::Result<()> {
    let mut bytes = [0; ROOM];
    let list = numbers(load(rt, "base", &mut bytes));
    for (count, room) in [(234, 237), (234, 233), (233, 237), (233, 0), (6, 6), (0, 0)] {
        list_of(rt, base, &list, count, room)?;
    }
    Ok(())
}

fn show_made(rt: &impl Print, name: &str, m: Store) -> io::Result<()> {
    let mut n = m;
    let before = yes(monitor::equal(m, Store::fresh()));
    monitor::monitor_fresh(&mut n.words);
    let after = yes(monitor::equal(n, Store::fresh()));
    let full = yes(all_of(n, true, u32::MAX));
    let zero = yes(all_of(n, false, 0));
    print!(rt; "monitor_fresh {name}: equal to fresh before {before}, after {after}")?;
    println!(rt; ", rights full {full}, other words 0 {zero}")
}

pub fn made(rt: &impl Print, base: Store) -> io::Result<()> {
    show_made(rt, "base", base)?;
    show_made(rt, "last transaction number 60001", unsound())
}
