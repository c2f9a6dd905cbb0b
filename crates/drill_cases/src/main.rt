// Stored drill files. case-00, case-01 and so on, up to the first that is missing: each one's name, and its listing.
// Then the files that use all numbers up: spent-a once, spent-b and spent-c many times over, and from there spent-d to spent-n are listed.
#![tactic(auto)]

mod spent;

use monitor::Store;
use std::{fs, str};

// The files that are listed once all numbers are used up.
const SPENT: [&str; 11] = [
    "spent-d", "spent-e", "spent-f", "spent-g", "spent-h", "spent-i", "spent-j", "spent-k",
    "spent-l", "spent-m", "spent-n",
];

// The name of a case, in two digits. By hand, since a formatted string asks for memory, without which the cases would end where they begin.
fn name_of(case: usize) -> [u8; 7] {
    let tens = b'0' + (case / 10 % 10) as u8;
    let ones = b'0' + (case % 10) as u8;
    [b'c', b'a', b's', b'e', b'-', tens, ones]
}

// Lists a case; nothing where there is none of that number. In a frame of its own, as what runs the other files: else the stack holds all their buffers.
#[inline(never)]
fn list_case(rt: &HostRuntime, case: usize) -> Option<()> {
    let name = name_of(case);
    let name = str::from_utf8(&name).ok()?;
    let mut file = fs::open(rt, name).ok()?;
    let _ = rt.println(name);
    drill_io::list_all(&mut file, rt, &rt.stderr(), b"drill_cases");
    Some(())
}

// Lists the cases up to the first that is missing.
fn list_cases(rt: &HostRuntime) -> Option<()> {
    for case in 0..100 {
        list_case(rt, case)?;
    }
    Some(())
}

fn main(rt: HostRuntime) {
    let _missing = list_cases(&rt);
    let begun = spent::run_stored(&rt, Store::fresh(), "spent-a", 1);
    // spent-b takes 32 link numbers and a transaction number each time, spent-c four transaction numbers, until both are at 60,000.
    let linked = spent::run_stored(&rt, begun, "spent-b", 1875);
    let all = spent::run_stored(&rt, linked, "spent-c", 14531);
    for name in SPENT {
        spent::list_stored(&rt, all, name);
    }
}
