// Runs the public calls that no other program runs: drill files and pieces of them, turns of the drill program, calls read and written, lists on a
// fresh monitor, and which records are sound and equal. A line for each case, and the answer places. Functions are passed the handle that they print by,
// as those of std are, and the record that they start from.
#![tactic(auto)]

mod calls;
mod files;
mod fresh;
mod records;
mod show;
mod stored;
mod turns;

use std::io;

fn main(rt: HostRuntime) -> io::Result<()> {
    files::files(&rt)?;
    files::pieces(&rt)?;
    turns::turns(&rt)?;
    calls::reads(&rt)?;
    calls::writes(&rt)?;
    let base = stored::base(&rt);
    fresh::lists(&rt, base)?;
    fresh::made(&rt, base)?;
    records::changed(&rt, base)
}
