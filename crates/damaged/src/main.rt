// Lends the monitor records that are broken in each way that soundness names, and sound ones at the borders and that no list leads to: a line each.
#![tactic(auto)]

mod links;
mod parties;
mod records;
mod show;
mod stored;

use std::io;

fn main(rt: HostRuntime) -> io::Result<()> {
    links::counts(&rt)?;
    links::numbers(&rt)?;
    links::ranges(&rt)?;
    links::choices(&rt)?;
    parties::choices(&rt)?;
    parties::served(&rt)?;
    records::sound(&rt)?;
    links::sound(&rt)?;
    parties::sound(&rt)?;
    show::lists(&rt)?;
    show::commits(&rt)?;
    show::answers(&rt)
}
