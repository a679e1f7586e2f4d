// The examples of the calls on queries, databases and files (SPECIFICATION, Examples): a line for each call, with what it answered.
#![tactic(auto)]

use std::io;

mod comparisons; // comparisons.rt: two places compared, a mapping checked
mod databases; // databases.rt: a database tested, a place evaluated on it, a record written
mod reductions; // reductions.rt: one place reduced into another

fn main(rt: HostRuntime) -> io::Result<()> {
    comparisons::all(&rt)?;
    reductions::all(&rt)?;
    databases::all(&rt)
}
