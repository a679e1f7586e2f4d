// The examples of the calls on the record alone (SPECIFICATION, Examples): a line for each call, with what it answered.
#![tactic(auto)]

use std::io;

mod records; // records.rt: limits, refusals and their order, determined columns

fn main(rt: HostRuntime) -> io::Result<()> {
    records::all(&rt)
}
