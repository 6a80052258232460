// Prints the plain form of the sheet in the folder that it runs in, or the line of a refusal (crates/program).
#![tactic(auto)]

use std::io;

fn main(rt: HostRuntime) -> io::Result<()> {
    program::run(&rt, true)
}
