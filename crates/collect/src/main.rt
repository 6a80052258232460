// Prints the recipe page of the files in the folder that it runs in, or the line of a refusal (crates/program).
#![tactic(auto)]

use std::io;

fn main(rt: HostRuntime) -> io::Result<()> {
    program::run(&rt, false)
}
