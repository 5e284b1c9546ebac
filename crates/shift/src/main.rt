// A shift: lines on standard input, answers on standard output.

#![tactic(auto)]

mod ahead;
mod answers;
mod console;
mod run;

use std::io;

#[cfg(test)]
mod tests;

fn main(rt: HostRuntime) -> io::Result<()> {
    run::run(rt.stdin(), rt.stdout(), rt.alloc())
}
