// Answers vector lines: standard input is read line by line, and each line's answer is written to standard output.
#![tactic(auto)]

mod answer;
mod filter_lines;
mod input;
mod ping_lines;
mod write;

use std::io;

fn main(rt: HostRuntime) -> io::Result<()> {
    // No buffered writer: its drop would write again what a failed write left.
    input::answer_all(rt.alloc(), rt.stdin(), &mut rt.stdout())
}
