// The program for small grids (document 01): the text of a grid from standard input, the text of its mesh to standard output.

#![tactic(auto)]

mod answer;
mod streams;

use std::io;

fn main(rt: HostRuntime) -> io::Result<()> {
    streams::answer_all(&mut rt.stdin(), &mut rt.stdout())
}
