// Reads a case file from standard input, runs the library and writes the result file to standard output (tests/README.md).
// The arrays have the largest sizes that a case may lend. A case that asks for more, or is cut off, ends the run.
#![tactic(auto)]

mod calls;
mod input;
mod loading;
mod output;
mod reading;
mod steps;
mod tessellated;
mod turns;
mod written;

fn main() {
    let mut va = [0.0; 196608];
    let mut ta = [0u32; 393216];
    let mut vb = [0.0; 196608];
    let mut tb = [0u32; 393216];
    let mut work = [0u32; 131072];
    let mut list = [0.0; 4096];
    turns::run(&mut va, &mut ta, &mut vb, &mut tb, &mut work, &mut list);
}
