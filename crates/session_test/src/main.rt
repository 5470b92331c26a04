// Runs a script of session calls from standard input. What the calls answer, with the record and the journal compared before and after each, is held to what the independent implementation of tests/independent answers.
#![tactic(auto)]

mod bench;
mod bytes;
mod calls;
mod fields;
mod line;
mod scripted;

use bench::Bench;
use line::Line;

const STDIN: i32 = 0;

// A line is executed at its line feed.
fn run(script: &[u8]) {
    let mut bench = Bench::new();
    let mut line = Line::empty();
    for &b in script {
        if b == b'\n' {
            bench.execute(line);
            line = Line::empty();
        } else {
            line.feed(b);
        }
    }
}

// The script has room.
fn main() {
    let mut script = [0u8; 393216];
    let n = io::read_full(STDIN, &mut script);
    run(&script[..n]);
}
