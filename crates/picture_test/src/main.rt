// Pictures from standard input, one a line in hexadecimal digits: what writing, turns ahead and reading get of each.
#![tactic(auto)]

mod line;
mod print;
mod reading;
mod writing;

use line::Line;
use print::{hex, word};
use state::State;

const STDIN: i32 = 0;

// The bytes, and what comes of the state that they show: an all-zero one where reading is refused.
fn show(bytes: &[u8]) {
    word(b"picture ");
    hex(bytes);
    word(b"\n");
    let state = picture::read(bytes).unwrap_or(State::zero());
    writing::writes(state, bytes.len());
    writing::turns(state);
}

// The first n bytes of a line.
fn answer(line: &mut [u8], n: usize) {
    if n <= line.len() {
        show(&line[..n]);
        reading::trials(line, n);
    }
}

// A line is answered at its line feed.
fn feed(line: &mut Line, b: u8) {
    if b == b'\n' {
        answer(&mut line.bytes, line.digits / 2);
        line.digits = 0;
    } else {
        line.feed(b);
    }
}

fn feed_all(input: &[u8]) {
    let mut line = Line::empty();
    for &b in input {
        feed(&mut line, b);
    }
}

fn main() {
    let mut input = io::large_buffer();
    let n = io::read_full(STDIN, &mut input);
    feed_all(&input[..n]);
}
