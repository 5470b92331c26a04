// What writing and turns ahead get of the state that was read, which is all zero where reading was refused.
use crate::print::{hex, number, word};
use state::State;
use state::refusal::outcome;

// Into a buffer: the answer, and the buffer's bytes then.
fn write(state: State, buffer: &mut [u8]) {
    let answer = picture::write(state, buffer);
    word(b" ");
    number(outcome(answer));
    word(b" ");
    hex(buffer);
}

// Into n bytes a5.
fn write_in(state: State, n: usize) {
    let mut buffer = [165u8; 300];
    if n <= 300 {
        write(state, &mut buffer[..n]);
    }
}

// Into buffers of n bytes, one less and four more.
pub(crate) fn writes(state: State, n: usize) {
    word(b"exact");
    write_in(state, n);
    word(b"\nless");
    if 0 < n {
        write_in(state, n - 1);
    }
    word(b"\nmore");
    if n <= 296 {
        write_in(state, n + 4);
    }
    word(b"\n");
}

// A number for a thread that waits, - for one that does not, r before a refusal.
fn turns_of(state: State, thread: u8) {
    match picture::ahead(state, thread) {
        Ok(Some(n)) => {
            word(b" ");
            number(n)
        }
        Ok(None) => word(b" -"),
        Err(refusal) => {
            word(b" r");
            number(refusal.number())
        }
    }
}

// Threads 0 to 33, which is past every T, and 255.
pub(crate) fn turns(state: State) {
    word(b"turns");
    for thread in 0..34 {
        turns_of(state, thread);
    }
    turns_of(state, 255);
    word(b"\n");
}
