// What reading gets of a line's first n bytes: whole, damaged, cut and with one byte more.
ghost use Rattle.std.specs.Prelude.{◌≡◌};

use crate::print::{number, word};
use state::refusal::outcome;

// A space and the answer of the first n bytes, where the line has so many.
fn read(line: &[u8], n: usize) {
    if n <= line.len() {
        let answer = picture::read(&line[..n]);
        word(b" ");
        number(outcome(answer));
    }
}

// With one byte changed, which is then as before.
fn damage(line: &mut [u8], n: usize, i: usize, flip: u8)
    ensures { line.new ≡ line.old }
{
    if i < line.len() {
        let b = line[i];
        line[i] = b ^ flip;
        read(line, n);
        line[i] = b;
    }
}

// With each byte changed in turn.
// kept: by index, since the whole line is read while one of its bytes is changed.
fn damages(line: &mut [u8], n: usize, flip: u8)
    ensures { line.new ≡ line.old }
{
    for i in 0..n {
        damage(line, n, i, flip);
    }
}

// The first 0 to 9 bytes of the n.
fn prefixes(line: &[u8], n: usize) {
    for k in 0..10 {
        if k <= n {
            read(line, k);
        }
    }
}

// One byte less, and a zero byte more.
fn lengths(line: &mut [u8], n: usize) {
    word(b"\nshort");
    if 0 < n {
        read(line, n - 1);
    }
    word(b"\nlong");
    if n < line.len() {
        line[n] = 0;
        read(line, n + 1);
    }
}

pub(crate) fn trials(line: &mut [u8], n: usize) {
    word(b"whole");
    read(line, n);
    word(b"\nxor1");
    damages(line, n, 1);
    // + 128 mod 256 is xor 128
    word(b"\nadd128");
    damages(line, n, 128);
    lengths(line, n);
    word(b"\nprefixes");
    prefixes(line, n);
    word(b"\n");
}
