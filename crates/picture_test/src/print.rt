// What the program writes: words, numbers, bytes in hexadecimal digits.

const STDOUT: i32 = 1;

pub(crate) fn word(bytes: &[u8]) {
    io::write_all(STDOUT, bytes);
}

pub(crate) fn number(n: u8) {
    io::print_decimal(STDOUT, n as u64);
}

// Two digits.
fn byte(b: u8) {
    io::print_hex(STDOUT, b as u64, 2);
}

pub(crate) fn hex(bytes: &[u8]) {
    for &b in bytes {
        byte(b);
    }
}
