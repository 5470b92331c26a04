// Printing, and bytes made from a seed.

const STDOUT: i32 = 1;

pub(crate) fn text(bytes: &[u8]) {
    io::write_all(STDOUT, bytes);
}

// A number and what stands after it.
pub(crate) fn number(n: u64, after: &[u8]) {
    io::print_decimal(STDOUT, n);
    io::write_all(STDOUT, after);
}

// Two lower-case hexadecimal digits a byte.
pub(crate) fn hex(bytes: &[u8]) {
    for &b in bytes {
        io::print_hex(STDOUT, b as u64, 2);
    }
}

pub(crate) fn mixed(x: u64, b: u8) -> u64 {
    (257 * (x % 1000000007) + b as u64 + 1) % 1000000007
}

fn low_byte(x: u64) -> u8 {
    (x % 256) as u8
}

// Any bytes, from a seed.
pub(crate) fn noise(seed: u16, bytes: &mut [u8]) {
    let mut x = seed as u64;
    for b in bytes.iter_mut() {
        x = mixed(x, 0);
        *b = low_byte(x);
    }
}

// A number that stands for all bytes.
pub(crate) fn hash(bytes: &[u8]) -> u64 {
    let mut x = 0;
    for &b in bytes {
        x = mixed(x, b);
    }
    x
}
