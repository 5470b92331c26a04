// A line of the script: a word, known by its first letter, and up to five numbers.
use state::access::at;

#[derive(Clone, Copy)]
pub struct Line {
    pub word: u8,
    pub at: usize,
    pub numbers: [u16; 6],
}

// A number of the script as a byte.
pub(crate) fn low(n: u16) -> u8 {
    (n % 256) as u8
}

impl Line {
    pub(crate) fn empty() -> Line {
        Line {
            word: 0,
            at: 0,
            numbers: [0; 6],
        }
    }

    // Number i stands after the i-th space.
    pub(crate) fn number(self, i: usize) -> u16 {
        at(&self.numbers, i)
    }

    pub(crate) fn byte(self, i: usize) -> u8 {
        low(self.number(i))
    }

    // One more byte: of the word, a space before a number, a number's next digit.
    pub(crate) fn feed(&mut self, b: u8) {
        if self.word == 0 {
            self.word = b;
        } else if self.at <= 5 {
            match b {
                b' ' => self.at += 1,
                b'0'..=b'9' => {
                    let n = self.numbers[self.at];
                    self.numbers[self.at] = n.wrapping_mul(10).wrapping_add((b - b'0') as u16);
                }
                _ => {}
            }
        }
    }
}
