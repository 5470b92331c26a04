// The bytes of a line of hexadecimal digits, fed digit by digit.
ghost use Rattle.std.specs.Prelude.{◌<◌};

// A picture has at most 296 bytes, and one more is tried.
#[derive(Drop)]
pub struct Line {
    pub bytes: [u8; 297],
    pub digits: usize,
}

// What a digit is worth; any other byte is worth 0.
fn worth(b: u8) -> u8
    ensures { result < 16 }
{
    match b {
        b'0'..=b'9' => b - b'0',
        b'a'..=b'f' => b - b'a' + 10,
        _ => 0,
    }
}

impl Line {
    pub(crate) fn empty() -> Line {
        Line {
            bytes: [0; 297],
            digits: 0,
        }
    }

    // One digit more where the line has room.
    pub(crate) fn feed(&mut self, b: u8) {
        let at = self.digits / 2;
        if at < self.bytes.len() {
            let high = self.bytes[at];
            let d = worth(b);
            self.bytes[at] = if self.digits % 2 == 0 {
                16 * d
            } else {
                high | d
            };
            self.digits += 1;
        }
    }
}
