// Bytes that are written in lower-case hexadecimal digits, two a byte, as they are read.
ghost use Rattle.std.specs.Prelude.{◌+◌, ◌*◌, ◌≤◌, ◌<◌, ◌≡◌, IfSome, length};
ghost use Rattle.command.specs.Request.{over};
ghost use Rattle.command.specs.Model.Hex.{hex_worth, pairs, hex_bytes, counted, bytes_of};
ghost use Rattle.command.specs.Model.Reading.{shown};

use crate::reading::after;

// What a digit is worth.
#[tactic(auto, unfolding(crate::specs::Model::Hex::hex_worth))]
fn worth(b: u8) -> Option<u8>
    ensures value { result ≡ hex_worth b }
    ensures bound { IfSome result (λ d. d < 16) }
{
    match b {
        b'0'..=b'9' => Some(b - b'0'),
        b'a'..=b'f' => Some(b - b'a' + 10),
        _ => None,
    }
}

// The bytes that pairs of digits at the front show, put at the buffer's front: how many.
fn pairs(s: &[u8], numbers: &mut [u8]) -> usize
    requires { length s.now ≤ 2 * length numbers.old + 1 }
    ensures value { result ≡ length (pairs s.now) }
    ensures numbers_after { numbers.new ≡ over numbers.old (pairs s.now) }
{
    let most = s.len() / 2;
    for n in 0..most {
        let Some(high) = worth(s[2 * n]) else {
            return n;
        };
        let Some(low) = worth(s[2 * n + 1]) else {
            return n;
        };
        numbers[n] = 16 * high + low;
    }
    most
}

// The same after a space, if there is a byte: how many, and what is behind them.
#[tactic(auto, using(crate::proofs::Digits::pairs_few), unfolding(crate::specs::Model::Hex::hex_bytes))]
pub(crate) fn hex_bytes<'a>(s: &'a [u8], numbers: &mut [u8]) -> Option<(usize, &'a [u8])>
    requires { length s.now ≤ 2 * length numbers.old + 2 }
    ensures value { shown result ≡ counted (hex_bytes s.now) }
    ensures numbers_after { numbers.new ≡ over numbers.old (bytes_of (hex_bytes s.now)) }
    ensures bound { IfSome result (λ x. 2 * x.0 + length x.1.now < length s.now) }
{
    let s = after(b" ", s)?;
    let n = pairs(s, numbers);
    if n == 0 {
        return None;
    }
    Some((n, &s[2 * n..]))
}
