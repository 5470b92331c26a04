// A page, a lent buffer that text is put into behind its first `len` bytes: as much of it as fits.
ghost use Rattle.std.specs.Prelude.{◌≡◌, ◌+◌, ◌-◌, ◌%◌, ◌<◌, [], ◌∷◌, ◌++◌};
ghost use Rattle.std.specs.Fn.{FnOnceReturnsAtMut};
ghost use Rattle.command.specs.declared.printing.Page.{Page};
ghost use Rattle.command.specs.Printing.{decimal, wide, hundredths, hex_digit, hex, line_feed, spaces, written};

#[derive(Drop)]
pub struct Page<'a> {
    pub bytes: &'a mut [u8],
    pub len: usize,
}

fn hex_digit(d: u8) -> u8
    ensures { result ≡ hex_digit (d % 16) }
{
    let low = d % 16;
    if low < 10 {
        b'0' + low
    } else {
        b'a' + (low - 10)
    }
}

impl Page<'_> {
    #[tactic(auto, using(crate::proofs::Put::write_one, crate::proofs::Put::write_full))]
    pub fn push(&mut self, b: u8)
        ensures { self.new ≡ written self.old (b ∷ []) }
    {
        if self.len < self.bytes.len() {
            self.bytes[self.len] = b;
            self.len += 1;
        }
    }

    #[tactic(auto, using(crate::proofs::Put::page_steps))]
    pub fn put(&mut self, text: &[u8])
        ensures { self.new ≡ written self.old text.now }
    {
        for &b in text {
            self.push(b);
        }
    }

    #[tactic(auto, using(crate::proofs::Put::page_steps))]
    pub fn spaces(&mut self, count: usize)
        ensures { self.new ≡ written self.old (spaces count) }
    {
        for _ in 0..count {
            self.push(b' ');
        }
    }

    // Spaces up to the width of a column that began at `from`.
    pub fn pad(&mut self, from: usize, width: usize)
        ensures { self.new ≡ written self.old (spaces (width - (self.old.len - from))) }
    {
        self.spaces(width.saturating_sub(self.len.saturating_sub(from)));
    }

    // A column: what `text` puts, and spaces up to the width.
    pub fn column<F: FnOnce(&mut Page)>(&mut self, width: usize, text: F)
        requires { F.IsAlwaysCallable text }
        ensures { (between : Page) × FnOnceReturnsAtMut F.FnOnce text self.old tt between × (self.new ≡ written between (spaces (width - (between.len - self.old.len)))) }
    {
        let from = self.len;
        text(self);
        self.pad(from, width);
    }

    // The last digit of a number.
    fn digit(&mut self, n: u16)
        ensures { self.new ≡ written self.old ((48 + n % 10) ∷ []) }
    {
        self.push(b'0' + (n % 10) as u8);
    }

    // A number below 1,000 in decimal.
    #[tactic(auto, using(crate::proofs::Put::page_steps, crate::proofs::Put::decimals))]
    fn short(&mut self, n: u16)
        requires { n < 1000 }
        ensures { self.new ≡ written self.old (decimal n) }
    {
        if 100 <= n {
            self.digit(n / 100);
        }
        if 10 <= n {
            self.digit(n / 10);
        }
        self.digit(n);
    }

    pub fn number(&mut self, n: u8)
        ensures { self.new ≡ written self.old (decimal n) }
    {
        self.short(n as u16);
    }

    // A number of two bytes.
    #[tactic(auto, using(crate::proofs::Put::page_steps), unfolding(crate::specs::Printing::wide))]
    pub fn wide(&mut self, n: u16)
        ensures { self.new ≡ written self.old (wide n) }
    {
        if n < 1000 {
            self.short(n);
        } else {
            self.short(n / 1000);
            self.digit(n / 100);
            self.digit(n / 10);
            self.digit(n);
        }
    }

    // A number of hundredths: a point and two digits stand last.
    #[tactic(auto, using(crate::proofs::Put::page_steps), unfolding(crate::specs::Printing::hundredths))]
    pub fn hundredths(&mut self, n: u16)
        ensures { self.new ≡ written self.old (hundredths n) }
    {
        self.short(n / 100);
        self.push(b'.');
        self.digit(n / 10);
        self.digit(n);
    }

    // Two lower-case hexadecimal digits a byte, unspaced.
    #[tactic(auto, using(crate::proofs::Put::page_steps, crate::proofs::Put::hex_append), unfolding(crate::specs::Printing::hex))]
    pub fn hex(&mut self, bytes: &[u8])
        ensures { self.new ≡ written self.old (hex bytes.now) }
    {
        for &b in bytes {
            self.push(hex_digit(b / 16));
            self.push(hex_digit(b));
        }
    }

    // A number on a line of its own.
    #[tactic(auto, using(crate::proofs::Put::page_steps))]
    pub fn number_line(&mut self, n: u8)
        ensures { self.new ≡ written self.old (decimal n ++ line_feed) }
    {
        self.number(n);
        self.push(b'\n');
    }

    // Bytes in hexadecimal digits on a line of their own.
    #[tactic(auto, using(crate::proofs::Put::page_steps))]
    pub fn hex_line(&mut self, bytes: &[u8])
        ensures { self.new ≡ written self.old (hex bytes.now ++ line_feed) }
    {
        self.hex(bytes);
        self.push(b'\n');
    }
}
