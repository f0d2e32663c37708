// The pen: it stands at a place of a lent buffer, and lays text in from there on as far as the buffer goes. Text is printed by
// hand, and not by `Display` and `write!`: their contract speaks of an `Ok` alone, so it would say nothing of a text that is
// cut, and a `String` needs a heap.
ghost use Rattle.std.specs.Prelude.{◌≡◌, [], ◌∷◌, ◌++◌, min, ◌<◌, ◌≤◌, length};
ghost use Rattle.text.specs.Digits.{decimal_of, hex_digit, hex_of};

// The buffer, and where the next text goes: within it, or at its end.
#[derive(Drop)]
pub struct Pen<'a> {
    pub out: &'a mut [u8],
    pub at: usize,
    ghost within: { at ≤ length out.now },
}

impl<'a> Pen<'a> {
    ghost use Rattle.text.specs.Pens.{written};

    // At a place of the buffer, or at its end where the place is past it.
    pub fn new(out: &'a mut [u8], at: usize) -> Pen<'a>
        ensures same { result.out.ghost_name ≡ out.entry.ghost_name }
        ensures held { result.out.now ≡ out.old }
        ensures stands { result.at ≡ min at (length out.old) }
    {
        let at = at.min(out.len());
        Pen { out, at }
    }

    pub fn put_byte(&mut self, byte: u8)
        ensures { self.new ≡ written (byte ∷ []) self.old }
    {
        if self.at < self.out.len() {
            self.out[self.at] = byte;
            self.at += 1;
        }
    }

    pub fn put(&mut self, text: &[u8])
        ensures { self.new ≡ written text.now self.old }
    {
        for byte in text {
            self.put_byte(*byte);
        }
    }

    // A number in decimal, without leading zeros.
    pub fn put_decimal(&mut self, n: u64)
        ensures { self.new ≡ written (decimal_of n) self.old }
    {
        if n < 10 {
            self.put_byte(b'0' + n as u8);
        } else {
            self.put_decimal(n / 10);
            self.put_byte(b'0' + (n % 10) as u8);
        }
    }

    // The low digits of a number in hexadecimal, lower case, exactly so many.
    pub fn put_hex(&mut self, digits: u8, n: u64)
        ensures { self.new ≡ written (hex_of digits n) self.old }
    {
        if digits > 0 {
            self.put_hex(digits - 1, n / 16);
            self.put_byte(hex_digit((n % 16) as u8));
        }
    }

    // A name, and a number in decimal behind it.
    pub fn put_named(&mut self, name: &[u8], n: u64)
        ensures { self.new ≡ written (name.now ++ decimal_of n) self.old }
    {
        self.put(name);
        self.put_decimal(n);
    }
}

fn hex_digit(n: u8) -> u8
    requires { n < 16 }
    ensures { result ≡ hex_digit n }
{
    if n < 10 { b'0' + n } else { b'a' + (n - 10) }
}
