// Bytes, texts and whole numbers, written one after another to a lent slice; what finds no room is left out.
ghost use Rattle.std.specs.Prelude.{◌≤◌, length};

// A lent slice, and the place in it where the next text goes.
// Not written to by `write!`, whose promise speaks of an Ok alone: here each text is promised in every case.
#[derive(Drop)]
pub(crate) struct Page<'a> {
    pub out: &'a mut [u8],
    pub at: usize,
    ghost within: { at ≤ length out.now },
}

impl<'a> Page<'a> {
    ghost use Rattle.std.specs.Prelude.{◌≡◌, ◌/◌, ◌<◌, [], ◌∷◌, if◌then◌else◌, nat_le};
    ghost use Rattle.report.specs.Text.{digit, decimal as text_decimal, whole as text_whole};
    ghost use Rattle.report.specs.Written.{Adds};

    // A page with nothing written.
    pub(crate) fn new(out: &'a mut [u8]) -> Page<'a>
        ensures same_slice { result.out.ghost_name ≡ out.entry.ghost_name }
        ensures same { result.out.now ≡ out.old }
        ensures start { result.at ≡ 0 }
    {
        Page { out, at: 0 }
    }

    // One byte.
    fn put(&mut self, byte: u8)
        ensures { Adds self.old (byte ∷ []) self.new }
    {
        if self.at < self.out.len() {
            self.out[self.at] = byte;
            self.at += 1;
        }
    }

    // The bytes of a text.
    pub(crate) fn text(&mut self, bytes: &[u8])
        ensures { Adds self.old bytes.now self.new }
    {
        for byte in bytes {
            self.put(*byte);
        }
    }

    // The digit of a power of ten, where the number reaches it.
    fn higher_digit(&mut self, n: u64, power: u64)
        requires { 0 < power }
        ensures { Adds self.old (if nat_le power n then digit (n / power) ∷ [] else []) self.new }
    {
        if power <= n {
            self.put(48 + (n / power % 10) as u8);
        }
    }

    // A number in decimal: the digit of each power of ten that it reaches, then its last digit.
    pub(crate) fn decimal(&mut self, n: u64)
        ensures { Adds self.old (text_decimal n) self.new }
    {
        let mut power: u64 = 10_000_000_000_000_000_000;
        for _j in 0..19usize {
            self.higher_digit(n, power);
            power /= 10;
        }
        self.put(48 + (n % 10) as u8);
    }

    // A whole number in decimal.
    pub(crate) fn whole(&mut self, z: i64)
        ensures { Adds self.old (text_whole z) self.new }
    {
        if z < 0 {
            self.text(b"-");
        }
        self.decimal(engine::magnitude(z));
    }
}
