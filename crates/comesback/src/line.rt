// The line that is being read.
ghost use Rattle.std.specs.Prelude.{◌≡◌, ◌+◌, ◌<◌, ◌≤◌, ◌==◌, ◌++◌, [], ◌∷◌, true, false, take, MatchOption};

// Its bytes so far, as far as there is room for them, how many they are, and whether there were more. The room is an array, without a heap,
// and a line that just fills it is a line still: so that there were more has to be kept beside it, whatever holds the bytes.
#[derive(Drop)]
pub(crate) struct Line {
    bytes: [u8; 4096],
    at: usize,
    long: bool,
    ghost within: { at ≤ 4096 },
}

impl Line {
    // No byte so far.
    pub(crate) fn new() -> Line
        ensures { (result.at ≡ 0) × (result.long ≡ false) }
    {
        Line {
            bytes: [0; 4096],
            at: 0,
            long: false,
        }
    }

    // A byte more.
    pub(crate) fn push(&mut self, byte: u8)
        ensures room { self.old.at < 4096 → (take self.new.at self.new.bytes ≡ take self.old.at self.old.bytes ++ byte ∷ []) × (self.new.long ≡ self.old.long) }
        ensures none { 4096 ≤ self.old.at → (self.new.bytes ≡ self.old.bytes) × (self.new.at ≡ self.old.at) × (self.new.long ≡ true) }
    {
        if self.at < self.bytes.len() {
            self.bytes[self.at] = byte;
            self.at += 1;
        } else {
            self.long = true;
        }
    }

    // The line, where there was room for all of it.
    pub(crate) fn text(&self) -> Option<&[u8]>
        ensures { MatchOption result (self.now.long ≡ true) (λ t. (self.now.long ≡ false) × (t.now ≡ take self.now.at self.now.bytes)) }
    {
        if self.long {
            None
        } else {
            Some(&self.bytes[..self.at])
        }
    }

    // Whether there is no byte so far.
    pub(crate) fn is_empty(&self) -> bool
        ensures { result ≡ (self.now.at == 0) }
    {
        self.at == 0
    }

    // The start of the next line.
    pub(crate) fn clear(&mut self)
        ensures { (self.new.at ≡ 0) × (self.new.long ≡ false) }
    {
        self.at = 0;
        self.long = false;
    }
}
