// The words of a line, one after another, and the whole number of magnitude at most 1024 that a word is.
ghost use Rattle.std.specs.Prelude.{◌≡◌, ◌+◌, ◌-◌, ◌*◌, ◌≤◌, ◌&&◌, min, nat_le, length};
ghost use Rattle.std.specs.List.{list_all, take_while};
ghost use Rattle.std.specs.Iterator.{YieldsFirstRef, item_count};
ghost use Rattle.report.specs.Words.{is_blank, negative as words_negative, digits_of, is_digit, is_number, value, words};
ghost use Rattle.report.specs.Read.{is_other, Fitting};

// The largest magnitude that the engine takes.
const LARGEST: u64 = 1024;

// The words of what is left of a line.
#[derive(Clone, Copy)]
pub(crate) struct Words<'a> {
    pub line: &'a [u8],
}

impl<'a> Words<'a> {
    // The words of a line.
    pub(crate) fn of(line: &'a [u8]) -> Words<'a>
        ensures { result.line.now ≡ line.now }
    {
        Words { line }
    }

    // How many there are, as far as `most`: what stands behind so many is not read.
    #[tactic(auto, using(crate::proofs::Reading::words_few))]
    pub(crate) fn total(self, most: usize) -> usize
        ensures { result ≡ min most (length (words self.entry.line.now)) }
    {
        self.take(most).count()
    }
}

impl<'a> Iterator for Words<'a> {
    type Item = &'a [u8];

    ghost next_gives = { YieldsFirstRef (λ s. words s.line.now) };

    ghost remaining = { item_count (λ s. words s.line.now) };

    fn next(&mut self) -> Option<&'a [u8]> {
        let line = self.line;
        let from_word = &line[blanks(line)..];
        let (word, rest) = from_word.split_at(others(from_word));
        self.line = rest;
        if word.is_empty() { None } else { Some(word) }
    }
}

// Whether a byte is a blank.
#[tactic(auto, unfolding(crate::specs::Words::is_blank))]
fn is_blank(byte: u8) -> bool
    ensures { result ≡ is_blank byte }
{
    byte == b' ' || byte == b'\t' || byte == b'\r'
}

// How many blanks stand at the start of a line.
fn blanks(s: &[u8]) -> usize
    ensures is { result ≡ length (take_while is_blank s.now) }
    ensures within { result ≤ length s.now }
{
    s.iter().take_while(|byte| is_blank(**byte)).count()
}

// How many other bytes stand there.
fn others(s: &[u8]) -> usize
    ensures is { result ≡ length (take_while is_other s.now) }
    ensures within { result ≤ length s.now }
{
    s.iter().take_while(|byte| !is_blank(**byte)).count()
}

// Whether a word has a minus sign.
fn negative(word: &[u8]) -> bool
    ensures { result ≡ words_negative word.now }
{
    word.starts_with(b"-")
}

// A word without its minus sign.
fn digits(word: &[u8]) -> &[u8]
    ensures { result.now ≡ digits_of word.now }
{
    word.strip_prefix(b"-").unwrap_or(word)
}

// Whether every byte is a digit.
fn all_digits(bytes: &[u8]) -> bool
    ensures { result ≡ list_all is_digit bytes.now }
{
    bytes.iter().all(|byte| byte.is_ascii_digit())
}

// A number with one digit more, at most 1025.
fn continued(n: u64, byte: u8) -> u64
    requires { n ≤ 1025 }
    ensures { result ≡ min 1025 (n * 10 + (byte - 48)) }
{
    (n * 10 + byte.saturating_sub(b'0') as u64).min(1025)
}

// The number of some digits, at most 1025.
fn capped(digits: &[u8]) -> u64
    ensures { result ≡ min 1025 (value 0 digits.now) }
{
    let mut n = 0;
    for byte in digits {
        n = continued(n, *byte);
    }
    n
}

// The whole number of magnitude at most 1024 that a word is.
pub(crate) fn entry(word: &[u8]) -> Option<i64>
    ensures { Fitting word.now result }
{
    let digits = digits(word);
    if digits.is_empty() || !all_digits(digits) {
        return None;
    }
    let magnitude = capped(digits);
    if LARGEST < magnitude {
        return None;
    }
    let z = magnitude as i64;
    Some(if negative(word) { -z } else { z })
}
