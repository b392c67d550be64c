// Reads a line of the list: words, each between spaces.
// A line is an operation, its order, the class of its input, the words that it reads, and what it answers.
ghost use Rattle.std.specs.Prelude.{◌<◌, ◌≤◌, length, IfSome};

use crate::answer::{Answer, Written};
use crate::outcome::Uncompared;
use arrayvec::ArrayVec;

// The most words that an operation reads.
pub const ROOM: usize = 36;

// What is still to be read of a line.
#[derive(Clone, Copy)]
pub struct Line<'a>(pub &'a [u8]);

impl<'a> Line<'a> {
    // The next word; at the end of the line the empty one.
    pub(crate) fn word(&mut self) -> &'a [u8] {
        let line = self.0;
        match line.iter().position(|b| *b == b' ') {
            Some(end) => {
                self.0 = &line[end + 1..];
                &line[..end]
            }
            None => {
                self.0 = &[];
                line
            }
        }
    }

    // What the next word states; it is still to be read where it states nothing.
    pub(crate) fn number(&mut self) -> Result<u64, Uncompared> {
        let mut rest = *self;
        let value = stated(rest.word()).ok_or(Uncompared::NotRead)?;
        *self = rest;
        Ok(value)
    }

    // The order or the length that the next word states.
    pub(crate) fn whole(&mut self) -> Result<usize, Uncompared> {
        Ok(self.number()? as usize)
    }

    // What the next words state, up to one that states nothing, and at most as many as an operation reads.
    pub(crate) fn numbers(&mut self) -> ArrayVec<u64, ROOM> {
        let mut all = ArrayVec::new();
        for _ in 0..ROOM {
            let Ok(value) = self.number() else {
                return all;
            };
            let _ = all.try_push(value);
        }
        all
    }

    // The sign in front of an answer: a word of one letter.
    pub(crate) fn sign(&mut self) -> Result<u8, Uncompared> {
        match self.word() {
            [sign] => Ok(*sign),
            _ => Err(Uncompared::NotRead),
        }
    }

    // The line has to end here.
    pub(crate) fn end(self) -> Result<(), Uncompared> {
        if self.0.is_empty() {
            Ok(())
        } else {
            Err(Uncompared::NotRead)
        }
    }

    // What the rest of the line says: '=' and the entries, or '!' and a refusal.
    pub(crate) fn expected(mut self) -> Result<Answer, Uncompared> {
        let sign = self.sign()?;
        let numbers = self.numbers();
        self.end()?;
        match (sign, numbers.as_slice()) {
            (b'=', entries) => ArrayVec::try_from(entries)
                .map(Ok)
                .map_err(|_| Uncompared::NotRead),
            (b'!', [refusal]) => Ok(Err(Written(*refusal))),
            _ => Err(Uncompared::NotRead),
        }
    }
}

// The value of a hexadecimal digit.
fn digit(b: u8) -> Option<u64> {
    match b {
        b'0'..=b'9' => Some(u64::from(b - b'0')),
        b'a'..=b'f' => Some(u64::from(b - b'a' + 10)),
        _ => None,
    }
}

// The number of one to sixteen hexadecimal digits. The library reads capitals, a sign and more digits too, which the list has not.
fn hexadecimal(digits: &[u8]) -> Option<u64>
    ensures { IfSome result (λ _. (0 < length digits.now) × (length digits.now ≤ 16)) }
{
    if digits.is_empty() || digits.len() > 16 {
        return None;
    }
    let mut value: u64 = 0;
    for b in digits {
        value = (value << 4) | digit(*b)?;
    }
    Some(value)
}

// What a word states: a place or a whole number behind '@', or a pattern whose last digits are left out where
// they are 0, each NaN's as the same one.
fn stated(word: &[u8]) -> Option<u64> {
    if let Some(digits) = word.strip_prefix(b"@") {
        return hexadecimal(digits);
    }
    let value = hexadecimal(word)?;
    let left_out = 16 - word.len();
    Some(canonical(value << (4 * left_out)))
}

// The pattern itself, or for each NaN's the same one.
fn canonical(pattern: u64) -> u64 {
    bits::pattern(bits::number(pattern))
}
