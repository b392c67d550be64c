// Numbers as the bytes of a font have them: document 02, No. 2, 'Read component records'.
ghost use Rattle.std.specs.Prelude.{◌≡◌, ◌+◌, ◌≤◌, MatchResult, drop, length};
ghost use Rattle.vector.specs.Refusals.{given};
ghost use Rattle.component.specs.Bytes.{word, twos_complement, f2dot14 as bytes_f2dot14};
ghost use Rattle.component.specs.Fault.{faulted};
ghost use Rattle.component.specs.Record.{bytes_hold};

use crate::fault::Fault;

// The bytes from a place on, at least n of them, or refusal 20.
#[tactic(auto, unfolding(crate::specs::Record::bytes_hold))]
pub(crate) fn from(bytes: &[u8], at: usize, n: usize) -> Result<&[u8], Fault>
    ensures { MatchResult result (λ rest. (rest.now ≡ drop at bytes.now) × (at + n ≤ length bytes.now) × (given tt ≡ bytes_hold bytes.now at n)) (λ cause. faulted cause ≡ bytes_hold bytes.now at n) }
{
    match bytes.get(at..) {
        Some(rest) if n <= rest.len() => Ok(rest),
        _ => Err(Fault::RecordEnds),
    }
}

// The number of two bytes, the larger first.
pub(crate) fn word(pair: [u8; 2]) -> u16
    ensures { result ≡ word pair 0 }
{
    u16::from_be_bytes(pair)
}

// The signed number of two bytes, the larger first.
#[tactic(auto, using(crate::proofs::Signs::signed16))]
pub(crate) fn short(pair: [u8; 2]) -> i32
    ensures { result ≡ twos_complement 16 (word pair 0) }
{
    i32::from(word(pair).cast_signed())
}

// The signed number of one byte.
#[tactic(auto, using(crate::proofs::Signs::signed8))]
pub(crate) fn tiny(byte: u8) -> i32
    ensures { result ≡ twos_complement 8 byte }
{
    i32::from(byte.cast_signed())
}

// A number in F2Dot14: so many 16384ths.
pub(crate) fn f2dot14(n: i32) -> f64
    ensures { result ≡ bytes_f2dot14 n }
{
    f64::from(n) / 16384.0
}
