// The words of the command, put together by `report::add_word` and answered by `report::report`.
ghost use Rattle.std.specs.Prelude.{◌≤◌, ◌≡◌, length, take, IfSome};

use crate::output;
use std::env::FillError;
use std::io;
use std::rt::Env;

// How many words the command has, the program's name among them.
pub(crate) fn count(rt: &impl Env) -> usize {
    let mut nothing = [0u8; 0];
    // A count that is never reached, since every loop has to end.
    for i in 0..usize::MAX {
        if let Err(FillError::NotPresent) = rt.arg(i, &mut nothing) {
            return i;
        }
    }
    usize::MAX
}

// A word more: the next place, or none where there was not room for it.
fn add(rt: &impl Env, line: &mut [u8], at: usize, i: usize) -> Option<usize>
    ensures { IfSome result (λ n. (n ≤ length line.new) × (n ≡ length (take n line.new))) }
{
    let mut word = [0u8; 65536];
    let n = rt.arg(i, &mut word).ok()?;
    let next = report::add_word(line, at, &word[..n]);
    if next < line.len() { Some(next) } else { None }
}

// The words of the command, or none where there was not room for them. The line and the next place stay apart, as `report::add_word` takes them.
fn join(rt: &impl Env, line: &mut [u8]) -> Option<usize>
    ensures { IfSome result (λ n. (n ≤ length line.new) × (n ≡ length (take n line.new))) }
{
    let mut at = 0;
    for i in 1..count(rt) {
        at = add(rt, line, at, i)?;
    }
    Some(at)
}

// The report of the words.
fn print(rt: &impl Print, line: &[u8]) -> io::Result<()> {
    let mut out = [0u8; 4096];
    let n = report::report(line, &mut out);
    output::put(rt, &out[..n])
}

// The answer to the words of the command.
pub(crate) fn answer(rt: &(impl Env + Print)) -> io::Result<()> {
    let mut line = [0u8; 65536];
    match join(rt, &mut line) {
        Some(n) => print(rt, &line[..n]),
        None => output::put(rt, b"expected words of fewer than 65536 bytes in all\n"),
    }
}
