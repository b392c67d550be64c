// Lines of standard input, each answered by `report::verdict_line`, and the totals by `report::totals_line`.
// `rt`, the line and the totals stay apart: totals are handed on by value, so that what an error ends is not counted.
ghost use Rattle.std.specs.Prelude.{◌≡◌, false, IfOk, OnErr};

use crate::line::Line;
use crate::output;
use report::{Totals, Verdict};
use std::io;
use std::io::Read;

// The verdict on a line, and the totals with it.
fn tell(rt: &impl Print, text: &[u8], totals: Totals) -> io::Result<Totals> {
    let mut out = [0u8; 4096];
    let n = report::verdict_line(text, &mut out);
    output::put(rt, &out[..n])?;
    Ok(totals.counted(report::verdict_of(text)))
}

// The same of a line that has more bytes than there is room for.
fn tell_long(rt: &impl Print, totals: Totals) -> io::Result<Totals> {
    output::put(rt, b"expected a line of at most 4096 bytes\n")?;
    Ok(totals.counted(Verdict::NotRead))
}

// The end of a line.
fn end(rt: &impl Print, line: &Line, totals: Totals) -> io::Result<Totals> {
    match line.text() {
        Some(text) => tell(rt, text, totals),
        None => tell_long(rt, totals),
    }
}

// A byte of the input.
fn byte(rt: &impl Print, line: &mut Line, totals: Totals, value: u8) -> io::Result<Totals>
    ensures ended { IfOk result (λ _. value ≡ 10 → (line.new.at ≡ 0) × (line.new.long ≡ false)) }
    ensures kept { OnErr result (line.new ≡ line.old) }
{
    if value != b'\n' {
        line.push(value);
        return Ok(totals);
    }
    let told = end(rt, line, totals)?;
    line.clear();
    Ok(told)
}

// Bytes of the input, one after the other.
fn bytes(rt: &impl Print, line: &mut Line, totals: Totals, input: &[u8]) -> io::Result<Totals> {
    let mut so_far = totals;
    for value in input {
        so_far = byte(rt, line, so_far, *value)?;
    }
    Ok(so_far)
}

// The totals, after a last line that nothing ends.
fn finish(rt: &impl Print, line: &Line, totals: Totals) -> io::Result<()> {
    let mut last = totals;
    if !line.is_empty() {
        last = end(rt, line, last)?;
    }
    let mut out = [0u8; 4096];
    let n = report::totals_line(last, &mut out);
    output::put(rt, &out[..n])
}

// The answer to standard input: reads all of it.
pub(crate) fn answer(rt: &(impl Input + Print)) -> io::Result<()> {
    let mut input = rt.reader();
    let mut chunk = [0u8; 65536];
    let mut line = Line::new();
    let mut totals = Totals::none();
    // A count that is never reached, since every loop has to end.
    for _ in 0..u64::MAX {
        let n = input.read(&mut chunk)?;
        if n == 0 {
            return finish(rt, &line, totals);
        }
        totals = bytes(rt, &mut line, totals, &chunk[..n])?;
    }
    Ok(())
}
