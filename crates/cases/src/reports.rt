// Reports of good and bad lines. Each is written out whole, and the stored output holds what it must be: tools/reports.py worked it out.
use crate::count::Cases;
use std::io;

// What stands in the output before.
const BEFORE: u8 = 7;

// The lines: orders 2, 3 and 4, sums that are powers of two and not, sums of zero, entries at both sides
// of the limit, words that are no whole numbers, blanks of each kind, other counts of entries, other orders, --help.
const LINES: [&str; 49] = [
    "2 3 5 1 2",
    "2 2 0 0 4",
    "2 0 1 1 0",
    "2 -1 0 0 1",
    "2 3 0 0 1",
    "2 6 2 4 -10",
    "2 1024 0 0 1024",
    "2 1024 -1024 1024 1024",
    "3 1 0 0 0 1 0 10 20 1",
    "3 32 0 0 0 64 0 640 1024 1",
    "3 0 1 0 -1 0 0 10 20 1",
    "3 2 0 0 0 3 0 0 0 1",
    "3 48 0 0 0 48 0 0 0 1",
    "4 2 0 0 0 0 2 0 0 0 0 2 0 4 6 8 1",
    "4 1024 0 0 0 0 1024 0 0 0 0 1024 0 0 0 0 -1024",
    "4 0 1 0 0 1 0 0 0 0 0 1 0 0 0 0 3",
    "2 1 2 2 4",
    "3 0 0 0 0 0 0 0 0 0",
    "2 1025 0 0 1",
    "2 1 0 0 -1025",
    "2 1 0 0 1000000000000000000000000000000000001024",
    "2 0001024 -0 00 -01",
    "2 +5 0 0 1",
    "2 0 5x 0 1",
    "2 0 0 0.5 1",
    "2 - 0 0 1",
    "2 1 0 0 --1",
    "3 1 0 0 0 1 0 0 0 1e3",
    "4 1 0 0 0 0 1 0 0 0 0 1 0 0 0 x 1",
    "2 1x 0 0 1025",
    "2 1  0 \t0  1",
    " 2 1 0 0 1 ",
    "2\t1\t0\t0\t1\r",
    "2 1  0 1",
    "2 1 0 0",
    "2 1 0 0 1 0",
    "3 1 0 0 1",
    "4",
    "2",
    "",
    " \t",
    "5 1 0 0 1",
    "02 1 0 0 1",
    "-2 1 0 0 1",
    "two 1 0 0 1",
    "--help",
    "3 1 --help",
    "-help",
    "--helps",
];

// Whether a report in less room is the same one, cut there, of which 40 bytes are written.
fn cut(line: &[u8], long: &[u8]) -> bool {
    let mut short = [BEFORE; 40];
    report::report(line, &mut short) == 40 && long.starts_with(&short)
}

// A line and its report; a report is longer than 40 bytes, and what comes after it is unchanged.
fn case<R: Print>(cases: &mut Cases<'_, R>, line: &str) -> io::Result<()> {
    cases.show(b"comesback ")?;
    cases.show(line.as_bytes())?;
    cases.show(b"\n")?;
    let line = line.as_bytes();
    let mut out = [BEFORE; 1024];
    let n = report::report(line, &mut out);
    cases.show(&out[..n])?;
    let unchanged = out[n..].iter().all(|b| *b == BEFORE);
    cases.case("report", unchanged && cut(line, &out))
}

// Every line.
pub(crate) fn run<R: Print>(cases: &mut Cases<'_, R>) -> io::Result<()> {
    for line in &LINES {
        case(cases, line)?;
    }
    Ok(())
}
