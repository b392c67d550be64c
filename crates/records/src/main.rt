// Reads the component records of a table made by hand, and writes what each gives: document 02, No. 2, 'Read component records'.
// The table is standard input, the file stdin beside this folder, which says what its lines hold; the C program and the Rust crate's tests read
// it too. What it expects of a record is not looked at here: the gate compares what is written with the file stdout, and
// tools/components.py that file with the table.
#![tactic(auto)]

mod read;
mod write;

use arrayvec::ArrayVec;
use std::io;
use std::io::Read;

// How many bytes of the table are read at most.
const LENGTH: usize = 65536;

fn main(rt: HostRuntime) -> io::Result<()> {
    let mut table = ArrayVec::<u8, LENGTH>::new();
    io::copy(&mut rt.reader().take(LENGTH as u64), &mut table)?;
    lines(&rt, table.as_slice())
}

// Every line of the table.
fn lines(rt: &impl Print, table: &[u8]) -> io::Result<()> {
    for text in table.split(|b| *b == b'\n') {
        line(rt, text)?;
    }
    Ok(())
}

// One line: a name, a place, the bytes of a record. A line that starts with # holds words for people.
fn line(rt: &impl Print, text: &[u8]) -> io::Result<()> {
    let mut words = text.split(|b| *b == b' ');
    let name = words.next().unwrap_or(b"");
    if name.is_empty() || name.starts_with(b"#") {
        return Ok(());
    }
    let place = read::decimal(words.next().unwrap_or(b""));
    let mut bytes = [0u8; 4096];
    let record = read::hexadecimal(words.next().unwrap_or(b""), &mut bytes);
    rt.write_all(name)?;
    write::answer(rt, component::read(record, place))
}
