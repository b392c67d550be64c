// Replays the fixed list of an oracle's answers: each line's operation is done by our own function,
// and what that answers is compared bit for bit with what the line says.
#![tactic(auto)]

mod answer;
mod arithmetic;
mod builders;
mod inverse;
mod line;
mod list;
mod moves;
mod outcome;
mod places;
mod report;
mod rotations;
mod table;
mod tally;
mod vectors;
mod whole_numbers;
mod words;

ghost use Rattle.std.specs.Prelude.{◌≤◌, length, IfOk};

use line::replayed;
use std::io;
use std::io::Read;
use tally::Tally;

// How many bytes of the list are read at most; a list of as many is too long.
const LENGTH: usize = 2097152;

// Reads the list from the standard input, and writes the report. The room is an array that is lent on: an `ArrayVec` of as many bytes is
// moved once as it is made, and so takes twice the stack in what Rattle's own compiler builds.
fn main(rt: HostRuntime) -> io::Result<()> {
    let mut room = [0u8; LENGTH];
    in_array(&rt, &mut room)
}

// The same, with room for the list. A step of its own: the check of a slice whose length is so large a number has no end.
fn in_array(rt: &(impl Input + Print), room: &mut [u8; LENGTH]) -> io::Result<()> {
    in_slice(rt, room)
}

// The same, in room of any length.
fn in_slice(rt: &(impl Input + Print), room: &mut [u8]) -> io::Result<()> {
    let n = read_full(rt, room)?;
    if n == room.len() {
        return println!(rt; "the list is too long");
    }
    report::report(rt, &counted(&room[..n]))
}

// Reads until the room is full or the input ends: how many bytes there are.
fn read_full(rt: &impl Input, room: &mut [u8]) -> io::Result<usize>
    ensures { IfOk result (λ n. n ≤ length room.new) }
{
    let mut input = rt.reader();
    let mut n = 0;
    // A count that is never reached, since every loop has to end.
    for _ in 0..u64::MAX {
        let got = input.read(&mut room[n..])?;
        if got == 0 {
            return Ok(n);
        }
        n += got;
    }
    Ok(n)
}

// What the lines come to, without those that are empty or a comment.
fn counted(text: &[u8]) -> Tally {
    let mut tally = Tally::new();
    for line in text.split(|b| *b == b'\n') {
        if !line.is_empty() && !line.starts_with(b"#") {
            tally.add(replayed(line));
        }
    }
    tally
}
