// comesback: whether what a matrix moves comes back. With words, the report of one matrix; with none, one verdict for each line of standard input, then the totals.
// What is said is decided in the library `report`, whose promises say what it is; this program carries bytes there and back.
#![tactic(auto)]

mod arguments;
mod line;
mod lines;
mod output;

use std::io;

fn main(rt: HostRuntime) -> io::Result<()> {
    if arguments::count(&rt) > 1 {
        arguments::answer(&rt)
    } else {
        lines::answer(&rt)
    }
}
