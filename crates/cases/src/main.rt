// Runs what document 01, 'Reference cases, both sides of each edge', wants run and what the list of `replay` can't hold: constants, magnitudes, the way
// there and back, every refusal of a bulk move, reports. Expected values come from there or are worked out by hand, on numbers where every step is exact.
#![tactic(auto)]

mod constants;
mod count;
mod inverse;
mod magnitudes;
mod moves;
mod reports;

use count::Cases;
use std::io;

fn main(rt: HostRuntime) -> io::Result<()> {
    let mut cases = Cases::new(&rt);
    constants::run(&mut cases)?;
    magnitudes::run(&mut cases)?;
    inverse::run(&mut cases)?;
    moves::run(&mut cases)?;
    reports::run(&mut cases)?;
    cases.print()
}
