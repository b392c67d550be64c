// Writes the counts: a line for each operation, then the sums.
use crate::table::{LISTED, Operation};
use crate::tally::{Counts, Tally};
use std::io;

// The whole report.
pub(crate) fn report(rt: &impl Print, tally: &Tally) -> io::Result<()> {
    println!(rt; "operation             order 2 order 3 order 4  differ")?;
    for (operation, name) in &LISTED {
        row(rt, name, tally.of(*operation))?;
    }
    let planted = tally.of(Operation::Planted);
    println!(rt; "total compared        {}", tally.compared_in_all())?;
    println!(rt; "total differ          {}", tally.different_in_all())?;
    println!(rt; "planted compared      {}", planted.compared_in_all())?;
    println!(rt; "planted differ        {}", planted.different)?;
    println!(rt; "lines not read        {}", tally.not_read)?;
    println!(rt; "operations not known  {}", tally.not_known)
}

// An operation's name, its compared lines of each order, and its differing lines, each of which is written behind four spaces.
fn row(rt: &impl Print, name: &str, counts: Counts) -> io::Result<()> {
    let [two, three, four] = counts.compared;
    let differ = counts.different;
    println!(rt; "{name:<21}    {two:>4}    {three:>4}    {four:>4}    {differ:>4}")
}
