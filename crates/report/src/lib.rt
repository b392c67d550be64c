// The report of a matrix that a person gives in words: its signed sum, its inverse, and whether what it moves comes back;
// one verdict for a line of many, and the totals. Each function equals its definition in specs/ on every line of bytes; none relies on its caller.
#![tactic(auto)]

mod ask;
mod fraction;
mod grid;
mod help;
mod layout;
mod line;
mod read;
mod totals;
mod words;
mod write;

ghost use Rattle.std.specs.Prelude.{◌≡◌, ◌<◌, ◌≤◌, min, length, take, Err};
ghost use Rattle.report.specs.Written.{Adds};
ghost use Rattle.report.specs.Grid.{size};
ghost use Rattle.report.specs.Line.{meant, line_of};
ghost use Rattle.report.specs.Report.{refusal6, order_expected, entries_expected, told, report_of, at_start};
ghost use Rattle.report.specs.Verdict.{sum_verdict, verdict_in, verdict_text, totals_text};

use grid::Order;
use line::Fault;
pub use totals::{Totals, Verdict};
pub use words::add_word;
use write::Page;

// What was expected after the order.
fn entries_expected(page: &mut Page, order: Order)
    ensures { Adds page.old (entries_expected (size order)) page.new }
{
    let n = order.size();
    page.text(b"expected ");
    page.decimal((n * n) as u64);
    page.text(b" whole numbers after the order, column by column\n");
}

// What was expected in front.
fn order_expected(page: &mut Page)
    ensures { Adds page.old order_expected page.new }
{
    page.text(b"expected an order first, 2, 3 or 4, then the entries column by column\n");
}

// Refusal 6, of the entry at a place of the list.
fn not_whole(page: &mut Page, order: Order, place: usize)
    ensures { Adds page.old (refusal6 (size order) place) page.new }
{
    let n = order.size();
    page.text(b"refusal 6: the entry at column ");
    page.decimal((place / n) as u64);
    page.text(b", row ");
    page.decimal((place % n) as u64);
    page.text(b" (both counted from 0) is not a whole number of magnitude at most 1024\n");
}

// What is wrong with a line: it is told in full by a verdict too.
fn tell_fault(page: &mut Page, fault: Fault)
    ensures { Adds page.old (verdict_text (meant (Err fault))) page.new }
{
    match fault {
        Fault::NoOrder => order_expected(page),
        Fault::OtherCount(order) => entries_expected(page, order),
        Fault::NotWhole(order, place) => not_whole(page, order, place),
    }
}

// The report of a line, or how to use the tool.
fn words_report(page: &mut Page, line: &[u8])
    ensures { Adds page.old (report_of line.now) page.new }
{
    if help::asked(line) {
        help::help(page);
        return;
    }
    match line::read_line(line) {
        Ok(grid) => layout::matrix(page, &grid),
        Err(fault) => tell_fault(page, fault),
    }
}

// The verdict on a line.
fn verdict_report(page: &mut Page, line: &[u8])
    ensures { Adds page.old (verdict_text (line_of line.now)) page.new }
{
    match line::read_line(line) {
        Ok(grid) => layout::sum_line(page, grid.order, ask::signed_sum(&grid)),
        Err(fault) => tell_fault(page, fault),
    }
}

// The kind of verdict on a matrix with this sum.
#[tactic(auto, using(crate::proofs::Whole::is_singular, crate::proofs::Whole::is_back, crate::proofs::Whole::is_rounded))]
fn sum_verdict(sum: i64) -> Verdict
    ensures { result ≡ sum_verdict sum }
{
    if sum == 0 {
        return Verdict::Singular;
    }
    if engine::one_bit(engine::magnitude(sum)) {
        return Verdict::ComesBack;
    }
    Verdict::Rounded
}

// The kind of verdict on what is wrong with a line.
fn fault_verdict(fault: Fault) -> Verdict
    ensures { result ≡ verdict_in (meant (Err fault)) }
{
    match fault {
        Fault::NoOrder => Verdict::NotRead,
        Fault::OtherCount(_) => Verdict::NotRead,
        Fault::NotWhole(..) => Verdict::NotWhole,
    }
}

// The report of a line, an order and then entries column by column, as much of it as the output has room for; where --help is among its words, how to use the tool.
// The answer is how many bytes that is; the rest of the output is unchanged. `within` follows from the other two: with it a caller may lend those bytes without a proof.
pub fn report(line: &[u8], out: &mut [u8]) -> usize
    ensures answers { result ≡ min (length out.old) (length (report_of line.now)) }
    ensures within { (result ≤ length out.new) × (result ≡ length (take result out.new)) }
    ensures writes { out.new ≡ at_start out.old (report_of line.now) }
{
    let mut page = Page::new(out);
    words_report(&mut page, line);
    page.at
}

// The kind of verdict on a line.
pub fn verdict_of(line: &[u8]) -> Verdict
    ensures { result ≡ verdict_in (line_of line.now) }
{
    match line::read_line(line) {
        Ok(grid) => sum_verdict(ask::signed_sum(&grid)),
        Err(fault) => fault_verdict(fault),
    }
}

// The verdict on a line in one line, which is the last of its report; as much of it as the output has room for, as `report` writes.
pub fn verdict_line(line: &[u8], out: &mut [u8]) -> usize
    ensures answers { result ≡ min (length out.old) (length (verdict_text (line_of line.now))) }
    ensures within { (result ≤ length out.new) × (result ≡ length (take result out.new)) }
    ensures writes { out.new ≡ at_start out.old (verdict_text (line_of line.now)) }
{
    let mut page = Page::new(out);
    verdict_report(&mut page, line);
    page.at
}

// The totals in one line; as much of it as the output has room for, as `report` writes.
pub fn totals_line(totals: Totals, out: &mut [u8]) -> usize
    ensures answers { result ≡ min (length out.old) (length (totals_text totals)) }
    ensures within { (result ≤ length out.new) × (result ≡ length (take result out.new)) }
    ensures writes { out.new ≡ at_start out.old (totals_text totals) }
{
    let mut page = Page::new(out);
    totals::line(&mut page, totals);
    page.at
}
