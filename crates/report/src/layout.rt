// The report of a matrix: its rows, its signed sum, and its inverse or refusal 2.
ghost use Rattle.std.specs.Prelude.{◌<◌, ◌++◌};
ghost use Rattle.report.specs.Text.{text as text_text};
ghost use Rattle.report.specs.Written.{Adds};
ghost use Rattle.report.specs.Grid.{size, order_in, matrix_in};
ghost use Rattle.report.specs.Report.{row_of, rows_of, exactness as report_exactness, comes_back, refusal2 as report_refusal2, inverse_report, matrix_report};
ghost use Rattle.report.specs.Shown.{shown_cell, shown_row, shown_rows};
ghost use Rattle.report.specs.Verdict.{sum_line};

use crate::grid::{Grid, Order};
use crate::write::Page;
use crate::{ask, fraction};

// What the cells show: the matrix, or its inverse, whose entries are cofactors over this signed sum.
#[derive(Clone, Copy, Debug, PartialEq, Eq)]
enum Shown {
    Matrix,
    Inverse(i64),
}

// A cell, after a space.
fn cell(page: &mut Page, grid: &Grid, shown: Shown, c: usize, r: usize)
    requires { (c < order_in grid.now) × (r < order_in grid.now) }
    ensures { Adds page.old (text_text " " ++ shown_cell shown grid.now c r) page.new }
{
    page.text(b" ");
    match shown {
        Shown::Matrix => page.whole(grid.entry(c, r)),
        Shown::Inverse(sum) => fraction::fraction(page, ask::cofactor(grid, r, c), sum),
    }
}

// A row.
fn row(page: &mut Page, grid: &Grid, shown: Shown, r: usize)
    requires { r < order_in grid.now }
    ensures { Adds page.old (shown_row shown grid.now r) page.new }
{
    for c in 0..grid.order.size() {
        cell(page, grid, shown, c, r);
    }
    page.text(b"\n");
}

// Every row.
fn rows(page: &mut Page, grid: &Grid, shown: Shown)
    ensures { Adds page.old (shown_rows shown grid.now) page.new }
{
    for r in 0..grid.order.size() {
        row(page, grid, shown, r);
    }
}

// Whether the inverse is exact: the answer is what is told, and no step to run.
fn exactness(page: &mut Page, exact: bool)
    ensures { Adds page.old (report_exactness exact) page.new }
{
    if exact {
        page.text(b"the inverse is exact, since the sum is plus or minus a power of two:\n");
    } else {
        page.text(
            b"the inverse is not exact, since the sum is not plus or minus a power of two; as fractions:\n",
        );
    }
}

// Whether what a matrix of the order moves comes back: `exact` is what is told.
fn comes_back(page: &mut Page, order: Order, exact: bool)
    ensures { Adds page.old (comes_back (size order) exact) page.new }
{
    if !exact {
        page.text(b"what it moves need not come back exactly, since the inverse is rounded\n");
    } else if order == Order::Four {
        page.text(b"what it moves comes back exactly: every whole vector with entries up to 64\n");
    } else {
        page.text(
            b"what it moves comes back exactly: every whole vector with entries up to 32768\n",
        );
    }
}

// The inverse over this sum, and whether what the matrix moves comes back.
fn inverse(page: &mut Page, grid: &Grid, sum: i64)
    ensures { Adds page.old (inverse_report (order_in grid.now) (matrix_in grid.now) sum) page.new }
{
    let exact = engine::one_bit(engine::magnitude(sum));
    exactness(page, exact);
    rows(page, grid, Shown::Inverse(sum));
    comes_back(page, grid.order, exact);
}

// Refusal 2.
fn refusal2(page: &mut Page)
    ensures { Adds page.old report_refusal2 page.new }
{
    page.text(b"refusal 2: the signed sum is zero, so there is no inverse\n");
}

// The verdict on a matrix with this sum: refusal 2, or whether what it moves comes back.
pub(crate) fn sum_line(page: &mut Page, order: Order, sum: i64)
    ensures { Adds page.old (sum_line (size order) sum) page.new }
{
    if sum == 0 {
        refusal2(page);
    } else {
        comes_back(page, order, engine::one_bit(engine::magnitude(sum)));
    }
}

// The matrix and its signed sum, then refusal 2 or the inverse.
pub(crate) fn matrix(page: &mut Page, grid: &Grid)
    ensures { Adds page.old (matrix_report (order_in grid.now) (matrix_in grid.now)) page.new }
{
    let sum = ask::signed_sum(grid);
    page.text(b"the matrix, from entries given column by column:\n");
    rows(page, grid, Shown::Matrix);
    page.text(b"its signed sum: ");
    page.whole(sum);
    page.text(b"\n");
    if sum == 0 {
        refusal2(page);
    } else {
        inverse(page, grid, sum);
    }
}
