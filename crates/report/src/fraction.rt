// A fraction of two whole numbers: its sign, its lowest terms, and its text.
ghost use Rattle.std.specs.Prelude.{◌≡◌, [], pos, ◌*ℤ◌, if◌then◌else◌, int_lt};
ghost use Rattle.report.specs.Text.{text as text_text};
ghost use Rattle.report.specs.Written.{Adds};
ghost use Rattle.report.specs.Report.{gcd as report_gcd, reduced as report_reduced, ratio_text, fraction as report_fraction};

use crate::write::Page;

// Two numbers as a fraction.
#[derive(Clone, Copy, Debug, PartialEq, Eq)]
pub(crate) struct Ratio {
    pub over: u64,
    pub under: u64,
}

// The greatest common divisor, by Euclid's steps: no index is counted, so they are a `while`.
fn gcd(a: u64, b: u64) -> u64
    ensures { result ≡ report_gcd a b }
{
    let mut x = a;
    let mut y = b;
    while y != 0 {
        let rest = x % y;
        x = y;
        y = rest;
    }
    x
}

// In lowest terms. Where both numbers are zero there is nothing to divide by.
fn reduced(a: u64, b: u64) -> Ratio
    ensures { result ≡ report_reduced a b }
{
    let common = gcd(a, b);
    if common == 0 {
        return Ratio { over: a, under: b };
    }
    Ratio {
        over: a / common,
        under: b / common,
    }
}

// A fraction without its sign.
fn unsigned(page: &mut Page, q: Ratio)
    ensures { Adds page.old (ratio_text q) page.new }
{
    page.decimal(q.over);
    if q.under != 1 {
        page.text(b"/");
        page.decimal(q.under);
    }
}

// A minus sign where the fraction is below zero.
fn minus(page: &mut Page, k: i64, s: i64)
    ensures { Adds page.old (if int_lt (k *ℤ s) (pos 0) then text_text "-" else []) page.new }
{
    if k < 0 && 0 < s || 0 < k && s < 0 {
        page.text(b"-");
    }
}

// The fraction k / s.
pub(crate) fn fraction(page: &mut Page, k: i64, s: i64)
    ensures { Adds page.old (report_fraction k s) page.new }
{
    minus(page, k, s);
    unsigned(page, reduced(engine::magnitude(k), engine::magnitude(s)));
}
