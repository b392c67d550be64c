// The kinds of verdict, and how many lines had each.
ghost use Rattle.std.specs.Prelude.{◌≡◌, ◌++◌};
ghost use Rattle.report.specs.Text.{decimal};
ghost use Rattle.report.specs.Written.{Adds};
ghost use Rattle.report.specs.Verdict.{more as verdict_more, none as verdict_none, counted as verdict_counted, sums_text, totals_text};

use crate::write::Page;

// What is said of a line: what the matrix moves comes back exactly, it need not, refusal 2, refusal 6, or the line is no matrix.
#[derive(Clone, Copy, Debug, PartialEq, Eq)]
pub enum Verdict {
    ComesBack,
    Rounded,
    Singular,
    NotWhole,
    NotRead,
}

// How many lines there were, and how many of each kind.
#[derive(Clone, Copy, Debug, PartialEq, Eq)]
pub struct Totals {
    pub lines: u64,
    pub back: u64,
    pub rounded: u64,
    pub singular: u64,
    pub outside: u64,
    pub unread: u64,
}

// One more, as far as 64 bits count.
fn more(n: u64) -> u64
    ensures { result ≡ verdict_more n }
{
    n.saturating_add(1)
}

// A number and a text before it.
fn labelled(page: &mut Page, label: &[u8], n: u64)
    ensures { Adds page.old (label.now ++ decimal n) page.new }
{
    page.text(label);
    page.decimal(n);
}

impl Totals {
    // No line so far. The numbers are written out, as the promise names them: a Default would be a second way to the same value.
    pub fn none() -> Totals
        ensures { result ≡ verdict_none }
    {
        Totals {
            lines: 0,
            back: 0,
            rounded: 0,
            singular: 0,
            outside: 0,
            unread: 0,
        }
    }

    // A verdict more.
    pub fn counted(self, verdict: Verdict) -> Totals
        ensures { result ≡ verdict_counted self verdict }
    {
        let mut totals = self;
        totals.lines = more(totals.lines);
        match verdict {
            Verdict::ComesBack => totals.back = more(totals.back),
            Verdict::Rounded => totals.rounded = more(totals.rounded),
            Verdict::Singular => totals.singular = more(totals.singular),
            Verdict::NotWhole => totals.outside = more(totals.outside),
            Verdict::NotRead => totals.unread = more(totals.unread),
        }
        totals
    }
}

// The lines, those that come back, and those that need not.
fn sums(page: &mut Page, totals: Totals)
    ensures { Adds page.old (sums_text totals) page.new }
{
    labelled(page, b"lines: ", totals.lines);
    labelled(page, b"; come back exactly: ", totals.back);
    labelled(page, b"; need not: ", totals.rounded);
}

// The totals as a line.
pub(crate) fn line(page: &mut Page, totals: Totals)
    ensures { Adds page.old (totals_text totals) page.new }
{
    sums(page, totals);
    labelled(page, b"; refusal 2: ", totals.singular);
    labelled(page, b"; refusal 6: ", totals.outside);
    labelled(page, b"; not read: ", totals.unread);
    page.text(b"\n");
}
