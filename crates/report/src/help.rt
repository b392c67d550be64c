// How to use the tool: asked for by the word --help.
ghost use Rattle.std.specs.Prelude.{◌≡◌};
ghost use Rattle.report.specs.Written.{Adds};
ghost use Rattle.report.specs.Words.{some, words, is_help};
ghost use Rattle.report.specs.Report.{help as report_help};

use crate::read::Words;
use crate::write::Page;

// Whether a word is --help.
fn is_help(word: &[u8]) -> bool
    ensures { result ≡ is_help word.now }
{
    word == b"--help".as_slice()
}

// Whether --help is among the words of a line.
pub(crate) fn asked(line: &[u8]) -> bool
    ensures { result ≡ some is_help (words line.now) }
{
    for word in Words::of(line) {
        if is_help(word) {
            return true;
        }
    }
    false
}

// How to use the tool.
pub(crate) fn help(page: &mut Page)
    ensures { Adds page.old report_help page.new }
{
    page.text(
        b"comesback ORDER ENTRY..: the report of one matrix, and whether what it moves comes back\n",
    );
    page.text(
        b"comesback: reads one matrix a line, ORDER ENTRY.., from standard input; answers one verdict a line, then the totals\n",
    );
    page.text(
        b"ORDER is 2, 3 or 4; the entries stand column by column and are whole numbers from -1024 to 1024\n",
    );
    page.text(
        b"entries are plain numbers: who holds scales as whole sixty-fourths holds offsets so too,\n",
    );
    page.text(b"the last row stays 0, 0, 1, and what comes out is in sixty-fourths\n");
}
