// Words put one after another into a line, as `report` reads it.
ghost use Rattle.std.specs.Prelude.{◌≡◌, ◌+◌, ◌≤◌, min, [], ◌∷◌, ◌++◌, length, take};
ghost use Rattle.std.proofs.lemmas.List.Edits.{sets};

use crate::write::Page;

// A word and a blank after it, from a place of the line on: the slice and the place are what is promised of. The answer is the next place, or the line's length where there was not room for both.
pub fn add_word(line: &mut [u8], at: usize, word: &[u8]) -> usize
    ensures answers { result ≡ min (length line.old) (at + (length word.now + 1)) }
    ensures within { (result ≤ length line.new) × (result ≡ length (take result line.new)) }
    ensures writes { line.new ≡ sets line.old at (word.now ++ (32 ∷ [])) }
{
    if line.len() < at {
        return line.len();
    }
    let mut page = Page { out: line, at };
    page.text(word);
    page.text(b" ");
    page.at
}
