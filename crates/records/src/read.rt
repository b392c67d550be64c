// The numbers that words of a line write. Each byte counts as a digit, whatever it is, where the library's parsing and its crate hex refuse it.
ghost use Rattle.std.specs.Prelude.{◌≤◌, length};

// The decimal number of a word; one of more than 64 bits is cut.
pub(crate) fn decimal(word: &[u8]) -> usize {
    word.iter().fold(0, |n: usize, b| {
        (n % 1844674407370955162 * 10).wrapping_add(usize::from(*b % 16))
    })
}

// The value of a hexadecimal digit.
fn digit(b: u8) -> u8
    ensures { result ≤ 15 }
{
    if b <= b'9' { b % 16 } else { (b % 16 + 9) % 16 }
}

// The bytes of a word of hexadecimal digits, two to a byte, as many as there is room for.
pub(crate) fn hexadecimal<'a>(word: &[u8], room: &'a mut [u8]) -> &'a [u8]
    ensures { length result.now ≤ length room.old }
{
    let n = room.len().min(word.len() / 2);
    for (byte, pair) in room.iter_mut().zip(word.chunks_exact(2)) {
        if let [high, low] = pair {
            *byte = digit(*high) * 16 + digit(*low);
        }
    }
    &room[..n]
}
