// What is printed.
use std::io;

// Bytes to standard output.
pub(crate) fn put(rt: &impl Print, bytes: &[u8]) -> io::Result<()> {
    rt.write_all(bytes)
}
