// What a record gives, on one line: 0, its flags in hexadecimal, glyph index, place after it, and the nine entries of its matrix, column by
// column, each as its 64-bit pattern; or the number of the refusal.
use component::{Component, Fault};
use matrix::Matrix;
use std::io;

// What it gives.
pub(crate) fn answer(rt: &impl Print, found: Result<Component, Fault>) -> io::Result<()> {
    match found {
        Err(fault) => print!(rt; " {}", fault.number())?,
        Ok(c) => given(rt, c)?,
    }
    println!(rt; "")
}

// A component.
fn given(rt: &impl Print, c: Component) -> io::Result<()> {
    print!(rt; " 0 0x{:04x} {} {}", c.flags, c.index, c.after)?;
    for x in c.matrix.into_array().as_flattened() {
        print!(rt; " {:016x}", bits::pattern(*x))?;
    }
    Ok(())
}
