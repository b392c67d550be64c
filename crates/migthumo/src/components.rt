// Component records of a font: document 02, No. 2, 'Read component records'.
ghost use Rattle.std.specs.Prelude.{length};
ghost use Rattle.migthumo.specs.Entries.{Answers};
ghost use Rattle.migthumo.specs.Boundary.{read_component};

use crate::code;
use crate::store::Store;
use component;
use vector::Refusal;

// The component at a place of the bytes: flags, glyph index and the place after the record into `head`, of three numbers,
// its matrix into `m`, of nine; refusal 4 for either length, then 20, 21, 22, 20.
#[unsafe(no_mangle)]
pub extern "C" fn migthumo_read_component(
    bytes: &[u8],
    at: usize,
    head: &mut [usize],
    m: &mut [f64],
) -> u32
    ensures { Answers result (head.old, m.old) (head.new, m.new) (read_component bytes.now at (length head.old) (length m.old)) }
{
    if head.len() != 3 {
        return Refusal::OutputLength.number();
    }
    if m.len() != 9 {
        return Refusal::OutputLength.number();
    }
    match component::read(bytes, at) {
        Err(fault) => code::of_fault(fault),
        Ok(found) => {
            head.copy_from_slice(&[
                usize::from(found.flags),
                usize::from(found.index),
                found.after,
            ]);
            found.matrix.put(m);
            0
        }
    }
}
