// Component records of OpenType glyf composites, read into matrices: document 02, No. 2, 'Read component records'.
// The answer equals its definition in specs/; the public function does not rely on its caller.
#![tactic(auto)]

mod bytes;
pub mod fault;
mod flags;
pub mod numbers;
mod record;

ghost use Rattle.std.specs.Prelude.{◌≡◌};
ghost use Rattle.component.specs.Fault.{outcome};
ghost use Rattle.component.specs.Record.{read_component};

pub use fault::Fault;
use flags::Flags;
use matrix::Matrix3;
use record::Record;

// One component: which glyph is borrowed, and through which matrix.
#[derive(Clone, Copy, Debug, PartialEq)]
pub struct Component {
    // The flags as they stand in the record.
    pub flags: u16,
    // The glyph that is borrowed.
    pub index: u16,
    // The place after the record.
    pub after: usize,
    // What moves a point of that glyph, in font units.
    pub matrix: Matrix3,
}

// The component at a place of the bytes: refusal 20 where they end inside the flags, 21, 22, then 20 where they end inside the rest.
#[tactic(auto, using(crate::proofs::Same::placed, crate::proofs::Same::first), unfolding(crate::specs::Record::read_component))]
pub fn read(bytes: &[u8], at: usize) -> Result<Component, Fault>
    ensures { outcome result ≡ read_component bytes.now at }
{
    let rest = bytes::from(bytes, at, 2)?;
    let flags = Flags(bytes::word([rest[0], rest[1]]));
    flags.check()?;
    let bytes = bytes::from(bytes, at, flags.size())?;
    let record = Record { flags, bytes };
    Ok(Component {
        flags: flags.0,
        index: record.index(),
        after: at + flags.size(),
        matrix: record.matrix(),
    })
}
