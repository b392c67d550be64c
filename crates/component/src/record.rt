// One component record, all of its bytes there: document 02, No. 2, 'Read component records'.
ghost use Rattle.std.specs.Prelude.{◌≡◌, ◌≤◌, drop, length};
ghost use Rattle.component.specs.Bytes.{word};
ghost use Rattle.component.specs.Record.{offsets_from, scales_from, size, offsets_at, scales_at, matrix_of};

use crate::bytes::{short, tiny, word};
use crate::flags::Flags;
use crate::numbers::{self, Offsets, Scales};
use matrix::Matrix3;

// A record, from its first byte on.
#[derive(Clone, Copy)]
pub(crate) struct Record<'a> {
    // Its flags.
    pub(crate) flags: Flags,
    // The bytes that it begins; others may follow it.
    pub(crate) bytes: &'a [u8],
    // The bytes hold all of the record.
    pub(crate) ghost whole: { size flags.0 ≤ length bytes.now },
}

impl<'a> Record<'a> {
    // The glyph that is borrowed.
    pub(crate) fn index(self) -> u16
        ensures { result ≡ word self.entry.bytes.now 2 }
    {
        word([self.bytes[2], self.bytes[3]])
    }

    // The two offsets, after flags and index: words, else bytes.
    #[tactic(auto, unfolding(crate::specs::Record::offsets_at))]
    fn offsets(self) -> Offsets
        ensures { result ≡ offsets_at self.entry.bytes.now (offsets_from 0) self.entry.flags.0 }
    {
        let b = self.bytes;
        if self.flags.words() {
            Offsets {
                dx: short([b[4], b[5]]),
                dy: short([b[6], b[7]]),
            }
        } else {
            Offsets {
                dx: tiny(b[4]),
                dy: tiny(b[5]),
            }
        }
    }

    // The scales, after the offsets: one, two or four; where there is none, one and zero.
    #[tactic(auto, unfolding(crate::specs::Record::scales_at))]
    fn scales(self) -> Scales
        ensures { result ≡ scales_at (drop (scales_from 0 self.entry.flags.0) self.entry.bytes.now) 0 self.entry.flags.0 }
    {
        let (_, b) = self.bytes.split_at(4 + 2 * self.flags.offset_size());
        if self.flags.one_scale() {
            let scale = short([b[0], b[1]]);
            return Scales {
                xscale: scale,
                scale01: 0,
                scale10: 0,
                yscale: scale,
            };
        }
        if self.flags.two_scales() {
            return Scales {
                xscale: short([b[0], b[1]]),
                scale01: 0,
                scale10: 0,
                yscale: short([b[2], b[3]]),
            };
        }
        if self.flags.four_scales() {
            return Scales {
                xscale: short([b[0], b[1]]),
                scale01: short([b[2], b[3]]),
                scale10: short([b[4], b[5]]),
                yscale: short([b[6], b[7]]),
            };
        }
        Scales {
            xscale: 16384,
            scale01: 0,
            scale10: 0,
            yscale: 16384,
        }
    }

    // What moves a point of that glyph, in font units.
    #[tactic(auto, using(crate::proofs::Same::scales_first))]
    pub(crate) fn matrix(self) -> Matrix3
        ensures { result ≡ matrix_of (scales_at self.entry.bytes.now (scales_from 0 self.entry.flags.0) self.entry.flags.0) (offsets_at self.entry.bytes.now (offsets_from 0) self.entry.flags.0) }
    {
        numbers::matrix_of(self.scales(), self.offsets())
    }
}
