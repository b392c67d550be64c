// The exact engine on a flat matrix of whole numbers, each of magnitude at most 1024; refusal 6 otherwise.
ghost use Rattle.std.specs.Prelude.{length};
ghost use Rattle.migthumo.specs.Entries.{Answers};
ghost use Rattle.migthumo.specs.Boundary.{signed_sum, undoable};

use crate::{code, entry};
use engine;
use matrix::{Matrix2, Matrix3, Matrix4};
use vector::Refusal;

// The signed sum over all column orders, into an output of one whole number.
#[unsafe(no_mangle)]
pub extern "C" fn migthumo_signed_sum(order: usize, m: &[f64], out: &mut [i64]) -> u32
    ensures { Answers result out.old out.new (signed_sum order m.now (length out.old)) }
{
    code::answered(match order {
        2 => entry::of_one(m, out, |m: Matrix2| engine::signed_sum(m)),
        3 => entry::of_one(m, out, |m: Matrix3| engine::signed_sum(m)),
        4 => entry::of_one(m, out, |m: Matrix4| engine::signed_sum(m)),
        _ => Err(Refusal::Order),
    })
}

// Whether the sum is undoable, 1 or 0, into an output of one byte.
#[unsafe(no_mangle)]
pub extern "C" fn migthumo_undoable(order: usize, m: &[f64], out: &mut [u8]) -> u32
    ensures { Answers result out.old out.new (undoable order m.now (length out.old)) }
{
    code::answered(match order {
        2 => entry::of_one(m, out, |m: Matrix2| engine::undoable(m)),
        3 => entry::of_one(m, out, |m: Matrix3| engine::undoable(m)),
        4 => entry::of_one(m, out, |m: Matrix4| engine::undoable(m)),
        _ => Err(Refusal::Order),
    })
}
