// Determinant and inverse of a flat matrix.
ghost use Rattle.std.specs.Prelude.{length};
ghost use Rattle.migthumo.specs.Entries.{Answers};
ghost use Rattle.migthumo.specs.Boundary.{determinant, invert};

use crate::{code, entry};
use matrix::{Invert, Matrix2, Matrix3, Matrix4};
use vector::Refusal;

// The determinant, into an output of one number.
#[unsafe(no_mangle)]
pub extern "C" fn migthumo_determinant(order: usize, m: &[f64], out: &mut [f64]) -> u32
    ensures { Answers result out.old out.new (determinant order m.now (length out.old)) }
{
    code::answered(match order {
        2 => entry::of_one(m, out, |m: Matrix2| Ok(m.determinant())),
        3 => entry::of_one(m, out, |m: Matrix3| Ok(m.determinant())),
        4 => entry::of_one(m, out, |m: Matrix4| Ok(m.determinant())),
        _ => Err(Refusal::Order),
    })
}

// The inverse, or refusal 2 where the float determinant compares equal to zero.
#[unsafe(no_mangle)]
pub extern "C" fn migthumo_invert(order: usize, m: &[f64], out: &mut [f64]) -> u32
    ensures { Answers result out.old out.new (invert order m.now (length out.old)) }
{
    code::answered(match order {
        2 => entry::of_one(m, out, |m: Matrix2| m.invert()),
        3 => entry::of_one(m, out, |m: Matrix3| m.invert()),
        4 => entry::of_one(m, out, |m: Matrix4| m.invert()),
        _ => Err(Refusal::Order),
    })
}
