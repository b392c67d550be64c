// Sums, scalar forms and products of flat matrices.
ghost use Rattle.std.specs.Prelude.{length};
ghost use Rattle.migthumo.specs.Entries.{Answers};
ghost use Rattle.migthumo.specs.Boundary.{product, add, subtract, scale, divide, scale_by, divide_by, negate};

use crate::{code, entry};
use matrix::{Matrix2, Matrix3, Matrix4, SquareMatrix};
use vector::{Refusal, VectorSpace};

// The product a times b.
#[unsafe(no_mangle)]
pub extern "C" fn migthumo_product(order: usize, a: &[f64], b: &[f64], out: &mut [f64]) -> u32
    ensures { Answers result out.old out.new (product order a.now b.now (length out.old)) }
{
    code::answered(match order {
        2 => entry::of_two(a, b, out, |a: Matrix2, b: Matrix2| Ok(a.mul(b))),
        3 => entry::of_two(a, b, out, |a: Matrix3, b: Matrix3| Ok(a.mul(b))),
        4 => entry::of_two(a, b, out, |a: Matrix4, b: Matrix4| Ok(a.mul(b))),
        _ => Err(Refusal::Order),
    })
}

// The sum, entry by entry.
#[unsafe(no_mangle)]
pub extern "C" fn migthumo_add(order: usize, a: &[f64], b: &[f64], out: &mut [f64]) -> u32
    ensures { Answers result out.old out.new (add order a.now b.now (length out.old)) }
{
    code::answered(match order {
        2 => entry::of_two(a, b, out, |a: Matrix2, b: Matrix2| Ok(a.add(b))),
        3 => entry::of_two(a, b, out, |a: Matrix3, b: Matrix3| Ok(a.add(b))),
        4 => entry::of_two(a, b, out, |a: Matrix4, b: Matrix4| Ok(a.add(b))),
        _ => Err(Refusal::Order),
    })
}

// The difference a less b, entry by entry.
#[unsafe(no_mangle)]
pub extern "C" fn migthumo_subtract(order: usize, a: &[f64], b: &[f64], out: &mut [f64]) -> u32
    ensures { Answers result out.old out.new (subtract order a.now b.now (length out.old)) }
{
    code::answered(match order {
        2 => entry::of_two(a, b, out, |a: Matrix2, b: Matrix2| Ok(a.sub(b))),
        3 => entry::of_two(a, b, out, |a: Matrix3, b: Matrix3| Ok(a.sub(b))),
        4 => entry::of_two(a, b, out, |a: Matrix4, b: Matrix4| Ok(a.sub(b))),
        _ => Err(Refusal::Order),
    })
}

// The scalar, on the left, times the matrix.
#[unsafe(no_mangle)]
pub extern "C" fn migthumo_scale(order: usize, s: f64, m: &[f64], out: &mut [f64]) -> u32
    ensures { Answers result out.old out.new (scale order s m.now (length out.old)) }
{
    code::answered(match order {
        2 => entry::of_one(m, out, |m: Matrix2| Ok(m.scalar_mul(s))),
        3 => entry::of_one(m, out, |m: Matrix3| Ok(m.scalar_mul(s))),
        4 => entry::of_one(m, out, |m: Matrix4| Ok(m.scalar_mul(s))),
        _ => Err(Refusal::Order),
    })
}

// The scalar, on the left, divided by each entry.
#[unsafe(no_mangle)]
pub extern "C" fn migthumo_divide(order: usize, s: f64, m: &[f64], out: &mut [f64]) -> u32
    ensures { Answers result out.old out.new (divide order s m.now (length out.old)) }
{
    code::answered(match order {
        2 => entry::of_one(m, out, |m: Matrix2| Ok(m.scalar_div(s))),
        3 => entry::of_one(m, out, |m: Matrix3| Ok(m.scalar_div(s))),
        4 => entry::of_one(m, out, |m: Matrix4| Ok(m.scalar_div(s))),
        _ => Err(Refusal::Order),
    })
}

// The matrix times the scalar, on the right.
#[unsafe(no_mangle)]
pub extern "C" fn migthumo_scale_by(order: usize, m: &[f64], s: f64, out: &mut [f64]) -> u32
    ensures { Answers result out.old out.new (scale_by order m.now s (length out.old)) }
{
    code::answered(match order {
        2 => entry::of_one(m, out, |m: Matrix2| Ok(m.mul_scalar(s))),
        3 => entry::of_one(m, out, |m: Matrix3| Ok(m.mul_scalar(s))),
        4 => entry::of_one(m, out, |m: Matrix4| Ok(m.mul_scalar(s))),
        _ => Err(Refusal::Order),
    })
}

// Each entry divided by the scalar, on the right.
#[unsafe(no_mangle)]
pub extern "C" fn migthumo_divide_by(order: usize, m: &[f64], s: f64, out: &mut [f64]) -> u32
    ensures { Answers result out.old out.new (divide_by order m.now s (length out.old)) }
{
    code::answered(match order {
        2 => entry::of_one(m, out, |m: Matrix2| Ok(m.div_scalar(s))),
        3 => entry::of_one(m, out, |m: Matrix3| Ok(m.div_scalar(s))),
        4 => entry::of_one(m, out, |m: Matrix4| Ok(m.div_scalar(s))),
        _ => Err(Refusal::Order),
    })
}

// Every sign turned.
#[unsafe(no_mangle)]
pub extern "C" fn migthumo_negate(order: usize, m: &[f64], out: &mut [f64]) -> u32
    ensures { Answers result out.old out.new (negate order m.now (length out.old)) }
{
    code::answered(match order {
        2 => entry::of_one(m, out, |m: Matrix2| Ok(m.neg())),
        3 => entry::of_one(m, out, |m: Matrix3| Ok(m.neg())),
        4 => entry::of_one(m, out, |m: Matrix4| Ok(m.neg())),
        _ => Err(Refusal::Order),
    })
}
