// Rotations, the sine s and the cosine c handed in, as flat matrices.
ghost use Rattle.std.specs.Prelude.{length};
ghost use Rattle.vector.specs.Vectors.{vector3};
ghost use Rattle.migthumo.specs.Entries.{Answers};
ghost use Rattle.migthumo.specs.Boundary.{from_angle, from_angle_x, from_angle_y, from_angle_z, from_axis_angle};

use crate::{code, entry};
use matrix::{Matrix2, Matrix3, Matrix4, Rotation};
use vector::{Refusal, Vector3};

// A rotation of the plane: order 2.
#[unsafe(no_mangle)]
pub extern "C" fn migthumo_from_angle(s: f64, c: f64, out: &mut [f64]) -> u32
    ensures { Answers result out.old out.new (from_angle s c (length out.old)) }
{
    code::answered(entry::of_none(out, || Ok(Matrix2::from_angle(s, c))))
}

// A rotation around the x axis: orders 3 and 4.
#[unsafe(no_mangle)]
pub extern "C" fn migthumo_from_angle_x(order: usize, s: f64, c: f64, out: &mut [f64]) -> u32
    ensures { Answers result out.old out.new (from_angle_x order s c (length out.old)) }
{
    code::answered(match order {
        3 => entry::of_none(out, || Ok(Matrix3::from_angle_x(s, c))),
        4 => entry::of_none(out, || Ok(Matrix4::from_angle_x(s, c))),
        _ => Err(Refusal::Order),
    })
}

// A rotation around the y axis: orders 3 and 4.
#[unsafe(no_mangle)]
pub extern "C" fn migthumo_from_angle_y(order: usize, s: f64, c: f64, out: &mut [f64]) -> u32
    ensures { Answers result out.old out.new (from_angle_y order s c (length out.old)) }
{
    code::answered(match order {
        3 => entry::of_none(out, || Ok(Matrix3::from_angle_y(s, c))),
        4 => entry::of_none(out, || Ok(Matrix4::from_angle_y(s, c))),
        _ => Err(Refusal::Order),
    })
}

// A rotation around the z axis: orders 3 and 4.
#[unsafe(no_mangle)]
pub extern "C" fn migthumo_from_angle_z(order: usize, s: f64, c: f64, out: &mut [f64]) -> u32
    ensures { Answers result out.old out.new (from_angle_z order s c (length out.old)) }
{
    code::answered(match order {
        3 => entry::of_none(out, || Ok(Matrix3::from_angle_z(s, c))),
        4 => entry::of_none(out, || Ok(Matrix4::from_angle_z(s, c))),
        _ => Err(Refusal::Order),
    })
}

// A rotation around the axis (x, y, z), which is not checked for length: orders 3 and 4.
#[unsafe(no_mangle)]
pub extern "C" fn migthumo_from_axis_angle(
    order: usize,
    x: f64,
    y: f64,
    z: f64,
    s: f64,
    c: f64,
    out: &mut [f64],
) -> u32
    ensures { Answers result out.old out.new (from_axis_angle order (vector3 x y z) s c (length out.old)) }
{
    code::answered(match order {
        3 => entry::of_none(
            out,
            || Ok(Matrix3::from_axis_angle(Vector3::new(x, y, z), s, c)),
        ),
        4 => entry::of_none(
            out,
            || Ok(Matrix4::from_axis_angle(Vector3::new(x, y, z), s, c)),
        ),
        _ => Err(Refusal::Order),
    })
}
