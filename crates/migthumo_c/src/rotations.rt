// Rotations, the sine s and the cosine c handed in, as flat matrices. The exports.
ghost use Rattle.std.specs.Prelude.{length};
ghost use Rattle.vector.specs.Vectors.{vector3};
ghost use Rattle.migthumo.specs.Entries.{Answers};
ghost use Rattle.migthumo.specs.Boundary.{from_angle, from_angle_x, from_angle_y, from_angle_z, from_axis_angle};

// A rotation of the plane: order 2.
#[unsafe(no_mangle)]
pub extern "C" fn migthumo_from_angle(s: f64, c: f64, out: &mut [f64]) -> u32
    ensures { Answers result out.old out.new (from_angle s c (length out.old)) }
{
    migthumo::rotations::migthumo_from_angle(s, c, out)
}

// A rotation around the x axis: orders 3 and 4.
#[unsafe(no_mangle)]
pub extern "C" fn migthumo_from_angle_x(order: usize, s: f64, c: f64, out: &mut [f64]) -> u32
    ensures { Answers result out.old out.new (from_angle_x order s c (length out.old)) }
{
    migthumo::rotations::migthumo_from_angle_x(order, s, c, out)
}

// A rotation around the y axis: orders 3 and 4.
#[unsafe(no_mangle)]
pub extern "C" fn migthumo_from_angle_y(order: usize, s: f64, c: f64, out: &mut [f64]) -> u32
    ensures { Answers result out.old out.new (from_angle_y order s c (length out.old)) }
{
    migthumo::rotations::migthumo_from_angle_y(order, s, c, out)
}

// A rotation around the z axis: orders 3 and 4.
#[unsafe(no_mangle)]
pub extern "C" fn migthumo_from_angle_z(order: usize, s: f64, c: f64, out: &mut [f64]) -> u32
    ensures { Answers result out.old out.new (from_angle_z order s c (length out.old)) }
{
    migthumo::rotations::migthumo_from_angle_z(order, s, c, out)
}

// A rotation around the axis (x, y, z), which is not checked for length: orders 3 and 4.
#[unsafe(no_mangle)]
pub extern "C" fn migthumo_from_axis_angle(
    order: usize,
    x: f64,
    y: f64,
    z: f64,
    s: f64,
    c: f64,
    out: &mut [f64],
) -> u32
    ensures { Answers result out.old out.new (from_axis_angle order (vector3 x y z) s c (length out.old)) }
{
    migthumo::rotations::migthumo_from_axis_angle(order, x, y, z, s, c, out)
}
