// Determinant and inverse of a flat matrix. The exports.
ghost use Rattle.std.specs.Prelude.{length};
ghost use Rattle.migthumo.specs.Entries.{Answers};
ghost use Rattle.migthumo.specs.Boundary.{determinant, invert};

// The determinant, into an output of one number.
#[unsafe(no_mangle)]
pub extern "C" fn migthumo_determinant(order: usize, m: &[f64], out: &mut [f64]) -> u32
    ensures { Answers result out.old out.new (determinant order m.now (length out.old)) }
{
    migthumo::inverse::migthumo_determinant(order, m, out)
}

// The inverse, or refusal 2 where the float determinant compares equal to zero.
#[unsafe(no_mangle)]
pub extern "C" fn migthumo_invert(order: usize, m: &[f64], out: &mut [f64]) -> u32
    ensures { Answers result out.old out.new (invert order m.now (length out.old)) }
{
    migthumo::inverse::migthumo_invert(order, m, out)
}
