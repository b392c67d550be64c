// Sums, scalar forms and products of flat matrices. The exports.
ghost use Rattle.std.specs.Prelude.{length};
ghost use Rattle.migthumo.specs.Entries.{Answers};
ghost use Rattle.migthumo.specs.Boundary.{product, add, subtract, scale, divide, scale_by, divide_by, negate};

// The product a times b.
#[unsafe(no_mangle)]
pub extern "C" fn migthumo_product(order: usize, a: &[f64], b: &[f64], out: &mut [f64]) -> u32
    ensures { Answers result out.old out.new (product order a.now b.now (length out.old)) }
{
    migthumo::arithmetic::migthumo_product(order, a, b, out)
}

// The sum, entry by entry.
#[unsafe(no_mangle)]
pub extern "C" fn migthumo_add(order: usize, a: &[f64], b: &[f64], out: &mut [f64]) -> u32
    ensures { Answers result out.old out.new (add order a.now b.now (length out.old)) }
{
    migthumo::arithmetic::migthumo_add(order, a, b, out)
}

// The difference a less b, entry by entry.
#[unsafe(no_mangle)]
pub extern "C" fn migthumo_subtract(order: usize, a: &[f64], b: &[f64], out: &mut [f64]) -> u32
    ensures { Answers result out.old out.new (subtract order a.now b.now (length out.old)) }
{
    migthumo::arithmetic::migthumo_subtract(order, a, b, out)
}

// The scalar, on the left, times the matrix.
#[unsafe(no_mangle)]
pub extern "C" fn migthumo_scale(order: usize, s: f64, m: &[f64], out: &mut [f64]) -> u32
    ensures { Answers result out.old out.new (scale order s m.now (length out.old)) }
{
    migthumo::arithmetic::migthumo_scale(order, s, m, out)
}

// The scalar, on the left, divided by each entry.
#[unsafe(no_mangle)]
pub extern "C" fn migthumo_divide(order: usize, s: f64, m: &[f64], out: &mut [f64]) -> u32
    ensures { Answers result out.old out.new (divide order s m.now (length out.old)) }
{
    migthumo::arithmetic::migthumo_divide(order, s, m, out)
}

// The matrix times the scalar, on the right.
#[unsafe(no_mangle)]
pub extern "C" fn migthumo_scale_by(order: usize, m: &[f64], s: f64, out: &mut [f64]) -> u32
    ensures { Answers result out.old out.new (scale_by order m.now s (length out.old)) }
{
    migthumo::arithmetic::migthumo_scale_by(order, m, s, out)
}

// Each entry divided by the scalar, on the right.
#[unsafe(no_mangle)]
pub extern "C" fn migthumo_divide_by(order: usize, m: &[f64], s: f64, out: &mut [f64]) -> u32
    ensures { Answers result out.old out.new (divide_by order m.now s (length out.old)) }
{
    migthumo::arithmetic::migthumo_divide_by(order, m, s, out)
}

// Every sign turned.
#[unsafe(no_mangle)]
pub extern "C" fn migthumo_negate(order: usize, m: &[f64], out: &mut [f64]) -> u32
    ensures { Answers result out.old out.new (negate order m.now (length out.old)) }
{
    migthumo::arithmetic::migthumo_negate(order, m, out)
}
