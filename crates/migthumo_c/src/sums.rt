// The exact engine on a flat matrix of whole numbers, each of magnitude at most 1024; refusal 6 otherwise. The exports.
ghost use Rattle.std.specs.Prelude.{length};
ghost use Rattle.migthumo.specs.Entries.{Answers};
ghost use Rattle.migthumo.specs.Boundary.{signed_sum, undoable};

// The signed sum over all column orders, into an output of one whole number.
#[unsafe(no_mangle)]
pub extern "C" fn migthumo_signed_sum(order: usize, m: &[f64], out: &mut [i64]) -> u32
    ensures { Answers result out.old out.new (signed_sum order m.now (length out.old)) }
{
    migthumo::sums::migthumo_signed_sum(order, m, out)
}

// Whether the sum is undoable, 1 or 0, into an output of one byte.
#[unsafe(no_mangle)]
pub extern "C" fn migthumo_undoable(order: usize, m: &[f64], out: &mut [u8]) -> u32
    ensures { Answers result out.old out.new (undoable order m.now (length out.old)) }
{
    migthumo::sums::migthumo_undoable(order, m, out)
}
