// Embeddings of a flat matrix in a larger one. The exports.
ghost use Rattle.std.specs.Prelude.{length};
ghost use Rattle.migthumo.specs.Entries.{Answers};
ghost use Rattle.migthumo.specs.Boundary.{embed};

// The matrix in the corner of the identity of the order `to`; refusal 5 unless the orders are 2 in 3, 2 in 4 or 3 in 4.
#[unsafe(no_mangle)]
pub extern "C" fn migthumo_embed(order: usize, to: usize, m: &[f64], out: &mut [f64]) -> u32
    ensures { Answers result out.old out.new (embed order to m.now (length out.old)) }
{
    migthumo::records::migthumo_embed(order, to, m, out)
}
