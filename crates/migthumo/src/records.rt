// Embeddings of a flat matrix in a larger one.
ghost use Rattle.std.specs.Prelude.{◌≡◌, length};
ghost use Rattle.vector.specs.Refusals.{outcome};
ghost use Rattle.migthumo.specs.Made.{Left};
ghost use Rattle.migthumo.specs.Entries.{Answers, orders_embed};
ghost use Rattle.migthumo.specs.Boundary.{embed};

use crate::{code, entry};
use matrix::{Matrix2, Matrix3, Matrix4};
use vector::Refusal;

// Refusal 5 unless the orders are 2 in 3, 2 in 4 or 3 in 4.
#[tactic(auto, using(crate::proofs::Embeddings::embed_low, crate::proofs::Embeddings::embed_same, crate::proofs::Embeddings::embed_high, crate::proofs::Embeddings::embed_taken))]
fn check_orders(order: usize, to: usize) -> Result<(), Refusal>
    ensures { outcome result ≡ orders_embed order to }
{
    if order < 2 {
        return Err(Refusal::Order);
    }
    if to <= order {
        return Err(Refusal::Order);
    }
    if 4 < to {
        return Err(Refusal::Order);
    }
    Ok(())
}

// The matrix in the corner of the identity of the order `to`: what the test of the orders leaves is 2 in 3, 2 in 4 and 3 in 4.
fn embedded(order: usize, to: usize, m: &[f64], out: &mut [f64]) -> Result<(), Refusal>
    ensures { Left result out.old out.new (embed order to m.now (length out.old)) }
{
    check_orders(order, to)?;
    match (order, to) {
        (2, 3) => entry::of_one(m, out, |m: Matrix2| Ok(Matrix3::from(m))),
        (2, _) => entry::of_one(m, out, |m: Matrix2| Ok(Matrix4::from(m))),
        _ => entry::of_one(m, out, |m: Matrix3| Ok(Matrix4::from(m))),
    }
}

// The matrix in the corner of the identity of the order `to`; refusal 5 unless the orders are 2 in 3, 2 in 4 or 3 in 4.
#[unsafe(no_mangle)]
pub extern "C" fn migthumo_embed(order: usize, to: usize, m: &[f64], out: &mut [f64]) -> u32
    ensures { Answers result out.old out.new (embed order to m.now (length out.old)) }
{
    code::answered(embedded(order, to, m, out))
}
