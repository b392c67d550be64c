// Whether the signed sum is undoable: its magnitude has exactly one bit set.
ghost use Rattle.std.specs.Prelude.{◌≡◌, unsigned_abs};
ghost use Rattle.vector.specs.Refusals.{outcome};
ghost use Rattle.matrix.specs.Places.{at};
ghost use Rattle.engine.specs.Engine.{undoable, is_one_bit};

use crate::square::Square;
use crate::sum;
use vector::Refusal;

// Whether the signed sum is undoable, or refusal 6.
pub fn undoable<M: Square>(m: M) -> Result<bool, Refusal>
    ensures { outcome result ≡ undoable 1024 M.ORDER (at (M.array m)) }
{
    Ok(one_bit(magnitude(sum::signed_sum(m)?)))
}

// Whether exactly one bit is set: whether the number is a power of two.
#[tactic(auto, unfolding(crate::specs::Engine::is_one_bit))]
pub fn one_bit(magnitude: u64) -> bool
    ensures { result ≡ is_one_bit magnitude }
{
    magnitude.count_ones() == 1
}

// The magnitude of a whole number; the least one's is 2^63.
pub fn magnitude(z: i64) -> u64
    ensures { result ≡ unsigned_abs z }
{
    z.unsigned_abs()
}
