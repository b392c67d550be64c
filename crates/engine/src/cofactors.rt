// The cofactors as whole numbers: an inverse's entry as an exact fraction is a cofactor over the signed sum.
// They are given one by one, since an answer holds no array; the place is tested first.
ghost use Rattle.std.specs.Prelude.{◌≡◌, ◌-◌, ◌<◌};
ghost use Rattle.vector.specs.Refusals.{outcome};
ghost use Rattle.matrix.specs.Places.{at};
ghost use Rattle.whole.specs.Order.{skip};
ghost use Rattle.engine.specs.Whole.{wholes, Alike, without, minor};
ghost use Rattle.engine.specs.Engine.{cofactor_of, cofactor};

use crate::entries::Whole;
use crate::square::Square;
use matrix::{Column, Row};
use vector::{Place, Refusal};

// The cofactor of a place: refusal 11 or 12, first, for the place, then refusal 6.
pub fn cofactor<M: Square>(m: M, c: Column, r: Row) -> Result<i64, Refusal>
    ensures { outcome result ≡ cofactor 1024 M.ORDER (at (M.array m)) c r }
{
    if M::ORDER <= c.0 {
        return Err(Refusal::Column(Place::First));
    }
    if M::ORDER <= r.0 {
        return Err(Refusal::Row(Place::First));
    }
    Ok(Whole::read(m)?.cofactor(c.0, r.0))
}

impl Whole {
    // The signed sum without column c and row r, with the sign of the place.
    fn cofactor(&self, c: usize, r: usize) -> i64
        requires { (c < self.now.order) × (r < self.now.order) }
        ensures { result ≡ cofactor_of self.now.order (wholes self.now.numbers) c r }
    {
        let minor = self.minor(c, r).signed_sum();
        if (c + r) % 2 == 1 { -minor } else { minor }
    }

    // The numbers without column c and row r, at the order less one.
    fn minor(&self, c: usize, r: usize) -> Whole
        requires { (c < self.now.order) × (r < self.now.order) }
        ensures order { result.order ≡ self.now.order - 1 }
        ensures entries { Alike 3 (wholes result.numbers) (minor c r (wholes self.now.numbers)) }
    {
        // Column by column: what `map` promises of a closure that holds r leaves open which r each call had.
        let kept = without(self.numbers, c);
        Whole {
            numbers: [
                without(kept[0], r),
                without(kept[1], r),
                without(kept[2], r),
                without(kept[3], r),
            ],
            order: self.order - 1,
        }
    }
}

// The list without element n; the last stands again in the room that is left. Three calls, as in `minor`.
fn without<T: Copy>(list: [T; 4], n: usize) -> [T; 4]
    ensures { (past : T) → result ≡ without past n list }
{
    [
        list[kept(n, 0)],
        list[kept(n, 1)],
        list[kept(n, 2)],
        list[3],
    ]
}

// The j-th of the numbers other than n, for the first three.
#[tactic(auto, using(crate::proofs::Minors::skip_low, crate::proofs::Minors::skip_high))]
fn kept(n: usize, j: usize) -> usize
    requires { j < 3 }
    ensures { (result ≡ skip n j) × (result < 4) }
{
    if j < n { j } else { j + 1 }
}
