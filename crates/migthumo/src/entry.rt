// What every entry does, whatever its order: it loads what is handed in (refusal 3), asks for room (refusal 4), makes its answer and stores it.
// That a closure may be called is asked of each: the language has no other way to take one. A refusal writes nothing. The order is the entry's own match: its refusal 5 comes before these.
// The arms of that match differ in the record alone: C hands the order over as a number, and a closure takes one type.
ghost use Rattle.std.specs.Prelude.{◌≡◌, length};
ghost use Rattle.vector.specs.Refusals.{Outcome, after, over};
ghost use Rattle.vector.specs.declared.refusal.Refusal.TheVariants.{InputLength, OutputLength};
ghost use Rattle.bulk.specs.Refusals.{number_is};
ghost use Rattle.migthumo.specs.Made.{Made, Makes, Makes₂, Left};

use crate::load::Load;
use crate::store::Store;
use vector::Refusal;

// What is made of nothing that is handed in, into an output of as many numbers.
pub(crate) fn of_none<T, R: Store<T>, F: FnOnce() -> Result<R, Refusal>>(
    out: &mut [T],
    make: F,
) -> Result<(), Refusal>
    requires { F.IsAlwaysCallable make }
    ensures { (g : Outcome R) → Made (F.post make) g → Left result out.old out.new (after (number_is OutputLength (length out.old) R.COUNT) (over R.numbers g)) }
{
    if out.len() != R::COUNT {
        return Err(Refusal::OutputLength);
    }
    make()?.put(out);
    Ok(())
}

// What is made of one matrix.
pub(crate) fn of_one<M: Load, T, R: Store<T>, F: FnOnce(M) -> Result<R, Refusal>>(
    m: &[f64],
    out: &mut [T],
    make: F,
) -> Result<(), Refusal>
    requires { F.IsAlwaysCallable make }
    ensures { (g : M → Outcome R) → Makes (F.post make) g → Left result out.old out.new (after (number_is InputLength (length m.now) M.COUNT) (after (number_is OutputLength (length out.old) R.COUNT) (over R.numbers (g (M.flat m.now))))) }
{
    let m = M::load(m)?;
    of_none(out, || make(m))
}

// What is made of two matrices.
pub(crate) fn of_two<M: Load, T, R: Store<T>, F: FnOnce(M, M) -> Result<R, Refusal>>(
    a: &[f64],
    b: &[f64],
    out: &mut [T],
    make: F,
) -> Result<(), Refusal>
    requires { F.IsAlwaysCallable make }
    ensures { (g : M → M → Outcome R) → Makes₂ (F.post make) g → Left result out.old out.new (after (number_is InputLength (length a.now) M.COUNT) (after (number_is InputLength (length b.now) M.COUNT) (after (number_is OutputLength (length out.old) R.COUNT) (over R.numbers (g (M.flat a.now) (M.flat b.now)))))) }
{
    let a = M::load(a)?;
    let b = M::load(b)?;
    of_none(out, || make(a, b))
}
