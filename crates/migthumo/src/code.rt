// The number that is answered: document 02, No. 1, 'Say column or row', has a number and a place; the boundary's own rule makes them one.
ghost use Rattle.std.specs.Prelude.{◌≡◌};
ghost use Rattle.vector.specs.Refusals.{means, outcome};
ghost use Rattle.component.specs.Fault.{means as fault_means};
ghost use Rattle.migthumo.specs.Entries.{code, code_of};

use component::Fault;
use vector::{Place, Refusal};

// 0 where it is done, else the number of the cause.
pub(crate) fn answered(answer: Result<(), Refusal>) -> u32
    ensures { result ≡ code (outcome answer) }
{
    match answer {
        Ok(()) => 0,
        Err(cause) => of_cause(cause),
    }
}

// The cause's number, and 256 more where the second place is at fault.
fn of_cause(cause: Refusal) -> u32
    ensures { result ≡ code_of (means cause) }
{
    match cause.place() {
        Some(Place::Second) => cause.number() + 256,
        _ => cause.number(),
    }
}

// The number of the cause that bytes give no component; no place goes with it.
pub(crate) fn of_fault(fault: Fault) -> u32
    ensures { result ≡ code_of (fault_means fault) }
{
    fault.number()
}
