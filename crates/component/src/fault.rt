// Why the bytes at a place give no component: document 02, No. 2, 'Read component records'.
ghost use Rattle.std.specs.Prelude.{◌≡◌};
ghost use Rattle.vector.specs.Refusals.{number_of};
ghost use Rattle.component.specs.Fault.{means};

// Why the bytes at a place give no component.
#[derive(Clone, Copy, Debug, PartialEq, Eq)]
pub enum Fault {
    // The bytes end inside the component record.
    RecordEnds,
    // More than one scale flag of a component record is set.
    ScaleFlags,
    // The offsets of a component record are point numbers.
    PointNumbers,
}

impl Fault {
    // The number of this cause, as `Refusal::number` is that of a refusal.
    pub fn number(self) -> u32
        ensures { result ≡ number_of (means self) }
    {
        match self {
            Fault::RecordEnds => 20,
            Fault::ScaleFlags => 21,
            Fault::PointNumbers => 22,
        }
    }
}
