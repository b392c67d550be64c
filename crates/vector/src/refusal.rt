// The causes of a refusal: document 01, 'The numbers a refusal carries', and document 02, No. 1, 'Say column or row'.
ghost use Rattle.std.specs.Prelude.{◌≡◌};
ghost use Rattle.vector.specs.Refusals.{means, number_of, place_of};

// Which of the numbers handed in was at fault: the first of its kind, or the second.
#[derive(Clone, Copy, Debug, PartialEq, Eq)]
pub enum Place {
    First,
    Second,
}

// Why an answer gives no value.
#[derive(Clone, Copy, Debug, PartialEq, Eq)]
pub enum Refusal {
    // A column number is not below the order.
    Column(Place),
    // A row number is not below the order, or the element to drop not below the length.
    Row(Place),
    // The float determinant compares equal to zero.
    Singular,
    // An input slice has the wrong length.
    InputLength,
    // The output slice has the wrong length.
    OutputLength,
    // The order is not one that the entry takes.
    Order,
    // An entry is not a whole number of magnitude at most 1024.
    NotWhole,
}

impl Refusal {
    // The number of this cause; not a `From`, since the place is lost in it.
    pub fn number(self) -> u32
        ensures { result ≡ number_of (means self) }
    {
        match self {
            Refusal::Column(_) => 11,
            Refusal::Row(_) => 12,
            Refusal::Singular => 2,
            Refusal::InputLength => 3,
            Refusal::OutputLength => 4,
            Refusal::Order => 5,
            Refusal::NotWhole => 6,
        }
    }

    // The place that goes with this cause, or none.
    pub fn place(self) -> Option<Place>
        ensures { result ≡ place_of (means self) }
    {
        match self {
            Refusal::Column(place) | Refusal::Row(place) => Some(place),
            _ => None,
        }
    }
}
