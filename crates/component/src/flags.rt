// What the flags of a component record say: document 02, No. 2, 'Read component records'.
ghost use Rattle.std.specs.Prelude.{◌≡◌, eqb};
ghost use Rattle.vector.specs.Refusals.{after};
ghost use Rattle.component.specs.Fault.{outcome};
ghost use Rattle.component.specs.Record.{bit, offset_size, scale_flags, scale_count, size as record_size};
ghost use Rattle.component.specs.Record.{one_scale_flag, offsets_are_values};

use crate::fault::Fault;

// The flags of a record, as they stand in its first two bytes.
#[derive(Clone, Copy, Debug, PartialEq, Eq)]
pub(crate) struct Flags(pub(crate) u16);

impl Flags {
    // Whether the offsets are words, else bytes.
    #[tactic(auto, using(crate::proofs::Bits::flag0))]
    pub(crate) fn words(self) -> bool
        ensures { result ≡ eqb (bit self.0 0x0001) 1 }
    {
        self.0 & 0x0001 != 0
    }

    // Whether the offsets are values, else point numbers.
    #[tactic(auto, using(crate::proofs::Bits::flag1))]
    fn values(self) -> bool
        ensures { result ≡ eqb (bit self.0 0x0002) 1 }
    {
        self.0 & 0x0002 != 0
    }

    // Whether there is one scale, for both axes.
    #[tactic(auto, using(crate::proofs::Bits::flag3))]
    pub(crate) fn one_scale(self) -> bool
        ensures { result ≡ eqb (bit self.0 0x0008) 1 }
    {
        self.0 & 0x0008 != 0
    }

    // Whether there are two scales, one for each axis.
    #[tactic(auto, using(crate::proofs::Bits::flag6))]
    pub(crate) fn two_scales(self) -> bool
        ensures { result ≡ eqb (bit self.0 0x0040) 1 }
    {
        self.0 & 0x0040 != 0
    }

    // Whether there are four scales, the whole linear part.
    #[tactic(auto, using(crate::proofs::Bits::flag7))]
    pub(crate) fn four_scales(self) -> bool
        ensures { result ≡ eqb (bit self.0 0x0080) 1 }
    {
        self.0 & 0x0080 != 0
    }

    // How many bytes an offset takes: two where it is a word, else one.
    pub(crate) fn offset_size(self) -> usize
        ensures { result ≡ offset_size self.0 }
    {
        1 + usize::from(self.words())
    }

    // How many of the scale flags are set.
    fn scale_flags(self) -> usize
        ensures { result ≡ scale_flags self.0 }
    {
        usize::from(self.one_scale())
            + usize::from(self.two_scales())
            + usize::from(self.four_scales())
    }

    // How many scales there are: one, two, four or none.
    fn scale_count(self) -> usize
        ensures { result ≡ scale_count self.0 }
    {
        usize::from(self.one_scale())
            + 2 * usize::from(self.two_scales())
            + 4 * usize::from(self.four_scales())
    }

    // How many bytes the record takes. No enum of the kinds of scale: the size is promised of any flags, where several may be set.
    pub(crate) fn size(self) -> usize
        ensures { result ≡ record_size self.0 }
    {
        4 + 2 * self.offset_size() + 2 * self.scale_count()
    }

    // Refusal 21 where more than one scale flag is set, then 22 where the offsets are point numbers.
    #[tactic(auto, unfolding(crate::specs::Record::one_scale_flag, crate::specs::Record::offsets_are_values))]
    pub(crate) fn check(self) -> Result<(), Fault>
        ensures { outcome result ≡ after (one_scale_flag self.0) (offsets_are_values self.0) }
    {
        if self.scale_flags() > 1 {
            return Err(Fault::ScaleFlags);
        }
        if !self.values() {
            return Err(Fault::PointNumbers);
        }
        Ok(())
    }
}
