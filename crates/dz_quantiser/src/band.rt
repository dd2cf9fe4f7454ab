// The step of a band, and what the quantiser needs of a band.
ghost use Rattle.dz_quantiser.specs.Usable.{IsUsable};

/// The step of a band, as the QCD segment spells it (ISO/IEC 15444-1, Table A.30):
/// `2^(range - exponent) * (1 + mantissa / 2^11)`, with the band's [`range`](crate::range).
#[derive(Clone, Copy, Debug, Default, PartialEq, Eq)]
pub struct BandStep {
    /// 5 bits.
    pub exponent: u8,
    /// 11 bits.
    pub mantissa: u16,
}

/// What the quantiser needs of a band. Each value is one that [`index`](crate::index) takes.
#[derive(Clone, Copy, Debug)]
pub struct BandQuantiser {
    /// The step: an exponent of at least the range and at most 24.
    pub step: BandStep,
    /// The dynamic range in bits, from 12 to 14.
    pub range: u8,
    /// The number of magnitude bit-planes, from 1 to 20.
    pub planes: u8,
    pub ghost usable: { IsUsable range planes step },
}
