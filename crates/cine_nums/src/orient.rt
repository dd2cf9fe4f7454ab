// Which filters made a band.

/// The orientation of a band (ISO/IEC 15444-1, Annex B.5): the first letter is the horizontal
/// filter, low or high pass, and the second the vertical one.
#[derive(Clone, Copy, Debug, PartialEq, Eq)]
pub enum Orient {
    /// What is left of the picture at the lowest resolution.
    LL,
    /// High pass along the rows, low pass along the columns.
    HL,
    /// Low pass along the rows, high pass along the columns.
    LH,
    /// High pass both ways.
    HH,
}
