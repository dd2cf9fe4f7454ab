// Laws of the definitions, for the crates above: a call of one of these functions, which do
// nothing, gives the caller its clause.
ghost use Rattle.std.specs.Prelude.{Bool, List};
ghost use Rattle.bit_stuffing.specs.Stuffing.{packed, Stuffs};

/// The bytes that the writer makes of a list of bits, however many, are a header of these bits.
pub fn packing()
    ensures { (bits : List Bool) → Stuffs bits (packed bits) }
{}
