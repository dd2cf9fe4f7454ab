// Laws of the definitions, for the crates above: a call of one of these functions, which do
// nothing, gives the caller its clause.
ghost use Rattle.ebcot_contexts.specs.Laws.{MeaningHolds, OneMeaning, ReadBack, WithoutOrient};
ghost use Rattle.ebcot_contexts.specs.Laws.{FewSymbols};

use mq_coder::inversion;

/// The cells that the passes of a code-block give over a byte string are a meaning of these bytes.
pub fn meaning_holds()
    ensures { MeaningHolds }
{}

/// It is the only meaning of the bytes.
pub fn one_meaning()
    ensures { OneMeaning }
{}

/// Over the code of a block's first passes it is the block, without the bit-planes that these
/// passes leave unknown.
pub fn read_back()
    ensures { ReadBack }
{
    inversion();
}

/// What is known after the passes doesn't depend on the band's orientation.
pub fn without_orient()
    ensures { WithoutOrient }
{}

/// A block of at most 32 by 32 places and 20 bit-planes has at most 31,744 symbols.
pub fn few_symbols()
    ensures { FewSymbols }
{}
