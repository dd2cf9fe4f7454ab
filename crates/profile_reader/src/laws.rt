// Laws of the definitions, for the crates above: a call of one of these functions, which do
// nothing, gives the caller its clause.
ghost use Rattle.std.specs.Prelude.{◌≡◌, [], ◌∷◌};
ghost use Rattle.profile_reader.specs.Chosen.{chosen};
ghost use Rattle.profile_reader.specs.OnePixel.{first_decoded, minus_cut, unknown_18};
ghost use Rattle.profile_reader.specs.OnePixel.{first_written, first_packet, bytes_of_64};
ghost use Rattle.profile_reader.specs.OnePixel.{pixel, built_in_2k, plus, minus};
ghost use Rattle.profile_reader.specs.Packets.{written_packet};
ghost use Rattle.profile_reader.specs.Shown.{ChosenReads, DecodesTo};
ghost use Rattle.profile_reader.specs.SmallFrames.{small_2k, small_4k, built_in_4k};
ghost use Rattle.profile_reader.specs.SmallFrames.{small_bytes_2k, small_bytes_4k};
ghost use Rattle.profile_reader.specs.SmallFrames.{small_planes, small_choice};
ghost use Rattle.profile_reader.specs.Spell.{spell};
ghost use Rattle.profile_reader.specs.Spelled.{SpelledReads, SaidOnce, MeansOnce, OneDecoding};

use codeblock_views::assembled;
use ebcot_contexts::{few_symbols, meaning_holds, one_meaning, read_back};
use mq_coder::{code_form, few_bytes};

/// What is spelled of code-blocks whose bytes mean cells is read as these cells: with the main
/// header, the bit-planes and passes of each block, and the planes that are put together from the
/// cells of the blocks.
pub fn spelled_reads()
    ensures reads { SpelledReads }
{
    assembled();
}

/// The codestream of a choice of coding passes is read as the frame's coefficients cut to what
/// these passes leave known, with the passes of each block as chosen (`reads`). Place by place: the
/// cell that is read is the coefficient's bits above the planes that the chosen passes of its block
/// leave unknown, and its sign where one of these bits is 1 (`decodes_to`).
pub fn chosen_reads()
    ensures reads { ChosenReads }
    ensures decodes_to { DecodesTo }
{
    few_symbols();
    code_form();
    few_bytes();
    meaning_holds();
    read_back();
    spelled_reads();
}

/// Each code-block of the frame is said once in a codestream: its packets leave no choice of its
/// entry and of its bytes (`said`), and these mean one thing (`means`). So by the same words
/// codestreams have one decoding (`decoding`).
pub fn said_once()
    ensures said { SaidOnce }
    ensures means { MeansOnce }
    ensures decoding { OneDecoding }
{
    one_meaning();
}

/// Frames of one pixel whose component 0 has one index that isn't 0: the whole codestream of the
/// index 64 with 18 of its 19 passes (`index_64`), and the packets of the index 131,008 with 48
/// passes (`index_131008`) and of the index -131,072 with 51 passes, whose header has a bit stuffed
/// after FF (`index_131072`). With 9 passes of the index -64 its three lowest bit-planes are
/// unknown, and of the blocks without passes all 18 bit-planes of their band (`decoded`).
pub fn one_pixel()
    ensures index_64 { spell pixel built_in_2k (first_written (plus 64) 18) ≡ bytes_of_64 }
    ensures index_131008 { written_packet pixel built_in_2k (first_written (plus 131008) 48)
        first_packet ≡ 0xDF ∷ 0xF8 ∷ 0xB0 ∷ 0x18 ∷ 0x00 ∷ 0xEA ∷ 0xC8 ∷ [] }
    ensures index_131072 { written_packet pixel built_in_2k (first_written (minus 131072) 51)
        first_packet ≡ 0xFF ∷ 0x78 ∷ 0xE0 ∷ 0x08 ∷ 0x07 ∷ [] }
    ensures decoded { first_decoded (minus 64) 9 ≡
        (minus_cut 8 3 ∷ []) ∷ (unknown_18 ∷ []) ∷ (unknown_18 ∷ []) ∷ [] }
{}

/// The whole codestreams of frames of 3 by 2 places in both profiles, with five code-blocks of each
/// component, of which some have all their passes, some a part of them and some none.
pub fn small_frames()
    ensures two_k { spell small_2k built_in_2k
        (chosen small_2k built_in_2k small_planes small_choice) ≡ small_bytes_2k }
    ensures four_k { spell small_4k built_in_4k
        (chosen small_4k built_in_4k small_planes small_choice) ≡ small_bytes_4k }
{}
