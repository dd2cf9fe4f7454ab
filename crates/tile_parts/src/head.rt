// Writing the head of a tile-part, and the marker after the last one.
ghost use Rattle.std.specs.Prelude.{◌≡◌, ℕ, length};
ghost use Rattle.tile_parts.specs.Head.{part_head_of, part_head_bytes, eoc};
ghost use Rattle.tile_parts.specs.declared.head.TheConstants.{PART_HEAD_BYTES};

/// The number of bytes of the writer's head of a tile-part: 12 of SOT, and 2 of SOD.
pub const PART_HEAD_BYTES: u32 = 14;

/// The constant is the number of the definition, and that of the bytes of each head. It does
/// nothing; its contract is the law.
pub fn head_bytes()
    ensures constant { PART_HEAD_BYTES ≡ part_head_bytes }
    ensures heads { (size index count : ℕ) → length (part_head_of size index count)
        ≡ part_head_bytes }
{}

/// The head of a tile-part of tile 0: the segment SOT and the marker SOD (ISO/IEC 15444-1, A.4.2
/// and A.4.3).
///
/// `length` is Psot, the bytes from the marker SOT up to the end of the tile-part, so 14 or more;
/// `index` is TPsot, counted from 0, and `count` is TNsot, the number of tile-parts.
pub fn part_head(length: u32, index: u8, count: u8) -> [u8; 14]
    ensures { result ≡ part_head_of length index count }
{
    let psot = length.to_be_bytes();
    [
        0xFF, 0x90, 0x00, 0x0A, 0x00, 0x00, psot[0], psot[1], psot[2], psot[3], index, count, 0xFF,
        0x93,
    ]
}

/// The marker EOC, the last two bytes of a codestream (ISO/IEC 15444-1, A.4.4).
pub fn end_of_codestream() -> [u8; 2]
    ensures { result ≡ eoc }
{
    [0xFF, 0xD9]
}
