// The codewords of the numbers of coding passes.
ghost use Rattle.std.specs.Prelude.{◌≡◌, ◌+◌, ◌-◌, ◌<◌, ◌≤◌, ◌^◌};
ghost use Rattle.cine_nums.specs.Bits.{bit_len};
ghost use Rattle.bit_stuffing.specs.Bits.{number};
ghost use Rattle.packet_headers.specs.Codewords.{pass_bits};

/// The codeword of a number of coding passes, as a number, and what follows from it for a length
/// after it where Lblock isn't raised: how many bits the codeword, the 0 and the length are in all,
/// and the largest logarithm that the length may have.
#[derive(Clone, Copy)]
pub struct PassRow {
    pub value: u16,
    pub bits_in_all: u8,
    pub most_log: u8,
}

/// The numbers 0 to 58 (ISO/IEC 15444-1, Table B.4, and B.10.7.1 for the lengths). There is no
/// number 0.
#[rattlefmt::skip]
static ROWS: [PassRow; 59] = [
    PassRow { value: 0b0, bits_in_all: 4, most_log: 1 },
    PassRow { value: 0b0, bits_in_all: 5, most_log: 2 },
    PassRow { value: 0b10, bits_in_all: 7, most_log: 3 },
    PassRow { value: 0b1100, bits_in_all: 9, most_log: 3 },
    PassRow { value: 0b1101, bits_in_all: 10, most_log: 4 },
    PassRow { value: 0b1110, bits_in_all: 10, most_log: 4 },
    PassRow { value: 0b1_1110_0000, bits_in_all: 15, most_log: 4 },
    PassRow { value: 0b1_1110_0001, bits_in_all: 15, most_log: 4 },
    PassRow { value: 0b1_1110_0010, bits_in_all: 16, most_log: 5 },
    PassRow { value: 0b1_1110_0011, bits_in_all: 16, most_log: 5 },
    PassRow { value: 0b1_1110_0100, bits_in_all: 16, most_log: 5 },
    PassRow { value: 0b1_1110_0101, bits_in_all: 16, most_log: 5 },
    PassRow { value: 0b1_1110_0110, bits_in_all: 16, most_log: 5 },
    PassRow { value: 0b1_1110_0111, bits_in_all: 16, most_log: 5 },
    PassRow { value: 0b1_1110_1000, bits_in_all: 16, most_log: 5 },
    PassRow { value: 0b1_1110_1001, bits_in_all: 16, most_log: 5 },
    PassRow { value: 0b1_1110_1010, bits_in_all: 17, most_log: 6 },
    PassRow { value: 0b1_1110_1011, bits_in_all: 17, most_log: 6 },
    PassRow { value: 0b1_1110_1100, bits_in_all: 17, most_log: 6 },
    PassRow { value: 0b1_1110_1101, bits_in_all: 17, most_log: 6 },
    PassRow { value: 0b1_1110_1110, bits_in_all: 17, most_log: 6 },
    PassRow { value: 0b1_1110_1111, bits_in_all: 17, most_log: 6 },
    PassRow { value: 0b1_1111_0000, bits_in_all: 17, most_log: 6 },
    PassRow { value: 0b1_1111_0001, bits_in_all: 17, most_log: 6 },
    PassRow { value: 0b1_1111_0010, bits_in_all: 17, most_log: 6 },
    PassRow { value: 0b1_1111_0011, bits_in_all: 17, most_log: 6 },
    PassRow { value: 0b1_1111_0100, bits_in_all: 17, most_log: 6 },
    PassRow { value: 0b1_1111_0101, bits_in_all: 17, most_log: 6 },
    PassRow { value: 0b1_1111_0110, bits_in_all: 17, most_log: 6 },
    PassRow { value: 0b1_1111_0111, bits_in_all: 17, most_log: 6 },
    PassRow { value: 0b1_1111_1000, bits_in_all: 17, most_log: 6 },
    PassRow { value: 0b1_1111_1001, bits_in_all: 17, most_log: 6 },
    PassRow { value: 0b1_1111_1010, bits_in_all: 18, most_log: 7 },
    PassRow { value: 0b1_1111_1011, bits_in_all: 18, most_log: 7 },
    PassRow { value: 0b1_1111_1100, bits_in_all: 18, most_log: 7 },
    PassRow { value: 0b1_1111_1101, bits_in_all: 18, most_log: 7 },
    PassRow { value: 0b1_1111_1110, bits_in_all: 18, most_log: 7 },
    PassRow { value: 0b1111_1111_1000_0000, bits_in_all: 25, most_log: 7 },
    PassRow { value: 0b1111_1111_1000_0001, bits_in_all: 25, most_log: 7 },
    PassRow { value: 0b1111_1111_1000_0010, bits_in_all: 25, most_log: 7 },
    PassRow { value: 0b1111_1111_1000_0011, bits_in_all: 25, most_log: 7 },
    PassRow { value: 0b1111_1111_1000_0100, bits_in_all: 25, most_log: 7 },
    PassRow { value: 0b1111_1111_1000_0101, bits_in_all: 25, most_log: 7 },
    PassRow { value: 0b1111_1111_1000_0110, bits_in_all: 25, most_log: 7 },
    PassRow { value: 0b1111_1111_1000_0111, bits_in_all: 25, most_log: 7 },
    PassRow { value: 0b1111_1111_1000_1000, bits_in_all: 25, most_log: 7 },
    PassRow { value: 0b1111_1111_1000_1001, bits_in_all: 25, most_log: 7 },
    PassRow { value: 0b1111_1111_1000_1010, bits_in_all: 25, most_log: 7 },
    PassRow { value: 0b1111_1111_1000_1011, bits_in_all: 25, most_log: 7 },
    PassRow { value: 0b1111_1111_1000_1100, bits_in_all: 25, most_log: 7 },
    PassRow { value: 0b1111_1111_1000_1101, bits_in_all: 25, most_log: 7 },
    PassRow { value: 0b1111_1111_1000_1110, bits_in_all: 25, most_log: 7 },
    PassRow { value: 0b1111_1111_1000_1111, bits_in_all: 25, most_log: 7 },
    PassRow { value: 0b1111_1111_1001_0000, bits_in_all: 25, most_log: 7 },
    PassRow { value: 0b1111_1111_1001_0001, bits_in_all: 25, most_log: 7 },
    PassRow { value: 0b1111_1111_1001_0010, bits_in_all: 25, most_log: 7 },
    PassRow { value: 0b1111_1111_1001_0011, bits_in_all: 25, most_log: 7 },
    PassRow { value: 0b1111_1111_1001_0100, bits_in_all: 25, most_log: 7 },
    PassRow { value: 0b1111_1111_1001_0101, bits_in_all: 25, most_log: 7 },
];

/// The row of a number of coding passes, 1 to 58: as many as a band of 20 magnitude bit planes can
/// have.
#[inline]
pub fn pass_row(passes: u8) -> &'static PassRow
    requires most { passes ≤ 58 }
    ensures bits { number (result.now.bits_in_all - (result.now.most_log + 2)) result.now.value
        ≡ pass_bits passes }
    ensures fits { result.now.value < 2 ^ (result.now.bits_in_all - (result.now.most_log + 2)) }
    ensures some { result.now.most_log + 2 ≤ result.now.bits_in_all }
    ensures few { result.now.bits_in_all - (result.now.most_log + 2) ≤ 16 }
    ensures short { passes ≤ 36 → result.now.bits_in_all - (result.now.most_log + 2) ≤ 9 }
    ensures log { result.now.most_log ≡ 1 + bit_len passes }
{
    &ROWS[passes as usize]
}
