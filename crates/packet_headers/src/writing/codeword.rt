// The codewords of a block's numbers.
ghost use Rattle.std.specs.Prelude.{◌≡◌, ◌+◌, ◌<◌, ◌≤◌, ◌^◌, ◌*◌, ◌++◌, [], ◌∷◌, replicate, true};
ghost use Rattle.bit_stuffing.specs.Bits.{number};
ghost use Rattle.packet_headers.specs.Codewords.{pass_bits, length_bits, least_raise};
ghost use Rattle.packet_headers.specs.InsideWriting.{bit_if, zeros_if};

use crate::writing::passes::pass_row;
use cine_nums::bit_len;

/// The bits of a codeword, at most 50, as a number.
#[derive(Clone, Copy)]
pub struct Codeword {
    pub width: u32,
    pub value: u64,
}

impl Codeword {
    /// No bits.
    pub fn none() -> Codeword
        ensures bits { number result.width result.value ≡ [] }
        ensures fits { result.value < 2 ^ result.width }
        ensures few { result.width ≡ 0 }
    {
        Codeword { width: 0, value: 0 }
    }

    /// So many ones.
    pub fn ones(width: u32) -> Codeword
        requires { width ≤ 3 }
        ensures bits { number result.width result.value ≡ replicate width true }
        ensures fits { result.value < 2 ^ result.width }
        ensures width { result.width ≡ width }
    {
        Codeword {
            width,
            value: (1 << width) - 1,
        }
    }

    /// A 1, so many zeros and a 1.
    pub fn one_and_zeros(zeros: u8) -> Codeword
        requires { zeros ≤ 23 }
        ensures bits { number result.width result.value ≡ true ∷ number (zeros + 1) 1 }
        ensures fits { result.value < 2 ^ result.width }
        ensures width { result.width ≡ zeros + 2 }
    {
        let zeros = u32::from(zeros);
        Codeword {
            width: zeros + 2,
            value: (2 << zeros) + 1,
        }
    }

    /// A bit after these, or none.
    pub fn with_bit_if(self, put: bool, bit: bool) -> Codeword
        requires room { self.width + 1 ≤ 50 }
        requires fits { self.value < 2 ^ self.width }
        ensures bits { number result.width result.value ≡ number self.width self.value
            ++ bit_if put bit }
        ensures fits { result.value < 2 ^ result.width }
        ensures few { result.width ≤ self.width + 1 }
    {
        if !put {
            return self;
        }
        Codeword {
            width: self.width + 1,
            value: self.value * 2 + u64::from(bit),
        }
    }

    /// Zeros after these and a 1, or nothing.
    pub fn with_zeros_if(self, put: bool, zeros: u8) -> Codeword
        requires room { self.width + (zeros + 1) ≤ 50 }
        requires fits { self.value < 2 ^ self.width }
        ensures bits { number result.width result.value ≡ number self.width self.value
            ++ zeros_if put zeros }
        ensures fits { result.value < 2 ^ result.width }
        ensures few { result.width ≤ self.width + (zeros + 1) }
    {
        if !put {
            return self;
        }
        let more = u32::from(zeros) + 1;
        Codeword {
            width: self.width + more,
            value: (self.value << more) + 1,
        }
    }
}

/// The codewords of a block's coding passes and length (ISO/IEC 15444-1, B.10.6 and B.10.7), one
/// after the other: Lblock is raised as often as lets the length fit. There are 1 to 58 passes, and
/// 1 to 131,072 bytes.
#[inline]
pub fn numbers_codeword(passes: u8, len: u32) -> Codeword
    requires some { 1 ≤ passes }
    requires most { passes ≤ 58 }
    requires some_bytes { 1 ≤ len }
    requires len { len ≤ 131072 }
    ensures bits { number result.width result.value ≡ pass_bits passes
        ++ length_bits passes (least_raise passes len) len }
    ensures fits { result.value < 2 ^ result.width }
    ensures few { result.width ≤ 45 }
{
    let row = pass_row(passes);
    let pass_value = u64::from(row.value);
    let least = u32::from(row.bits_in_all);
    let most = u32::from(row.most_log);
    let bytes = u64::from(len);
    // `| 1` changes no length's logarithm, and saves the instruction that the bit length of 0 takes
    let log = u32::from(bit_len(len | 1)) - 1;
    let raise = log.saturating_sub(most);
    Codeword {
        width: least + raise + raise,
        value: ((((pass_value + 1) << raise) - 1) << (most + raise + 2)) + bytes,
    }
}

/// A codeword and another after it, which are 50 bits at most.
#[inline]
pub fn joined(first: Codeword, last: Codeword) -> Codeword
    requires room { first.width + last.width ≤ 50 }
    requires first { first.value < 2 ^ first.width }
    requires last { last.value < 2 ^ last.width }
    ensures width { result.width ≡ first.width + last.width }
    ensures bits { number result.width result.value ≡ number first.width first.value
        ++ number last.width last.value }
    ensures fits { result.value < 2 ^ result.width }
{
    Codeword {
        width: first.width + last.width,
        value: (first.value << last.width) + last.value,
    }
}
