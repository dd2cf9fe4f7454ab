// The contexts' states.
ghost use Rattle.std.specs.Prelude.{◌≡◌, ◌<◌, ◌≤◌, ℕ, Bool, not, if◌then◌else◌};
ghost use Rattle.mq_coder.specs.States.{row, after_symbol};
ghost use Rattle.mq_coder.specs.Rows.{row_word, numbered, context_of, IsRow};
ghost use Rattle.std.proofs.Common.{ap, sym};

use std::marker::Model;

/// The rows of Table C.2 of ISO/IEC 15444-1, two for each state, the first with 0 as its more
/// probable symbol (MPS). In a word: Qe in bits 0 to 14, the MPS in bit 15, the place of the next
/// row after the MPS in bits 16 to 22, and after the less probable symbol in bits 24 to 30.
#[rattlefmt::skip]
static ROWS: [u32; 94] = [
    0x0302_5601, 0x0203_D601, 0x0C04_3401, 0x0D05_B401, 0x1206_1801, 0x1307_9801, 0x1808_0AC1, 0x1909_8AC1,
    0x3A0A_0521, 0x3B0B_8521, 0x424C_0221, 0x434D_8221, 0x0D0E_5601, 0x0C0F_D601, 0x1C10_5401, 0x1D11_D401,
    0x1C12_4801, 0x1D13_C801, 0x1C14_3801, 0x1D15_B801, 0x2216_3001, 0x2317_B001, 0x2418_2401, 0x2519_A401,
    0x281A_1C01, 0x291B_9C01, 0x2A3A_1601, 0x2B3B_9601, 0x1D1E_5601, 0x1C1F_D601, 0x1C20_5401, 0x1D21_D401,
    0x1E22_5101, 0x1F23_D101, 0x2024_4801, 0x2125_C801, 0x2226_3801, 0x2327_B801, 0x2428_3401, 0x2529_B401,
    0x262A_3001, 0x272B_B001, 0x262C_2801, 0x272D_A801, 0x282E_2401, 0x292F_A401, 0x2A30_2201, 0x2B31_A201,
    0x2C32_1C01, 0x2D33_9C01, 0x2E34_1801, 0x2F35_9801, 0x3036_1601, 0x3137_9601, 0x3238_1401, 0x3339_9401,
    0x343A_1201, 0x353B_9201, 0x363C_1101, 0x373D_9101, 0x383E_0AC1, 0x393F_8AC1, 0x3A40_09C1, 0x3B41_89C1,
    0x3C42_08A1, 0x3D43_88A1, 0x3E44_0521, 0x3F45_8521, 0x4046_0441, 0x4147_8441, 0x4248_02A1, 0x4349_82A1,
    0x444A_0221, 0x454B_8221, 0x464C_0141, 0x474D_8141, 0x484E_0111, 0x494F_8111, 0x4A50_0085, 0x4B51_8085,
    0x4C52_0049, 0x4D53_8049, 0x4E54_0025, 0x4F55_8025, 0x5056_0015, 0x5157_8015, 0x5258_0009, 0x5359_8009,
    0x545A_0005, 0x555B_8005, 0x565A_0001, 0x575B_8001, 0x5C5C_5601, 0x5D5D_D601,
];

/// A context: its state, below 47, and its more probable symbol (MPS). A contract sees this pair;
/// the code holds the state's row, so that a symbol loads one word.
#[derive(Clone, Copy, Debug)]
pub struct Context {
    row: u32,
}

impl Model for Context {
    ghost Value = { ℕ × Bool };

    ghost view = { λ s. context_of s.row };

    ghost invariant = { λ s. IsRow s.row };

    ghost inverse = { λ context. record { row = row_word context } };

    ghost inverse_ok = { λ a h. ap (λ (w : ℕ). record { row = w }) (sym h.is_row) };
}

impl Context {
    /// The context of a number below 94: twice its state, and one more where its MPS is 1.
    #[inline(always)]
    pub fn numbered(number: u8) -> Context
        requires { number < 94 }
        ensures { result ≡ numbered number }
    {
        Context {
            row: ROWS[number as usize],
        }
    }

    /// The estimate Qe of the probability of the less probable symbol: from 1 to 0x5601, where
    /// 0x8000 stands for three quarters.
    #[inline(always)]
    pub fn estimate(self) -> u32
        ensures value { result ≡ (row self.0).qe }
        ensures some { 1 ≤ result }
        ensures most { result ≤ 0x5601 }
    {
        self.row & 0x7FFF
    }

    /// The more probable symbol.
    #[inline(always)]
    pub fn mps(self) -> bool
        ensures { result ≡ self.1 }
    {
        self.row >> 15 & 1 == 1
    }

    /// The context after its less probable symbol (`is_lps`) or its more probable one.
    #[inline(always)]
    pub fn next(self, is_lps: bool) -> Context
        ensures { result ≡ after_symbol self (if is_lps then not self.1 else self.1) }
    {
        let place = if is_lps {
            self.row >> 24
        } else {
            self.row >> 16 & 0x7F
        };
        Context {
            row: ROWS[place as usize],
        }
    }
}
