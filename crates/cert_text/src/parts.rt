// Words and numbers of a line, read from a place on.
ghost use Rattle.std.specs.Prelude.{◌≡◌, ◌++◌, ◌<◌, ◌≤◌, ◌^◌, length, decimal, IfOk};
ghost use Rattle.std.specs.Prelude.{ℕ, ◌≢◌, drop, IfErr};
ghost use Rattle.cert_text.specs.Stands.{digits_before};
ghost use Rattle.cert_text.specs.Stands.{Stands};
ghost use Rattle.cert_text.specs.Forms.{exactly, labelled, Reads, Refuses};
ghost use Rattle.cert_text.specs.declared.cert_refusal.CertRefusal.TheVariants.{BadLine};

use crate::cert_refusal::CertRefusal;

/// The refusal of a text, shorter than 2^32 bytes, at a place.
pub fn bad_line(at: usize) -> CertRefusal
    requires { at < 2 ^ 32 }
    ensures { result ≡ BadLine at }
{
    CertRefusal::BadLine(at as u32)
}

/// Reads these bytes, and returns the place after them.
pub fn word(text: &[u8], at: usize, word: &[u8]) -> Result<usize, CertRefusal>
    requires short { length text.now < 2 ^ 32 }
    requires within { at ≤ length text.now }
    ensures stands { IfOk result (λ end. Stands text.now at word.now end) }
    ensures reads { IfOk result (λ end. Reads (exactly word.now) text.now at tt end) }
    ensures refused { IfErr result (λ e. Refuses (exactly word.now) text.now at e) }
{
    let mut end = at;
    for byte in word {
        if end >= text.len() || text[end] != *byte {
            return Err(bad_line(end));
        }
        end += 1;
    }
    Ok(end)
}

/// Reads a decimal number from `least` to `most`, all the digits that stand here, without leading
/// zeros, and returns it with the place after it. Any other digits are refused at the first one.
pub fn number(text: &[u8], at: usize, least: u128, most: u128) -> Result<(u128, usize), CertRefusal>
    requires short { length text.now < 2 ^ 32 }
    requires within { at ≤ length text.now }
    ensures stands { IfOk result (λ read. Stands text.now at (decimal read.0) read.1) }
    ensures least { IfOk result (λ read. least ≤ read.0) }
    ensures most { IfOk result (λ read. read.0 ≤ most) }
    ensures whole { IfOk result (λ read. digits_before (drop at text.now) ≡ decimal read.0) }
    ensures bad { IfErr result (λ e. e ≡ BadLine at) }
    ensures none { IfErr result (λ _. (n : ℕ) → least ≤ n → n ≤ most
        → digits_before (drop at text.now) ≢ decimal n) }
{
    let mut value: u128 = 0;
    let mut end = at;
    for i in at..text.len() {
        if !text[i].is_ascii_digit() {
            break;
        }
        let digit = u128::from(text[i] - b'0');
        if end > at && value == 0 {
            return Err(bad_line(at));
        }
        if digit > most || value > (most - digit) / 10 {
            return Err(bad_line(at));
        }
        value = value * 10 + digit;
        end = i + 1;
    }
    if end == at || value < least {
        return Err(bad_line(at));
    }
    Ok((value, end))
}

/// Reads a word and a number after it.
pub fn labelled(
    text: &[u8],
    at: usize,
    label: &[u8],
    least: u128,
    most: u128,
) -> Result<(u128, usize), CertRefusal>
    requires short { length text.now < 2 ^ 32 }
    requires within { at ≤ length text.now }
    ensures reads { IfOk result (λ read.
        Reads (labelled label.now least most) text.now at read.0 read.1) }
    ensures refused { IfErr result (λ e. least ≤ most
        → Refuses (labelled label.now least most) text.now at e) }
    ensures least { IfOk result (λ read. least ≤ read.0) }
    ensures most { IfOk result (λ read. read.0 ≤ most) }
{
    let at = word(text, at, label)?;
    let (value, end) = number(text, at, least, most)?;
    Ok((value, end))
}
