// Names of frames as lines print them.
ghost use Rattle.std.specs.Prelude.{◌≡◌, ◌<◌, ◌++◌, IfOk, OnOk, string_bytes};
ghost use Rattle.cert_text.specs.Names.{is_plain, hex_digit, escaped_byte, escaped};

use std::alloc::{AllocError, Global};

/// Whether a byte of a name is printed as it is.
pub fn is_plain(byte: u8) -> bool
    ensures { result ≡ is_plain byte }
{
    byte.is_ascii_alphanumeric() || matches!(byte, b'.' | b'_' | b'-')
}

/// A number below 16 as a hexadecimal digit in upper case.
fn hex_digit(n: u8) -> u8
    requires { n < 16 }
    ensures { result ≡ hex_digit n }
{
    if n < 10 { b'0' + n } else { b'A' - 10 + n }
}

/// Appends a byte of a name as it is printed.
fn push_escaped(out: &mut String, byte: u8) -> Result<(), AllocError>
    ensures { OnOk result (string_bytes out.new ≡ string_bytes out.old ++ escaped_byte byte) }
{
    if is_plain(byte) {
        out.push(char::from(byte))?;
    } else {
        out.push('%')?;
        out.push(char::from(hex_digit(byte / 16)))?;
        out.push(char::from(hex_digit(byte % 16)))?;
    }
    Ok(())
}

/// A name as it is printed: bytes other than ASCII letters, digits, `.`, `_` and `-` become `%` and
/// two hexadecimal digits.
pub fn escaped(alloc: Global, name: &str) -> Result<String, AllocError>
    ensures { IfOk result (λ text. string_bytes text ≡ escaped name.now) }
{
    let mut out = String::new(alloc);
    for byte in name.as_bytes() {
        push_escaped(&mut out, *byte)?;
    }
    Ok(out)
}
