// How many bits of a header a byte holds.
ghost use Rattle.std.specs.Prelude.{◌≡◌, ◌==◌};
ghost use Rattle.bit_stuffing.specs.Bits.{byte_width};

/// 7 after a byte FF, whose follower has a stuffed 0, else 8.
pub fn width_after(byte: u8) -> u8
    ensures { result ≡ byte_width (byte == 255) }
{
    if byte == 0xff { 7 } else { 8 }
}
