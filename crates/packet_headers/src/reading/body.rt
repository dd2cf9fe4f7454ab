// The length of a packet's body.
ghost use Rattle.std.specs.Prelude.{◌≡◌, ◌*◌, ◌≤◌};
ghost use Rattle.packet_headers.specs.Words.{band_body, packet_body};

use crate::packet::{Packet, PacketBand};

/// The lengths of a band's blocks together.
fn band_body(band: &PacketBand) -> u64
    ensures value { result ≡ band_body band.now }
    ensures most { result ≤ 16 * 4294967295 }
{
    let mut len = 0;
    for entry in band.entries.as_slice() {
        len += u64::from(entry.len);
    }
    len
}

/// The lengths of all blocks together.
pub(crate) fn packet_body(packet: &Packet) -> u64
    ensures { result ≡ packet_body packet.now }
{
    let mut len = 0;
    for band in packet.bands.as_slice() {
        len += band_body(band);
    }
    len
}
