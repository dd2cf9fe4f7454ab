// A fault of the bits as a refusal.
ghost use Rattle.std.specs.Prelude.{◌≡◌};
ghost use Rattle.packet_headers.specs.Reading.{refusal_of};

use crate::refusal::PacketRefusal;
use bit_stuffing::BitFault;

impl From<BitFault> for PacketRefusal {
    ghost from_gives = { λ fault refusal. refusal ≡ refusal_of fault };

    fn from(fault: BitFault) -> PacketRefusal {
        match fault {
            BitFault::OutOfBits(place) => PacketRefusal::HeaderTruncated(place),
            BitFault::StuffedBitSet(place) => PacketRefusal::StuffedBitSet(place),
        }
    }
}
