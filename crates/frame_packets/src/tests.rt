// Frames of both profiles with no code-block and with one. A codestream of one sample has six
// packets a component in 2K, seven in 4K; a packet without a block is one byte.
ghost use Rattle.std.specs.Prelude.{◌≡◌, IfOk};
ghost use Rattle.cine_nums.specs.declared.orient.Orient.TheVariants.{LL, HH};
ghost use Rattle.band_geometry.specs.Bands.{IsBlock};
ghost use Rattle.dz_quantiser.specs.Bands.{band_planes};
ghost use Rattle.frame_packets.specs.Keeps.{IsPacket};

use crate::FramePackets;
use band_geometry::{BlockId, Geometry};
use cine_nums::{Orient, Profile};
use dz_quantiser::StepSizes;
use packet_headers::{Entry, header};
use packet_order::PacketId;
use std::alloc::{AllocError, Global};
use std::test::Fail;

/// The one block of component 0 of one sample, with 18 bit-planes in 2K.
const SAMPLE: BlockId = BlockId {
    component: 0,
    res: 0,
    orient: Orient::LL,
    x: 0,
    y: 0,
};

/// Its packet.
const OF_SAMPLE: PacketId = PacketId {
    component: 0,
    res: 0,
    px: 0,
    py: 0,
};

/// The last block of component 0 of a whole 4K frame, with 15 bit-planes.
const LAST: BlockId = BlockId {
    component: 0,
    res: 6,
    orient: Orient::HH,
    x: 63,
    y: 33,
};

/// Its packet.
const OF_LAST: PacketId = PacketId {
    component: 0,
    res: 6,
    px: 15,
    py: 8,
};

fn sample(alloc: Global) -> Result<FramePackets, AllocError>
    ensures block { IfOk result (λ s. IsBlock s.geometry SAMPLE) }
    ensures planes { IfOk result (λ s. band_planes s.steps 0 LL ≡ 18) }
    ensures packet { IfOk result (λ s. IsPacket s.geometry OF_SAMPLE) }
{
    let geometry = Geometry::new(Profile::TwoK, 5, 1, 1);
    FramePackets::empty(alloc, &geometry, &StepSizes::built_in(Profile::TwoK))
}

fn whole(alloc: Global) -> Result<FramePackets, AllocError>
    ensures block { IfOk result (λ s. IsBlock s.geometry LAST) }
    ensures planes { IfOk result (λ s. band_planes s.steps 6 HH ≡ 15) }
    ensures packet { IfOk result (λ s. IsPacket s.geometry OF_LAST) }
{
    let geometry = Geometry::new(Profile::FourK, 6, 4096, 2160);
    FramePackets::empty(alloc, &geometry, &StepSizes::built_in(Profile::FourK))
}

#[test]
fn empty_frames(rt: HostRuntime) -> Result<(), Fail> {
    let steps = StepSizes::built_in(Profile::TwoK);
    let small = FramePackets::empty(rt.alloc(), &Geometry::new(Profile::TwoK, 5, 1, 1), &steps)?;
    assert_eq!(rt; small.part_lengths().as_slice(), [20, 20, 20].as_slice());
    assert_eq!(rt; (small.held().frame, small.held().inner), (191, 0));
    assert_eq!(rt; small.order(2).len(), 6);
    assert_eq!(rt; small.order(2)[5].res, 5);
    let large = FramePackets::empty(
        rt.alloc(),
        &Geometry::new(Profile::TwoK, 5, 2048, 1080),
        &steps,
    )?;
    assert_eq!(rt; large.held().frame, 350);
    assert_eq!(rt; large.held().component, [73, 73, 73]);
    Ok(())
}

#[test]
fn empty_frames_of_4k(rt: HostRuntime) -> Result<(), Fail> {
    let steps = StepSizes::built_in(Profile::FourK);
    let small = FramePackets::empty(rt.alloc(), &Geometry::new(Profile::FourK, 6, 1, 1), &steps)?;
    assert_eq!(rt;
        small.part_lengths().as_slice(),
        [20, 20, 20, 15, 15, 15].as_slice()
    );
    assert_eq!(rt; (small.held().frame, small.held().inner), (276, 231));
    Ok(())
}

// 19 passes of 7 bit-planes, in one byte: C0 07 DA 02 has a 1, the inclusion 1, 11 zero planes,
// 1111 01101 for the passes, no raise, and 7 bits of the length.
#[test]
fn one_block_of_one_sample(rt: HostRuntime) -> Result<(), Fail> {
    let mut packets = sample(rt.alloc())?;
    let entry = Entry {
        included: true,
        zero_planes: 11,
        passes: 19,
        len: 1,
    };
    let held = packets.held_with(SAMPLE, entry);
    assert_eq!(rt; held.frame, 195);
    assert_eq!(rt; held.component, [24, 20, 20]);
    assert_eq!(rt; packets.held().frame, 191);
    packets.set(SAMPLE, entry);
    assert_eq!(rt; packets.held().frame, 195);
    assert_eq!(rt; packets.part_lengths().as_slice(), [24, 20, 20].as_slice());
    let bytes = header(packets.packet(OF_SAMPLE));
    assert_eq!(rt; bytes.as_slice(), [0xC0, 0x07, 0xDA, 0x02].as_slice());
    packets.set(SAMPLE, Entry::default());
    assert_eq!(rt; packets.held().component, [20, 20, 20]);
    Ok(())
}

// HL and LH have no included block; the block is the last of 4 by 2 in HH. All 43 passes, and the
// most bytes, whose length takes 18 bits with 10 raises.
#[test]
fn the_last_block_of_4k_is_in_no_inner_budget(rt: HostRuntime) -> Result<(), Fail> {
    let mut packets = whole(rt.alloc())?;
    assert_eq!(rt; (packets.held().frame, packets.held().inner), (864, 390));
    let entry = Entry {
        included: true,
        zero_planes: 0,
        passes: 43,
        len: 131_072,
    };
    assert_eq!(rt; packets.held_with(LAST, entry).frame, 131_943);
    packets.set(LAST, entry);
    let held = packets.held();
    assert_eq!(rt; (held.frame, held.inner), (131_943, 390));
    assert_eq!(rt; held.component, [73, 73, 73]);
    assert_eq!(rt; packets.part_lengths()[3], 131_237);
    let bytes = header(packets.packet(OF_LAST));
    let expected = [0x94, 0x7F, 0xFC, 0x37, 0xFE, 0x80, 0x00, 0x00];
    assert_eq!(rt; bytes.as_slice(), expected.as_slice());
    Ok(())
}
