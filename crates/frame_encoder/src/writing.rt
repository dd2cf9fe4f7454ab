// A frame's packets at a choice of coding passes with the bytes of these, and how they are written.
ghost use Rattle.std.specs.Prelude.{◌≡◌, ◌-◌, ◌<◌, ◌≤◌, ◌++◌, length, OnOk};
ghost use Rattle.std.specs.List.{flat_map};
ghost use Rattle.band_geometry.specs.Bands.{HasBand, IsBlock, precinct_blocks_of};
ghost use Rattle.band_geometry.specs.Numbering.{all_blocks};
ghost use Rattle.band_geometry.specs.Sizes.{precinct_count};
ghost use Rattle.band_geometry.specs.TileParts.{part_of_res};
ghost use Rattle.coded_blocks.specs.Codes.{code_count};
ghost use Rattle.cine_nums.specs.Profile.{levels_of, parts_of};
ghost use Rattle.packet_order.specs.Blocks.{blocks_in, blocks_of_packet, row_in};
ghost use Rattle.packet_order.specs.Order.{IsPacketOf};
ghost use Rattle.profile_reader.specs.Chosen.{Planes};

use band_geometry::{BlockId, BlockRange, Geometry};
use budget_duals::Held;
use cine_nums::Orient;
use coded_blocks::ChosenCodes;
use frame_packets::FramePackets;
use packet_headers::header;
use packet_order::{PacketId, order};
use std::alloc::{AllocError, Global};
use tile_parts::part_head;

/// How many coding passes are chosen of each code-block of a frame, by block number, the bytes of
/// these passes, and the packets of this choice.
#[derive(Drop)]
pub struct ChosenPasses {
    pub geometry: Geometry,
    pub codes: ChosenCodes,
    pub choice: Vec<u8>,
    pub packets: FramePackets,
    pub ghost levels: { geometry.levels ≡ levels_of geometry.profile },
    pub ghost codes_count: { code_count codes ≡ length (all_blocks geometry) },
    pub ghost choice_count: { length choice.items ≡ length (all_blocks geometry) },
    pub ghost packets_of: { packets.geometry ≡ geometry },
}

impl ChosenPasses {
    ghost use Rattle.frame_encoder.specs.Writing.{IsFrameOf, chosen_held, code_of, packet_of};
    ghost use Rattle.frame_encoder.specs.Writing.{body_of, part_of};

    /// Appends the bytes of a code-block.
    fn push_block(&self, id: BlockId, out: &mut Vec<u8>) -> Result<(), AllocError>
        requires { IsBlock self.now.geometry id }
        ensures { OnOk result ((planes : Planes) → IsFrameOf planes self.now →
            out.new.items ≡ out.old.items ++ code_of planes self.now id) }
    {
        let n = self.geometry.number(id);
        self.codes.push_code(n, out)?;
        Ok(())
    }

    /// Appends the bytes of a row of the code-blocks of a band that a packet has. They are those of
    /// `range`, and the row counts from its first one.
    fn push_row(
        &self,
        packet: PacketId,
        orient: Orient,
        range: BlockRange,
        row: u32,
        out: &mut Vec<u8>,
    ) -> Result<(), AllocError>
        requires component { packet.component < 3 }
        requires band { HasBand self.now.geometry packet.res orient }
        requires range { range
            ≡ precinct_blocks_of self.now.geometry packet.res orient packet.px packet.py }
        requires row { row < range.y1 - range.y0 }
        ensures { OnOk result ((planes : Planes) → IsFrameOf planes self.now →
            out.new.items ≡ out.old.items ++ flat_map (code_of planes self.now)
            (row_in self.now.geometry packet orient row)) }
    {
        for column in 0..range.x1 - range.x0 {
            let id = BlockId {
                component: packet.component,
                res: packet.res,
                orient,
                x: range.x0 + column,
                y: range.y0 + row,
            };
            self.push_block(id, out)?;
        }
        Ok(())
    }

    /// Appends the bytes of the code-blocks of a band that a packet has, in raster order.
    fn push_band(
        &self,
        packet: PacketId,
        orient: Orient,
        out: &mut Vec<u8>,
    ) -> Result<(), AllocError>
        requires component { packet.component < 3 }
        requires band { HasBand self.now.geometry packet.res orient }
        requires column { packet.px
            < precinct_count self.now.geometry.levels self.now.geometry.width packet.res }
        requires row { packet.py
            < precinct_count self.now.geometry.levels self.now.geometry.height packet.res }
        ensures { OnOk result ((planes : Planes) → IsFrameOf planes self.now →
            out.new.items ≡ out.old.items ++ flat_map (code_of planes self.now)
            (blocks_in self.now.geometry packet orient)) }
    {
        let range = self
            .geometry
            .precinct_blocks(packet.res, orient, packet.px, packet.py);
        for row in 0..range.y1 - range.y0 {
            self.push_row(packet, orient, range, row, out)?;
        }
        Ok(())
    }

    /// Appends the bytes of the code-blocks of a packet, band by band.
    fn push_codes(&self, packet: PacketId, out: &mut Vec<u8>) -> Result<(), AllocError>
        requires component { packet.component < 3 }
        requires res { packet.res ≤ self.now.geometry.levels }
        requires column { packet.px
            < precinct_count self.now.geometry.levels self.now.geometry.width packet.res }
        requires row { packet.py
            < precinct_count self.now.geometry.levels self.now.geometry.height packet.res }
        ensures { OnOk result ((planes : Planes) → IsFrameOf planes self.now →
            out.new.items ≡ out.old.items ++ flat_map (code_of planes self.now)
            (blocks_of_packet self.now.geometry packet)) }
    {
        if packet.res == 0 {
            self.push_band(packet, Orient::LL, out)?;
            return Ok(());
        }
        self.push_band(packet, Orient::HL, out)?;
        self.push_band(packet, Orient::LH, out)?;
        self.push_band(packet, Orient::HH, out)?;
        Ok(())
    }

    /// Appends a packet: its header, and then the bytes of its code-blocks.
    fn push_packet(&self, packet: PacketId, out: &mut Vec<u8>) -> Result<(), AllocError>
        requires { IsPacketOf self.now.geometry (part_of_res self.now.geometry.profile
            self.now.geometry.levels packet.component packet.res) packet }
        ensures { OnOk result ((planes : Planes) → IsFrameOf planes self.now →
            out.new.items ≡ out.old.items ++ packet_of planes self.now packet) }
    {
        let header = header(self.packets.packet(packet));
        out.extend_from_slice(header.as_slice())?;
        self.push_codes(packet, out)?;
        Ok(())
    }

    /// Appends the packets of a tile-part in their order.
    fn push_body(&self, alloc: Global, index: u8, out: &mut Vec<u8>) -> Result<(), AllocError>
        requires { index < parts_of self.now.geometry.profile }
        ensures { OnOk result ((planes : Planes) → IsFrameOf planes self.now →
            out.new.items ≡ out.old.items ++ body_of planes self.now index) }
    {
        let packets = order(alloc, &self.geometry, index)?;
        for packet in &packets {
            self.push_packet(*packet, out)?;
        }
        Ok(())
    }

    /// Appends the tile-part of this index, counted from 0: its head, and its packets.
    pub fn push_part(&self, alloc: Global, index: u8, out: &mut Vec<u8>) -> Result<(), AllocError>
        requires { index < parts_of self.now.geometry.profile }
        ensures { OnOk result ((planes : Planes) → IsFrameOf planes self.now →
            out.new.items ≡ out.old.items ++ part_of planes self.now index) }
    {
        let length = self.packets.part_lengths()[index as usize];
        out.extend_from_slice(&part_head(length, index, self.geometry.profile.parts()))?;
        self.push_body(alloc, index, out)?;
        Ok(())
    }

    /// What the codestream holds in its byte budgets.
    pub fn held(&self) -> Held
        ensures { (planes : Planes) → IsFrameOf planes self.now →
            result ≡ chosen_held planes self.now }
    {
        self.packets.held()
    }
}
