// The packets of a frame.
ghost use Rattle.std.specs.Prelude.{◌≡◌, ◌<◌, IfOk, get_or, length, map};
ghost use Rattle.std.specs.List.{All};
ghost use Rattle.cine_nums.specs.Profile.{levels_of, parts_of};
ghost use Rattle.cine_nums.specs.declared.profile.Profile.{Profile};
ghost use Rattle.band_geometry.specs.Bands.{IsBlock};
ghost use Rattle.band_geometry.specs.declared.geometry.Geometry.{Geometry};
ghost use Rattle.band_geometry.specs.declared.places.BlockId.{BlockId};
ghost use Rattle.dz_quantiser.specs.Bands.{AreUsable, band_planes};
ghost use Rattle.dz_quantiser.specs.declared.steps.StepSizes.{StepSizes};
ghost use Rattle.cinema_markers.specs.MainHeader.{main_length};
ghost use Rattle.packet_headers.specs.Written.{CanWrite, CanWriteEntry, IsPlain};
ghost use Rattle.packet_order.specs.Order.{IsPacketOf, ordered_packets};
ghost use Rattle.profile_reader.specs.Packets.{BlockBytes, packet_with};
ghost use Rattle.profile_reader.specs.Spell.{part_lengths};
ghost use Rattle.frame_packets.specs.Keeps.{IsPacket, Keeps, frame_held, no_part, nothing};
ghost use Rattle.frame_packets.specs.Changes.{IsChanged};
ghost use Rattle.frame_packets.specs.Inside.{IsChange, IsSpot};

use crate::empty::empty_part;
use crate::part::{Change, PartPackets};
use crate::spot::{Spot, band_place, packet_of, place_in};
use arrayvec::ArrayVec;
use band_geometry::{BlockId, Geometry};
use budget_duals::Held;
use cine_nums::Profile;
use dz_quantiser::StepSizes;
use packet_headers::{Entry, Packet};
use packet_order::PacketId;
use std::alloc::{AllocError, Global};
use std::marker::Model;

/// The packets of a frame, each with the length of its header, and the length of each tile-part, by
/// what is written of each code-block.
///
/// In a contract it is a `FrameKept` of specs/Keeps.antt, and `Keeps` is its relation to what is
/// written of the code-blocks. Only `empty` takes memory or can refuse.
#[derive(Drop)]
pub struct FramePackets {
    geometry: Geometry,
    steps: StepSizes,
    parts: Vec<PartPackets>,
}

impl Model for FramePackets {
    ghost use Rattle.frame_packets.specs.Keeps.{FrameKept};
    ghost use Rattle.frame_packets.specs.Inside.{IsKept};

    ghost Value = { FrameKept };

    ghost view = { λ s. record { geometry = s.geometry; steps = s.steps; parts = s.parts.items } };

    ghost invariant = { λ s. IsKept (record {
      geometry = s.geometry;
      steps = s.steps;
      parts = s.parts.items;
    }) };
}

/// The bytes of a main header.
fn main_bytes(profile: Profile) -> u32
    ensures { result ≡ main_length profile }
{
    match profile {
        Profile::TwoK => 129,
        Profile::FourK => 169,
    }
}

/// A copy of steps.
fn copy_of(steps: &StepSizes) -> StepSizes
    ensures { result ≡ steps.now }
{
    let mut bands = ArrayVec::new();
    for step in steps.bands.as_slice() {
        bands.push(*step);
    }
    StepSizes {
        guard: steps.guard,
        bands,
    }
}

impl FramePackets {
    /// The packets of a frame in which no code-block is included. The levels are those of the
    /// profile, and the steps are those of the three components. The only refusal is out of memory.
    pub fn empty(
        alloc: Global,
        geometry: &Geometry,
        steps: &StepSizes,
    ) -> Result<FramePackets, AllocError>
        requires levels { geometry.now.levels ≡ levels_of geometry.now.profile }
        requires usable { AreUsable geometry.now.levels steps.now }
        ensures { IfOk result (λ s. Keeps geometry.now steps.now nothing s) }
    {
        let mut parts = Vec::new(alloc);
        for index in 0..geometry.profile.parts() {
            parts.push(empty_part(alloc, geometry, steps, index)?)?;
        }
        Ok(FramePackets {
            geometry: *geometry,
            steps: copy_of(steps),
            parts,
        })
    }

    /// The length of each tile-part in bytes, from its SOT marker on: 3 of them for 2K, and 6 for
    /// 4K.
    pub fn part_lengths(&self) -> ArrayVec<u32, 6>
        ensures value { (g : Geometry) (steps : StepSizes) (given : BlockId → BlockBytes) →
            Keeps g steps given self.now → result.items ≡ part_lengths g steps given }
        ensures kept { result.items ≡ map (λ part. part.bytes) self.now.parts }
        ensures count { length result.items ≡ parts_of self.now.geometry.profile }
    {
        let mut lengths = ArrayVec::new();
        for part in &self.parts {
            lengths.push(part.bytes());
        }
        lengths
    }

    /// What the codestream holds in its byte budgets.
    pub fn held(&self) -> Held
        ensures { (g : Geometry) (steps : StepSizes) (given : BlockId → BlockBytes) →
            Keeps g steps given self.now → result ≡ frame_held g steps given }
    {
        let lengths = self.part_lengths();
        let profile = self.geometry.profile;
        Held::of(profile, main_bytes(profile), lengths.as_slice())
    }

    /// What the codestream would hold in its byte budgets with this entry of a code-block. The
    /// block is one of the frame, and the entry can be written in its band: an included one by the
    /// conditions of `packet_headers::header`, any other has zeros.
    pub fn held_with(&self, id: BlockId, entry: Entry) -> Held
        requires block { IsBlock self.now.geometry id }
        requires entry { CanWriteEntry (band_planes self.now.steps id.res id.orient) entry }
        requires plain { IsPlain entry }
        ensures { (g : Geometry) (steps : StepSizes) (given changed : BlockId → BlockBytes) →
            Keeps g steps given self.now → IsChanged g id entry given changed →
            result ≡ frame_held g steps changed }
    {
        let spot = self.spot(id);
        let change = self.change(id, spot, entry);
        let mut lengths = self.part_lengths();
        lengths[spot.part as usize] = change.bytes;
        let profile = self.geometry.profile;
        Held::of(profile, main_bytes(profile), lengths.as_slice())
    }

    /// Gives a code-block this entry, under the conditions of `held_with`.
    pub fn set(&mut self, id: BlockId, entry: Entry)
        requires block { IsBlock self.old.geometry id }
        requires entry { CanWriteEntry (band_planes self.old.steps id.res id.orient) entry }
        requires plain { IsPlain entry }
        ensures keeps { (g : Geometry) (steps : StepSizes) (given changed : BlockId → BlockBytes) →
            Keeps g steps given self.old → IsChanged g id entry given changed →
            Keeps g steps changed self.new }
        ensures geometry { self.new.geometry ≡ self.old.geometry }
        ensures steps { self.new.steps ≡ self.old.steps }
    {
        let spot = self.spot(id);
        let change = self.change(id, spot, entry);
        let part = &mut self.parts[spot.part as usize];
        part.put(spot.at, spot.band, spot.place, entry, change);
    }

    /// The packets of the tile-part of this index, counted from 0, in their order.
    pub fn order(&self, index: u8) -> &[PacketId]
        requires { index < parts_of self.now.geometry.profile }
        ensures value { result.now ≡ ordered_packets self.now.geometry index }
        ensures each { All (IsPacketOf self.now.geometry index) result.now }
    {
        let part = &self.parts[index as usize];
        part.ids()
    }

    /// A packet of the frame: one of the tile-part that holds its resolution. It can be written.
    pub fn packet(&self, id: PacketId) -> &Packet
        requires { IsPacket self.now.geometry id }
        ensures packet { (g : Geometry) (steps : StepSizes) (given : BlockId → BlockBytes) →
            Keeps g steps given self.now → result.now ≡ packet_with g steps given id }
        ensures can_write { CanWrite result.now }
    {
        let part = &self.parts[self.geometry.part_at(id.component, id.res) as usize];
        part.packet(part.place_of(id))
    }

    /// Where the entry of a code-block stands.
    fn spot(&self, id: BlockId) -> Spot
        requires { IsBlock self.now.geometry id }
        ensures { IsSpot self.now.geometry id result }
    {
        let part = self.geometry.part_of(id);
        Spot {
            part,
            at: self.parts[part as usize].place_of(packet_of(id)),
            band: band_place(id.orient),
            place: place_in(&self.geometry, id),
        }
    }

    /// What the tile-part of a code-block becomes with this entry of it.
    fn change(&self, id: BlockId, spot: Spot, entry: Entry) -> Change
        requires block { IsBlock self.now.geometry id }
        requires spot { IsSpot self.now.geometry id spot }
        requires entry { CanWriteEntry (band_planes self.now.steps id.res id.orient) entry }
        requires plain { IsPlain entry }
        ensures { IsChange (get_or self.now.parts spot.part no_part) spot.at spot.band spot.place
            entry result }
    {
        self.parts[spot.part as usize].change(spot.at, spot.band, spot.place, entry)
    }
}
