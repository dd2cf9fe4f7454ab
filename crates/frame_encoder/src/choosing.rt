// The choice of a frame's coding passes.
ghost use Rattle.std.specs.Prelude.{◌≡◌, IfOk};
ghost use Rattle.budget_duals.specs.Held.{IsWithin};
ghost use Rattle.pnm_frames.specs.View.{picture_of};
ghost use Rattle.frame_choice.specs.Choice.{no_passes};
ghost use Rattle.frame_choice.specs.Chosen.{IsChosen};
ghost use Rattle.frame_encoder.specs.Empty.{empty_held};
ghost use Rattle.frame_encoder.specs.Encoded.{IsGeometryOf, distortion_of, planes_of, steps_in};
ghost use Rattle.frame_encoder.specs.Orders.{AreLimitsFor};
ghost use Rattle.frame_encoder.specs.Writing.{IsFrameOf};

use crate::writing::ChosenPasses;
use band_geometry::Geometry;
use budget_duals::{Certificate, Limits};
use dz_quantiser::StepSizes;
use frame_choice::{QuantisedFrame, choose};
use frame_coefficients::coefficients;
use frame_packets::FramePackets;
use pnm_frames::Frame;
use std::alloc::{AllocError, Global};

/// The chosen passes of a frame, and how far they can be from the best choice.
#[derive(Drop)]
pub struct FrameChoice {
    pub passes: ChosenPasses,
    /// The distortion with nothing decoded, in units of half a step squared.
    pub empty: u128,
    pub certificate: Certificate,
}

/// Chooses the coding passes of a frame of this geometry, for which no limit is too small. When
/// they are chosen the coefficients are dropped, and with them the blocks that were coded: the
/// bytes of the chosen passes are kept.
pub fn choose_passes(
    alloc: Global,
    geometry: &Geometry,
    frame: &Frame,
    limits: &Limits,
) -> Result<FrameChoice, AllocError>
    requires geometry { IsGeometryOf geometry.now.profile (picture_of frame.now) geometry.now }
    requires allowed { AreLimitsFor geometry.now.profile limits.now }
    requires limits { IsWithin limits.now (empty_held geometry.now) }
    ensures geometry { IfOk result (λ c. c.passes.geometry ≡ geometry.now) }
    ensures frame { IfOk result
        (λ c. IsFrameOf (planes_of geometry.now (picture_of frame.now)) c.passes) }
    ensures empty { IfOk result (λ c. c.empty
        ≡ distortion_of geometry.now (picture_of frame.now) (no_passes geometry.now)) }
    ensures chosen { IfOk result (λ c. IsChosen geometry.now (steps_in geometry.now)
        (planes_of geometry.now (picture_of frame.now)) limits.now c.passes.choice.items
        c.certificate) }
{
    let steps = StepSizes::built_in(geometry.profile);
    let made = coefficients(
        alloc,
        geometry,
        &steps,
        frame.x.as_slice(),
        frame.y.as_slice(),
        frame.z.as_slice(),
    )?;
    let packets = FramePackets::empty(alloc, geometry, &steps)?;
    let quantised = QuantisedFrame {
        geometry,
        steps: &steps,
        c0: &made.c0,
        c1: &made.c1,
        c2: &made.c2,
    };
    let choice = choose(alloc, quantised, limits, packets)?;
    let passes = ChosenPasses {
        geometry: *geometry,
        codes: choice.codes,
        choice: choice.counts,
        packets: choice.packets,
    };
    Ok(FrameChoice {
        passes,
        empty: choice.empty,
        certificate: choice.certificate,
    })
}
