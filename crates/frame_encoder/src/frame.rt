// One frame, from its samples to its codestream.
ghost use Rattle.std.specs.Prelude.{ℕ, ◌≡◌, ◌↔◌, ◌^◌, ◌<◌, ◌≤◌, Err, IfOk, length};
ghost use Rattle.budget_duals.specs.Held.{limits_of, IsWithin};
ghost use Rattle.cine_nums.specs.Profile.{max_height_of, max_width_of};
ghost use Rattle.cine_nums.specs.declared.budget.Budget.{Budget};
ghost use Rattle.pnm_frames.specs.View.{picture_of};
ghost use Rattle.frame_encoder.specs.Empty.{empty_held};
ghost use Rattle.frame_encoder.specs.Encoded.{Encodes, IsGeometryOf, encoding_of};
ghost use Rattle.frame_encoder.specs.Orders.{AreLimitsFor};
ghost use Rattle.frame_encoder.specs.Refused.{IsTooSmall};
ghost use Rattle.frame_encoder.specs.declared.refusal.EncodeRefusal.TheVariants.{LimitTooSmall};

use crate::choosing::{FrameChoice, choose_passes};
use crate::codestream::codestream;
use crate::counts::empty_held;
use crate::order::EncodeOrder;
use crate::refusal::EncodeRefusal;
use crate::writing::ChosenPasses;
use band_geometry::Geometry;
use budget_duals::{Certificate, Held};
use cine_nums::Profile;
use pnm_frames::Frame;
use profile_reader::chosen_reads;
use std::alloc::{AllocError, Global};

/// The codestream of a frame, what was chosen and counted of it, and how far the choice can be from
/// the best one.
#[derive(Drop)]
pub struct Encoded {
    /// The codestream, from SOC to EOC.
    pub bytes: Vec<u8>,
    /// The number of coding passes of each code-block, by block number.
    pub choice: Vec<u8>,
    /// What the codestream holds in its byte budgets, in bytes.
    pub held: Held,
    /// The distortion with nothing decoded, in units of half a step squared.
    pub empty: u128,
    /// The distortion with the chosen passes, and how far the choice can be from the best one.
    pub certificate: Certificate,
}

/// The geometry of a frame by the levels of the profile.
fn geometry_of(profile: Profile, frame: &Frame) -> Geometry
    requires some_width { 1 ≤ frame.now.width }
    requires width { frame.now.width ≤ max_width_of profile }
    requires some_height { 1 ≤ frame.now.height }
    requires height { frame.now.height ≤ max_height_of profile }
    ensures { IsGeometryOf profile (picture_of frame.now) result }
{
    Geometry::new(profile, profile.levels(), frame.width, frame.height)
}

/// Encodes a frame of this geometry, for which no limit is too small.
fn encode_within(
    alloc: Global,
    frame: &Frame,
    order: &EncodeOrder,
    geometry: &Geometry,
) -> Result<Encoded, AllocError>
    requires geometry { IsGeometryOf order.now.profile (picture_of frame.now) geometry.now }
    requires allowed { AreLimitsFor order.now.profile order.now.limits }
    requires limits { IsWithin order.now.limits (empty_held geometry.now) }
    ensures encodes { IfOk result (λ made.
        Encodes order.now (picture_of frame.now) (encoding_of made)) }
    ensures few { IfOk result (λ made. length made.choice.items < 2 ^ 32) }
{
    chosen_reads();
    let chosen = choose_passes(alloc, geometry, frame, &order.limits)?;
    let bytes = codestream(alloc, &chosen.passes)?;
    let held = chosen.passes.held();
    let FrameChoice {
        passes,
        empty,
        certificate,
    } = chosen;
    let ChosenPasses { choice, .. } = passes;
    Ok(Encoded {
        bytes,
        choice,
        held,
        empty,
        certificate,
    })
}

/// Encodes a frame of at most the sizes of the order's profile. What the codestream holds in each
/// byte budget, headers included, is within the order's limits. The coding passes are chosen by
/// their gain for a byte, and the certificate bounds how far any other choice that fits beside the
/// written headers can be below this one's distortion (ISO/IEC 15444-1, J.14.3).
///
/// `LimitTooSmall` comes exactly if the codestream without any coding pass doesn't fit these
/// limits, before any memory is taken, and never with the limits of the profile.
pub fn encode(alloc: Global, frame: &Frame, order: &EncodeOrder) -> Result<Encoded, EncodeRefusal>
    requires some_width { 1 ≤ frame.now.width }
    requires width { frame.now.width ≤ max_width_of order.now.profile }
    requires some_height { 1 ≤ frame.now.height }
    requires height { frame.now.height ≤ max_height_of order.now.profile }
    requires limits { AreLimitsFor order.now.profile order.now.limits }
    ensures encodes { IfOk result (λ made.
        Encodes order.now (picture_of frame.now) (encoding_of made)) }
    // The choice has one number for each code-block of the frame.
    ensures few { IfOk result (λ made. length made.choice.items < 2 ^ 32) }
    ensures too_small { (budget : Budget) (needed : ℕ) →
        (result ≡ Err (LimitTooSmall budget needed))
        ↔ IsTooSmall order.now (picture_of frame.now) budget needed }
    ensures never { order.now.limits ≡ limits_of order.now.profile →
        (budget : Budget) (needed : ℕ) → result ≡ Err (LimitTooSmall budget needed) → ⊥ }
{
    let geometry = geometry_of(order.profile, frame);
    let empty = empty_held(&geometry);
    match order.limits.broken(&empty) {
        Some(budget) => Err(EncodeRefusal::LimitTooSmall(budget, empty.bytes(budget))),
        None => match encode_within(alloc, frame, order, &geometry) {
            Ok(made) => Ok(made),
            Err(AllocError) => Err(EncodeRefusal::Memory),
        },
    }
}
