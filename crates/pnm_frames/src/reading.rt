// A whole frame.
ghost use Rattle.std.specs.Prelude.{◌≡◌, false, ◌≤◌, IsTrue, IsSome, IfOk, IfErr, IsOk, Ok};
ghost use Rattle.cine_nums.specs.Profile.{max_height_of, max_width_of};
ghost use Rattle.cine_nums.specs.declared.profile.Profile.TheVariants.{FourK};
ghost use Rattle.cine_ports.specs.WholePieces.{IsSuffixOf};
ghost use Rattle.pnm_frames.specs.Fault.{Gives, is_source};
ghost use Rattle.pnm_frames.specs.Grammar.{Spells};
ghost use Rattle.pnm_frames.specs.Keeps.{ReadsOn};
ghost use Rattle.pnm_frames.specs.Picture.{Fits, IsWithin, Picture};
ghost use Rattle.pnm_frames.specs.Reading.{frame_of, header_at};
ghost use Rattle.pnm_frames.specs.View.{picture_of};
ghost use Rattle.pnm_frames.specs.declared.refusal.FrameRefusal.TheVariants.{Memory};

use crate::frame::Frame;
use crate::header::read_header;
use crate::limits::SizeLimits;
use crate::raster::{expect_end, read_raster};
use crate::refusal::FrameRefusal;
use cine_ports::Frames;
use std::alloc::Global;

/// Reads all that is left of the begun frame.
fn read_all<F: Frames>(alloc: Global, f: &mut F, limits: SizeLimits) -> Result<Frame, FrameRefusal>
    requires working { F.has_failed f.old ≡ false }
    requires begun { IsTrue (F.reading f.old).is_begun }
    requires width { limits.width ≤ max_width_of FourK }
    requires height { limits.height ≤ max_height_of FourK }
    ensures found { IfOk result (λ frame. IsSome (F.source f.old).files →
        Fits limits (picture_of frame) × Spells (F.reading f.old).left (picture_of frame)) }
    ensures exact { IsSome (F.source f.old).files →
        Gives picture_of result (frame_of limits (F.reading f.old).left) }
    ensures memory { IfErr result (λ e. e ≡ Memory → IsSome (F.source f.old).files →
        IsOk (header_at limits (F.reading f.old).left)) }
    ensures sizes { IfOk result (λ frame. IsWithin limits frame.width frame.height) }
    ensures keeps { ReadsOn (F.source f.old) (F.source f.new) (F.reading f.old) (F.reading f.new) }
    ensures failed { F.has_failed f.new ≡ is_source result }
{
    let header = read_header(f, limits)?;
    let frame = read_raster(alloc, f, header)?;
    expect_end(f)?;
    Ok(frame)
}

/// Reads the begun frame, of which nothing has been read: the picture that its bytes spell, with a
/// width and height of at least 1 and within the limits.
///
/// A file of any other bytes is refused by its first fault in reading order: those of
/// `read_header`, SampleTooLarge and Truncated as by `read_row`, and TrailingBytes. A failed read
/// is refused as Source at once. Memory may come once the header is read, in place of any later
/// result.
pub fn read_frame<F: Frames>(
    alloc: Global,
    f: &mut F,
    limits: SizeLimits,
) -> Result<Frame, FrameRefusal>
    requires working { F.has_failed f.old ≡ false }
    requires begun { IsTrue (F.reading f.old).is_begun }
    requires width { limits.width ≤ max_width_of FourK }
    requires height { limits.height ≤ max_height_of FourK }
    // What is read is a picture within the limits, and the file spells it.
    ensures found { IfOk result (λ frame. IsSome (F.source f.old).files →
        Fits limits (picture_of frame) × Spells (F.reading f.old).left (picture_of frame)) }
    // What spells a picture within the limits is read, unless the source fails or memory has
    // run out.
    ensures only { IsSome (F.source f.old).files → (p : Picture) → Fits limits p →
        Spells (F.reading f.old).left p → Gives picture_of result (Ok p) }
    // The picture, or the first fault.
    ensures exact { IsSome (F.source f.old).files →
        Gives picture_of result (frame_of limits (F.reading f.old).left) }
    // A header with a fault is refused by that, whatever memory there is.
    ensures memory { IfErr result (λ e. e ≡ Memory → IsSome (F.source f.old).files →
        IsOk (header_at limits (F.reading f.old).left)) }
    // Also of a source whose files aren't known.
    ensures sizes { IfOk result (λ frame. IsWithin limits frame.width frame.height) }
    ensures begun { IsTrue (F.reading f.new).is_begun }
    ensures asked { (F.reading f.new).asked ≡ (F.reading f.old).asked }
    ensures source { F.source f.new ≡ F.source f.old }
    ensures left { IsSome (F.source f.old).files →
        IsSuffixOf (F.reading f.new).left (F.reading f.old).left }
    ensures failed { F.has_failed f.new ≡ is_source result }
{
    read_all(alloc, f, limits)
}
