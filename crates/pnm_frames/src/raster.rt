// The raster: three samples a pixel, row by row.
ghost use Rattle.std.specs.Prelude.{ℕ, ◌+◌, IfErr, OnErr, ◌≡◌, false, ◌≤◌, ◌<◌, ◌^◌, ◌*◌, ◌++◌};
ghost use Rattle.std.specs.Prelude.{◌↔◌, IsTrue, IsSome, All, length, OnOk, IfOk};
ghost use Rattle.std.specs.List.{flat_map};
ghost use Rattle.cine_nums.specs.Profile.{max_height_of, max_width_of};
ghost use Rattle.cine_nums.specs.declared.profile.Profile.TheVariants.{FourK};
ghost use Rattle.pnm_frames.specs.Fault.{Fails, Gives, is_source, IsOfEnd, IsOfRow, fault_of};
ghost use Rattle.pnm_frames.specs.Keeps.{ReadsOn};
ghost use Rattle.pnm_frames.specs.Picture.{IsSample, interleaved, sample};
ghost use Rattle.pnm_frames.specs.Reading.{ended, samples_at};

use crate::byte::read_byte;
use crate::fault::FrameFault;
use crate::frame::Frame;
use crate::header::Header;
use crate::refusal::FrameRefusal;
use byteorder::{BigEndian, ByteOrder};
use cine_ports::{Frames, read_fully};
use std::alloc::Global;

/// Whether each value has 12 bits.
fn all_fit(row: &[u16]) -> bool
    ensures { IsTrue result ↔ All IsSample row.now }
{
    let mut largest = 0;
    for value in row {
        if *value > largest {
            largest = *value;
        }
    }
    largest <= 4095
}

/// Turns the bytes of a row into its values, high byte first.
fn decode_row(bytes: &[u8], row: &mut [u16])
    requires { length bytes.now ≡ 2 * length row.old }
    ensures { bytes.now ≡ flat_map sample row.new }
{
    BigEndian::read_u16_into(bytes, row);
}

/// The first fault of a row of which these bytes were read from a place on: a sample above 4095, or
/// else that the bytes are too few.
fn row_fault(bytes: &[u8], at: u32) -> FrameRefusal
    requires bytes { length bytes.now ≤ 2 ^ 16 }
    requires at { at ≤ 60000000 }
    ensures fault { (count : ℕ) → length bytes.now < 2 * count →
        Fails result (samples_at count at bytes.now) }
    ensures refusal { IsOfRow result }
    ensures tells { IsSome (fault_of result) }
{
    for i in 0..bytes.len() / 2 {
        if bytes[2 * i] as u32 * 256 + bytes[2 * i + 1] as u32 > 4095 {
            return FrameRefusal::Fault(FrameFault::SampleTooLarge(at + 2 * i as u32));
        }
    }
    FrameRefusal::Fault(FrameFault::Truncated(at + bytes.len() as u32))
}

/// Reads as many samples as the row has, through a scratch buffer of two bytes a sample, from the
/// place of the next byte on, and moves the place past them.
///
/// The first sample that is above 4095 or isn't whole decides: it is refused as SampleTooLarge with
/// the place of its first byte, or as Truncated with the number of the file's bytes. A failed read
/// is refused as Source at once. After a refusal the place is as it was, and the scratch buffer and
/// the row may hold anything. Takes no memory.
pub fn read_row<F: Frames>(
    f: &mut F,
    at: &mut u32,
    scratch: &mut [u8],
    row: &mut [u16],
) -> Result<(), FrameRefusal>
    requires working { F.has_failed f.old ≡ false }
    requires begun { IsTrue (F.reading f.old).is_begun }
    requires scratch { length scratch.old ≡ 2 * length row.old }
    requires row { length row.old ≤ 12288 }
    requires at { at.old ≤ 60000000 }
    ensures reads { IsSome (F.source f.old).files →
        Gives (λ _. (row.new, (F.reading f.new).left)) result
        (samples_at (length row.old) at.old (F.reading f.old).left) }
    ensures spelled { OnOk result (IsSome (F.source f.old).files →
        (F.reading f.old).left ≡ flat_map sample row.new ++ (F.reading f.new).left) }
    ensures range { OnOk result (All IsSample row.new) }
    ensures at { OnOk result (at.new ≡ at.old + 2 * length row.old) }
    ensures err { OnErr result (at.new ≡ at.old) }
    ensures refusals { IfErr result IsOfRow }
    ensures keeps { ReadsOn (F.source f.old) (F.source f.new) (F.reading f.old) (F.reading f.new) }
    ensures failed { F.has_failed f.new ≡ is_source result }
{
    let seen = read_fully(f, scratch)?;
    if seen < scratch.len() {
        return Err(row_fault(&scratch[..seen], *at));
    }
    decode_row(scratch, row);
    if !all_fit(row) {
        return Err(row_fault(scratch, *at));
    }
    *at += seen as u32;
    Ok(())
}

/// Sees that nothing is left of the begun frame.
///
/// A further byte is refused as TrailingBytes, a failed read as Source. Takes no memory.
pub fn expect_end<F: Frames>(f: &mut F) -> Result<(), FrameRefusal>
    requires working { F.has_failed f.old ≡ false }
    requires begun { IsTrue (F.reading f.old).is_begun }
    ensures reads { IsSome (F.source f.old).files →
        Gives (λ nothing. nothing) result (ended tt (F.reading f.old).left) }
    ensures refusals { IfErr result IsOfEnd }
    ensures keeps { ReadsOn (F.source f.old) (F.source f.new) (F.reading f.old) (F.reading f.new) }
    ensures failed { F.has_failed f.new ≡ is_source result }
{
    match read_byte(f)? {
        None => Ok(()),
        Some(_) => Err(FrameRefusal::Fault(FrameFault::TrailingBytes)),
    }
}

/// Writes the samples of a row into the rows of the three planes.
fn split_row(row: &[u16], x: &mut [u16], y: &mut [u16], z: &mut [u16])
    requires row { length row.now ≡ 3 * length x.old }
    requires y { length y.old ≡ length x.old }
    requires z { length z.old ≡ length x.old }
    ensures { row.now ≡ interleaved x.new y.new z.new }
{
    for i in 0..x.len() {
        x[i] = row[3 * i];
        y[i] = row[3 * i + 1];
        z[i] = row[3 * i + 2];
    }
}

/// Reads the rows of three planes, through a row of samples and its bytes.
fn read_rows<F: Frames>(
    f: &mut F,
    scratch: &mut [u8],
    row: &mut [u16],
    x: &mut [u16],
    y: &mut [u16],
    z: &mut [u16],
    header: Header,
) -> Result<(), FrameRefusal>
    requires working { F.has_failed f.old ≡ false }
    requires begun { IsTrue (F.reading f.old).is_begun }
    requires width { header.width ≤ max_width_of FourK }
    requires size { header.width * header.height ≤ max_width_of FourK * max_height_of FourK }
    requires bytes { header.bytes ≤ 4096 }
    requires row { length row.old ≡ 3 * header.width }
    requires scratch { length scratch.old ≡ 2 * length row.old }
    requires x { length x.old ≡ header.width * header.height }
    requires y { length y.old ≡ header.width * header.height }
    requires z { length z.old ≡ header.width * header.height }
    ensures reads { IsSome (F.source f.old).files →
        Gives (λ _. (interleaved x.new y.new z.new, (F.reading f.new).left)) result
        (samples_at (3 * (header.width * header.height)) header.bytes (F.reading f.old).left) }
    ensures spelled { OnOk result (IsSome (F.source f.old).files →
        (F.reading f.old).left ≡ flat_map sample (interleaved x.new y.new z.new)
        ++ (F.reading f.new).left) }
    ensures x_range { OnOk result (All IsSample x.new) }
    ensures y_range { OnOk result (All IsSample y.new) }
    ensures z_range { OnOk result (All IsSample z.new) }
    ensures keeps { ReadsOn (F.source f.old) (F.source f.new) (F.reading f.old) (F.reading f.new) }
    ensures failed { F.has_failed f.new ≡ is_source result }
{
    let width = header.width as usize;
    let mut at = header.bytes;
    let mut start = 0;
    for _ in 0..header.height {
        read_row(f, &mut at, scratch, row)?;
        let end = start + width;
        split_row(
            row,
            &mut x[start..end],
            &mut y[start..end],
            &mut z[start..end],
        );
        start = end;
    }
    Ok(())
}

/// Reads the planes of a frame of this width and height.
pub fn read_raster<F: Frames>(
    alloc: Global,
    f: &mut F,
    header: Header,
) -> Result<Frame, FrameRefusal>
    requires working { F.has_failed f.old ≡ false }
    requires begun { IsTrue (F.reading f.old).is_begun }
    requires width { header.width ≤ max_width_of FourK }
    requires height { header.height ≤ max_height_of FourK }
    requires bytes { header.bytes ≤ 4096 }
    ensures reads { IsSome (F.source f.old).files →
        Gives (λ frame. (
          interleaved frame.x.items frame.y.items frame.z.items,
          (F.reading f.new).left,
        )) result
        (samples_at (3 * (header.width * header.height)) header.bytes (F.reading f.old).left) }
    ensures spelled { IfOk result (λ frame. IsSome (F.source f.old).files → (F.reading f.old).left
        ≡ flat_map sample (interleaved frame.x.items frame.y.items frame.z.items)
        ++ (F.reading f.new).left) }
    ensures width { IfOk result (λ frame. frame.width ≡ header.width) }
    ensures height { IfOk result (λ frame. frame.height ≡ header.height) }
    ensures keeps { ReadsOn (F.source f.old) (F.source f.new) (F.reading f.old) (F.reading f.new) }
    ensures failed { F.has_failed f.new ≡ is_source result }
{
    let across = header.width as usize;
    let count = across * header.height as usize;
    let mut x = vec![in alloc; 0u16; count]?;
    let mut y = vec![in alloc; 0u16; count]?;
    let mut z = vec![in alloc; 0u16; count]?;
    let mut row = vec![in alloc; 0u16; 3 * across]?;
    let mut scratch = vec![in alloc; 0u8; 6 * across]?;
    read_rows(f, &mut scratch, &mut row, &mut x, &mut y, &mut z, header)?;
    let Header { width, height, .. } = header;
    Ok(Frame {
        width,
        height,
        x,
        y,
        z,
    })
}
