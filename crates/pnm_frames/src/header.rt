// The header of a file: the magic number, the width, the height and the maxval.
ghost use Rattle.std.specs.Prelude.{◌≡◌, false, ◌≤◌, ◌<◌, ◌+◌, ◌-◌, ◌*◌, ◌^◌, true, min, nat_le};
ghost use Rattle.std.specs.Prelude.{◌&&◌, ◌==◌, if◌then◌else◌, IsTrue, IsSome, IfOk, IfErr, IfSome};
ghost use Rattle.std.specs.Prelude.{OnOk};
ghost use Rattle.std.specs.Char.{is_ascii_digit};
ghost use Rattle.pnm_frames.specs.Fault.{Gives, is_source, IsOfHeader};
ghost use Rattle.pnm_frames.specs.Grammar.{is_white as is_white_space};
ghost use Rattle.pnm_frames.specs.Grammar.{begins_gap as is_gap_begin, ends_number as is_number_end};
ghost use Rattle.pnm_frames.specs.Keeps.{ReadsOn};
ghost use Rattle.pnm_frames.specs.Reading.{byte_at, capped, digits_at, gap_at, goes_on as gap_goes_on};
ghost use Rattle.pnm_frames.specs.Reading.{header_at, magic_at, ranged_at};
ghost use Rattle.pnm_frames.specs.Reading.{stays_open as comment_stays_open};

use crate::byte::read_byte;
use crate::fault::FrameFault;
use crate::limits::SizeLimits;
use crate::refusal::FrameRefusal;
use cine_ports::Frames;

/// What a header says: the width and height of a frame in pixels, and its own length in bytes.
#[derive(Clone, Copy, Debug, PartialEq, Eq)]
pub struct Header {
    pub width: u32,
    pub height: u32,
    pub bytes: u32,
}

/// Whether a byte is space, TAB, LF or CR.
fn is_white(b: u8) -> bool
    ensures { result ≡ is_white_space b }
{
    b == b' ' || b == b'\t' || b == b'\n' || b == b'\r'
}

/// Whether a byte begins a gap: white space, or the `#` of a comment.
fn begins_gap(b: u8) -> bool
    ensures { result ≡ is_gap_begin b }
{
    is_white(b) || b == b'#'
}

/// Whether a byte goes on with a gap, inside of a comment or not.
fn goes_on(commented: bool, b: u8) -> bool
    ensures { result ≡ gap_goes_on commented b }
{
    commented || begins_gap(b)
}

/// Whether the gap is inside of a comment after this byte. LF and CR end a comment.
fn stays_open(commented: bool, b: u8) -> bool
    ensures { result ≡ comment_stays_open commented b }
{
    if commented {
        return b != b'\n' && b != b'\r';
    }
    b == b'#'
}

/// Whether a byte ends a number: white space, and a `#` too unless it is the last number, the
/// maxval.
fn ends_number(last: bool, b: u8) -> bool
    ensures { result ≡ is_number_end last b }
{
    if last { is_white(b) } else { begins_gap(b) }
}

/// Reads the header byte at a place, and moves the place past it.
fn read_header_byte<F: Frames>(f: &mut F, at: &mut u32) -> Result<u8, FrameRefusal>
    requires working { F.has_failed f.old ≡ false }
    requires begun { IsTrue (F.reading f.old).is_begun }
    requires at { at.old ≤ 4096 }
    ensures reads { IsSome (F.source f.old).files →
        Gives (λ b. (b, at.new, (F.reading f.new).left)) result
        (byte_at at.old (F.reading f.old).left) }
    ensures at { OnOk result (at.new ≡ at.old + 1) }
    ensures room { OnOk result (at.old < 4096) }
    ensures refusals { IfErr result IsOfHeader }
    ensures keeps { ReadsOn (F.source f.old) (F.source f.new) (F.reading f.old) (F.reading f.new) }
    ensures failed { F.has_failed f.new ≡ is_source result }
{
    if *at >= 4096 {
        return Err(FrameRefusal::Fault(FrameFault::HeaderTooLong));
    }
    let Some(b) = read_byte(f)? else {
        return Err(FrameRefusal::Fault(FrameFault::Truncated(*at)));
    };
    *at += 1;
    Ok(b)
}

/// Reads the rest of a gap, which may be inside of a comment, and the byte after the gap.
fn skip_gap<F: Frames>(f: &mut F, at: &mut u32, commented: bool) -> Result<u8, FrameRefusal>
    requires working { F.has_failed f.old ≡ false }
    requires begun { IsTrue (F.reading f.old).is_begun }
    requires at { at.old ≤ 4096 }
    ensures reads { IsSome (F.source f.old).files →
        Gives (λ b. (b, at.new, (F.reading f.new).left)) result
        (gap_at commented at.old (F.reading f.old).left) }
    ensures low { OnOk result (1 ≤ at.new) }
    ensures high { OnOk result (at.new ≤ 4096) }
    ensures refusals { IfErr result IsOfHeader }
    ensures keeps { ReadsOn (F.source f.old) (F.source f.new) (F.reading f.old) (F.reading f.new) }
    ensures failed { F.has_failed f.new ≡ is_source result }
{
    let mut commented = commented;
    loop {
        let b = read_header_byte(f, at)?;
        if !goes_on(commented, b) {
            return Ok(b);
        }
        commented = stays_open(commented, b);
    }
}

/// Reads further digits of a number that is worth n so far, and the byte that ends it. A number of
/// 2^32 or more is returned as 2^32.
fn read_digits<F: Frames>(
    f: &mut F,
    at: &mut u32,
    last: bool,
    n: u64,
) -> Result<(u64, u8), FrameRefusal>
    requires working { F.has_failed f.old ≡ false }
    requires begun { IsTrue (F.reading f.old).is_begun }
    requires at { at.old ≤ 4096 }
    requires n { n ≤ 2 ^ 32 }
    ensures reads { IsSome (F.source f.old).files →
        Gives (λ m. ((m.0, m.1), at.new, (F.reading f.new).left)) result
        (capped (digits_at last n at.old (F.reading f.old).left)) }
    ensures value { IfOk result (λ m. m.0 ≤ 2 ^ 32) }
    ensures at { OnOk result (at.new ≤ 4096) }
    ensures refusals { IfErr result IsOfHeader }
    ensures keeps { ReadsOn (F.source f.old) (F.source f.new) (F.reading f.old) (F.reading f.new) }
    ensures failed { F.has_failed f.new ≡ is_source result }
{
    let mut n = n;
    loop {
        let place = *at;
        let b = read_header_byte(f, at)?;
        if ends_number(last, b) {
            return Ok((n, b));
        }
        if !b.is_ascii_digit() {
            return Err(FrameRefusal::Fault(FrameFault::BadHeader(place)));
        }
        n = with_digit(n, b);
    }
}

/// A number with one more digit after it, and 2^32 for every number from there on.
fn with_digit(n: u64, digit: u8) -> u64
    requires n { n ≤ 2 ^ 32 }
    requires digit { digit ≤ 57 }
    ensures { result ≡ min (10 * n + (digit - 48)) (2 ^ 32) }
{
    let more = 10 * n + digit.saturating_sub(b'0') as u64;
    if more < 1 << 32 { more } else { 1 << 32 }
}

/// Reads the rest of a gap that began with this byte, a number, and the byte that ends it. Returns
/// None in place of a number that isn't in the range.
#[tactic(auto, unfolding(crate::specs::Reading::ranged_at, crate::specs::Reading::number_at))]
fn read_number<F: Frames>(
    f: &mut F,
    at: &mut u32,
    begun: u8,
    last: bool,
    low: u32,
    high: u32,
) -> Result<(Option<u32>, u8), FrameRefusal>
    requires working { F.has_failed f.old ≡ false }
    requires begun { IsTrue (F.reading f.old).is_begun }
    requires at { at.old ≤ 4096 }
    ensures reads { IsSome (F.source f.old).files →
        Gives (λ n. ((n.0, n.1), at.new, (F.reading f.new).left)) result
        (ranged_at last low high begun at.old (F.reading f.old).left) }
    ensures low { IfOk result (λ number. IfSome number.0 (λ n. low ≤ n)) }
    ensures high { IfOk result (λ number. IfSome number.0 (λ n. n ≤ high)) }
    ensures at { OnOk result (at.new ≤ 4096) }
    ensures refusals { IfErr result IsOfHeader }
    ensures keeps { ReadsOn (F.source f.old) (F.source f.new) (F.reading f.old) (F.reading f.new) }
    ensures failed { F.has_failed f.new ≡ is_source result }
{
    let first = skip_gap(f, at, begun == b'#')?;
    if !first.is_ascii_digit() {
        return Err(FrameRefusal::Fault(FrameFault::BadHeader(*at - 1)));
    }
    let (n, end) = read_digits(f, at, last, (first - b'0') as u64)?;
    Ok((in_range(n, low, high), end))
}

/// A number, if it is in the range.
fn in_range(n: u64, low: u32, high: u32) -> Option<u32>
    ensures value { result ≡ (if nat_le low n && nat_le n high then Some n else None) }
    ensures low { IfSome result (λ k. low ≤ k) }
    ensures high { IfSome result (λ k. k ≤ high) }
{
    if low as u64 <= n && n <= high as u64 {
        Some(n as u32)
    } else {
        None
    }
}

/// Reads the magic number and the first byte of the gap after it.
#[tactic(auto, unfolding(crate::specs::Reading::magic_at))]
fn read_magic<F: Frames>(f: &mut F, at: &mut u32) -> Result<u8, FrameRefusal>
    requires working { F.has_failed f.old ≡ false }
    requires begun { IsTrue (F.reading f.old).is_begun }
    requires at { at.old ≤ 4096 }
    ensures reads { IsSome (F.source f.old).files →
        Gives (λ b. (b, at.new, (F.reading f.new).left)) result
        (magic_at at.old (F.reading f.old).left) }
    ensures at { OnOk result (at.new ≤ 4096) }
    ensures refusals { IfErr result IsOfHeader }
    ensures keeps { ReadsOn (F.source f.old) (F.source f.new) (F.reading f.old) (F.reading f.new) }
    ensures failed { F.has_failed f.new ≡ is_source result }
{
    if read_header_byte(f, at)? != b'P' {
        return Err(FrameRefusal::Fault(FrameFault::NotPpm));
    }
    if read_header_byte(f, at)? != b'6' {
        return Err(FrameRefusal::Fault(FrameFault::NotPpm));
    }
    let place = *at;
    let b = read_header_byte(f, at)?;
    if !begins_gap(b) {
        return Err(FrameRefusal::Fault(FrameFault::BadHeader(place)));
    }
    Ok(b)
}

/// Reads the header of the begun frame, of which nothing has been read, and judges its numbers.
///
/// Comments in the gaps are read over: each from a `#` to the next LF or CR (ppm(5)). The first byte
/// after the maxval is white space and ends the header, so no comment begins there.
///
/// A number is judged at the byte that ends it, which is white space or, of width and height, the
/// `#` of a comment. The header is refused for its first fault in reading order: NotPpm, BadHeader
/// with its place, HeaderTooLong (more than 4,096 bytes), WidthOutOfRange and HeightOutOfRange (0,
/// or above the limit), WrongMaxval (not 4095), or Truncated with the number of bytes. A failed read
/// is refused as Source at once. Takes no memory.
#[tactic(auto, unfolding(crate::specs::Reading::header_at))]
pub fn read_header<F: Frames>(f: &mut F, limits: SizeLimits) -> Result<Header, FrameRefusal>
    requires working { F.has_failed f.old ≡ false }
    requires begun { IsTrue (F.reading f.old).is_begun }
    ensures reads { IsSome (F.source f.old).files →
        Gives (λ header. (
          (header.width, header.height),
          header.bytes,
          (F.reading f.new).left,
        )) result
        (header_at limits (F.reading f.old).left) }
    ensures width_low { IfOk result (λ header. 1 ≤ header.width) }
    ensures width_high { IfOk result (λ header. header.width ≤ limits.width) }
    ensures height_low { IfOk result (λ header. 1 ≤ header.height) }
    ensures height_high { IfOk result (λ header. header.height ≤ limits.height) }
    ensures bytes { IfOk result (λ header. header.bytes ≤ 4096) }
    ensures refusals { IfErr result IsOfHeader }
    ensures keeps { ReadsOn (F.source f.old) (F.source f.new) (F.reading f.old) (F.reading f.new) }
    ensures failed { F.has_failed f.new ≡ is_source result }
{
    let mut bytes = 0;
    let begun = read_magic(f, &mut bytes)?;
    let (Some(width), begun) = read_number(f, &mut bytes, begun, false, 1, limits.width)? else {
        return Err(FrameRefusal::Fault(FrameFault::WidthOutOfRange));
    };
    let (Some(height), begun) = read_number(f, &mut bytes, begun, false, 1, limits.height)? else {
        return Err(FrameRefusal::Fault(FrameFault::HeightOutOfRange));
    };
    let (Some(_), _) = read_number(f, &mut bytes, begun, true, 4095, 4095)? else {
        return Err(FrameRefusal::Fault(FrameFault::WrongMaxval));
    };
    Ok(Header {
        width,
        height,
        bytes,
    })
}
