// What the line of a codestream that is refused says.
ghost use Rattle.std.specs.Prelude.{ℕ, ◌≡◌, [], ◌∷◌, IfOk, IsSome, string_bytes};
ghost use Rattle.cert_text.specs.Refusals.{word_of};
ghost use Rattle.codestream_reader.specs.PacketFaults.{place_in};
ghost use Rattle.codestream_reader.specs.declared.refusal.ReadRefusal.TheVariants.{Memory};
ghost use Rattle.cinema_run.specs.StreamRefused.{marker_code, marker_numbers, packet_code};
ghost use Rattle.cinema_run.specs.StreamRefused.{part_code, part_numbers, stream_budget};
ghost use Rattle.cinema_run.specs.StreamRefused.{stream_code, stream_numbers};
ghost use Rattle.cinema_run.specs.StreamRefused.{stream_refused_line};

use arrayvec::ArrayVec;
use cert_text::{RefusedLine, write_refused};
use cine_nums::Budget;
use cinema_markers::MarkerRefusal;
use codestream_reader::ReadRefusal;
use packet_headers::PacketRefusal;
use std::alloc::{AllocError, Global};
use tile_parts::PartRefusal;

/// The number of a packet's fault.
fn packet_code(fault: PacketRefusal) -> u8
    ensures value { result ≡ packet_code fault }
    ensures named { IsSome (word_of result) }
{
    match fault {
        PacketRefusal::HeaderTruncated(_) => 20,
        PacketRefusal::StuffedBitSet(_) => 21,
        PacketRefusal::ZeroPlanesTooMany(_) => 22,
        PacketRefusal::PassesTooMany(_) => 23,
        PacketRefusal::BodyTruncated(_) => 24,
    }
}

/// The number of a tile-part's fault.
fn part_code(fault: PartRefusal) -> u8
    ensures value { result ≡ part_code fault }
    ensures named { IsSome (word_of result) }
{
    match fault {
        PartRefusal::BadTilePart(_) => 30,
        PartRefusal::PsotZero(_) => 31,
        PartRefusal::TilePartMarker(..) => 32,
    }
}

/// The number of a main header's fault.
fn marker_code(fault: MarkerRefusal) -> u8
    ensures value { result ≡ marker_code fault }
    ensures named { IsSome (word_of result) }
{
    match fault {
        MarkerRefusal::NotSoc(_) => 40,
        MarkerRefusal::SegmentTruncated(_) => 41,
        MarkerRefusal::UnexpectedMarker(_) => 42,
        MarkerRefusal::Repeated(_) => 43,
        MarkerRefusal::Missing(..) => 44,
        MarkerRefusal::BadSiz(_) => 45,
        MarkerRefusal::BadCod(_) => 46,
        MarkerRefusal::BadQcd(_) => 47,
        MarkerRefusal::BadPoc(_) => 48,
        MarkerRefusal::BadTlm(_) => 49,
        MarkerRefusal::NotCinema(_) => 50,
        MarkerRefusal::TooLarge(_) => 51,
        MarkerRefusal::OutsideProfile(..) => 52,
    }
}

/// The number of a codestream's fault.
fn stream_code(refusal: ReadRefusal) -> u8
    requires { refusal ≡ Memory → ⊥ }
    ensures value { result ≡ stream_code refusal }
    ensures named { IsSome (word_of result) }
{
    match refusal {
        ReadRefusal::Main(fault) => marker_code(fault),
        ReadRefusal::Part(fault) => part_code(fault),
        ReadRefusal::Packet(fault) => packet_code(fault),
        ReadRefusal::BytesAfterEnd(_) => 60,
        ReadRefusal::LimitExceeded(..) => 61,
        ReadRefusal::TooManyPlanes(_) => 62,
        ReadRefusal::MissingEnd(_) => 63,
        ReadRefusal::PartTooLong(_) => 64,
        ReadRefusal::Memory => unreachable!(),
    }
}

/// The budget that holds too many bytes, if that is the fault.
fn stream_budget(refusal: ReadRefusal) -> Option<Budget>
    ensures { result ≡ stream_budget refusal }
{
    match refusal {
        ReadRefusal::LimitExceeded(budget, _) => Some(budget),
        _ => None,
    }
}

/// One number.
fn one(n: u32) -> ArrayVec<u64, 2>
    ensures { result.items ≡ n ∷ [] }
{
    let mut numbers = ArrayVec::new();
    numbers.push(u64::from(n));
    numbers
}

/// Two numbers.
fn two(n: u32, second: u16) -> ArrayVec<u64, 2>
    ensures { result.items ≡ n ∷ second ∷ [] }
{
    let mut numbers = ArrayVec::new();
    numbers.push(u64::from(n));
    numbers.push(u64::from(second));
    numbers
}

/// The place of a packet's fault.
fn packet_numbers(fault: PacketRefusal) -> ArrayVec<u64, 2>
    ensures { result.items ≡ place_in fault ∷ [] }
{
    match fault {
        PacketRefusal::HeaderTruncated(place)
        | PacketRefusal::StuffedBitSet(place)
        | PacketRefusal::ZeroPlanesTooMany(place)
        | PacketRefusal::PassesTooMany(place)
        | PacketRefusal::BodyTruncated(place) => one(place),
    }
}

/// The place of a tile-part's fault, and its marker, if it has one.
fn part_numbers(fault: PartRefusal) -> ArrayVec<u64, 2>
    ensures { result.items ≡ part_numbers fault }
{
    match fault {
        PartRefusal::BadTilePart(place) | PartRefusal::PsotZero(place) => one(place),
        PartRefusal::TilePartMarker(place, marker) => two(place, marker),
    }
}

/// The place of a main header's fault, and its marker or feature, if it has one.
fn marker_numbers(fault: MarkerRefusal) -> ArrayVec<u64, 2>
    ensures { result.items ≡ marker_numbers fault }
{
    match fault {
        MarkerRefusal::NotSoc(place)
        | MarkerRefusal::SegmentTruncated(place)
        | MarkerRefusal::UnexpectedMarker(place)
        | MarkerRefusal::Repeated(place)
        | MarkerRefusal::BadSiz(place)
        | MarkerRefusal::BadCod(place)
        | MarkerRefusal::BadQcd(place)
        | MarkerRefusal::BadPoc(place)
        | MarkerRefusal::BadTlm(place)
        | MarkerRefusal::NotCinema(place)
        | MarkerRefusal::TooLarge(place) => one(place),
        MarkerRefusal::Missing(place, marker) => two(place, marker),
        MarkerRefusal::OutsideProfile(place, feature) => two(place, u16::from(feature)),
    }
}

/// The numbers of a codestream's fault.
fn stream_numbers(refusal: ReadRefusal) -> ArrayVec<u64, 2>
    ensures { result.items ≡ stream_numbers refusal }
{
    match refusal {
        ReadRefusal::Main(fault) => marker_numbers(fault),
        ReadRefusal::Part(fault) => part_numbers(fault),
        ReadRefusal::Packet(fault) => packet_numbers(fault),
        ReadRefusal::BytesAfterEnd(n)
        | ReadRefusal::LimitExceeded(_, n)
        | ReadRefusal::MissingEnd(n)
        | ReadRefusal::PartTooLong(n) => one(n),
        ReadRefusal::TooManyPlanes(band) => one(u32::from(band)),
        ReadRefusal::Memory => ArrayVec::new(),
    }
}

/// The line of a codestream that is refused for a fault of its bytes.
pub fn stream_refused_line(
    alloc: Global,
    name: &str,
    refusal: ReadRefusal,
) -> Result<String, AllocError>
    requires { refusal ≡ Memory → ⊥ }
    ensures { IfOk result (λ line.
        string_bytes line ≡ stream_refused_line name.now refusal) }
{
    let line = RefusedLine {
        code: stream_code(refusal),
        budget: stream_budget(refusal),
        numbers: stream_numbers(refusal),
    };
    write_refused(alloc, name, &line)
}
