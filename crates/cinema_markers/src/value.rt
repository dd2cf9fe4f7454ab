// What a main header says, read at the places of its segments.
ghost use Rattle.std.specs.Prelude.{◌≡◌, ◌+◌, ◌*◌, ◌≤◌, ◌<◌, ◌^◌, length, map, slice_index};
ghost use Rattle.std.specs.List.{range_with_len};
ghost use Rattle.cine_nums.specs.Profile.{parts_of};
ghost use Rattle.cinema_markers.specs.Reading.{IsReadable};
ghost use Rattle.cinema_markers.specs.Tables.{entry_size, index_size, length_size, length_at};
ghost use Rattle.cinema_markers.specs.Value.{step_with, steps_at, part_place, part_length, main_at};

use crate::found::Found;
use crate::header::{MainHeader, MainRead};
use crate::siz::profile;
use crate::tlm::{entry_place, index_size};
use arrayvec::ArrayVec;
use cine_nums::{Profile, long_at, word_at};
use dz_quantiser::{BandStep, StepSizes};

/// The step that 16 bits of QCD give: an exponent of 5 bits above a mantissa of 11 bits.
fn step_with(word: u16) -> BandStep
    ensures { result ≡ step_with word }
{
    BandStep {
        exponent: (word / 2048) as u8,
        mantissa: word % 2048,
    }
}

/// The guard bits and the steps of QCD at the place `qcd`, for so many levels.
fn steps(bytes: &[u8], qcd: u32, levels: u8) -> StepSizes
    requires places { length bytes.now < 2 ^ 32 }
    requires levels { levels ≤ 6 }
    requires inside { qcd + (7 + 6 * levels) ≤ length bytes.now }
    ensures { result ≡ steps_at bytes.now qcd (3 * levels + 1) }
{
    let place = qcd as usize;
    let mut bands = ArrayVec::new();
    for i in 0..3 * usize::from(levels) + 1 {
        bands.push(step_with(word_at(bytes, place + (5 + 2 * i))));
    }
    StepSizes {
        guard: bytes[place + 4] / 32,
        bands,
    }
}

/// The length of a tile-part at the place `at` of a TLM with this Stlm, in bytes.
fn length_at(stlm: u8, bytes: &[u8], at: usize) -> u32
    requires { at + length_size stlm ≤ length bytes.now }
    ensures { result ≡ length_at stlm bytes.now at }
{
    if stlm == 0x50 || stlm == 0x60 {
        long_at(bytes, at)
    } else {
        u32::from(word_at(bytes, at))
    }
}

/// Where TLM at the place `tlm` has the length of tile-part `i`.
fn part_place(bytes: &[u8], tlm: u32, i: u32) -> u32
    requires places { length bytes.now < 2 ^ 32 }
    requires few { i < 6 }
    requires head { tlm + 6 ≤ length bytes.now }
    requires inside { tlm + (6 + (i + 1) * entry_size (slice_index bytes.now (tlm + 5)))
        ≤ length bytes.now }
    ensures value { result ≡ part_place bytes.now tlm i }
    ensures inside { result + length_size (slice_index bytes.now (tlm + 5)) ≤ length bytes.now }
{
    let stlm = bytes[tlm as usize + 5];
    entry_place(tlm, stlm, i) + index_size(stlm)
}

/// The places of the lengths of TLM at the place `tlm`, in the order of the tile-parts.
fn part_places(bytes: &[u8], tlm: u32, profile: Profile) -> ArrayVec<u32, 6>
    requires places { length bytes.now < 2 ^ 32 }
    requires inside { tlm + (6 + parts_of profile * entry_size (slice_index bytes.now (tlm + 5)))
        ≤ length bytes.now }
    ensures { result.items ≡ map (part_place bytes.now tlm) (range_with_len 0 (parts_of profile)) }
{
    let mut places = ArrayVec::new();
    for i in 0..u32::from(profile.parts()) {
        places.push(part_place(bytes, tlm, i));
    }
    places
}

/// The lengths of TLM at the place `tlm`, in bytes, in the order of the tile-parts.
fn part_lengths(bytes: &[u8], tlm: u32, profile: Profile) -> ArrayVec<u32, 6>
    requires places { length bytes.now < 2 ^ 32 }
    requires inside { tlm + (6 + parts_of profile * entry_size (slice_index bytes.now (tlm + 5)))
        ≤ length bytes.now }
    ensures { result.items ≡ map (part_length bytes.now tlm) (range_with_len 0 (parts_of profile)) }
{
    let stlm = bytes[tlm as usize + 5];
    let mut lengths = ArrayVec::new();
    for i in 0..u32::from(profile.parts()) {
        lengths.push(length_at(stlm, bytes, part_place(bytes, tlm, i) as usize));
    }
    lengths
}

/// The main header whose segments stand at the places that were found, and which ends at `at`.
pub fn main_at(bytes: &[u8], found: Found, at: u32) -> MainRead
    requires places { length bytes.now < 2 ^ 32 }
    requires readable { IsReadable bytes.now found }
    ensures { result ≡ main_at bytes.now found at }
{
    let profile = profile(bytes, found.siz);
    let siz = found.siz.unwrap_or(0) as usize;
    let cod = found.cod.unwrap_or(0) as usize;
    let tlm = found.tlm.unwrap_or(0);
    let levels = bytes[cod + 9];
    MainRead {
        main: MainHeader {
            profile,
            width: long_at(bytes, siz + 6),
            height: long_at(bytes, siz + 10),
            levels,
            flag: bytes[cod + 8],
            steps: steps(bytes, found.qcd.unwrap_or(0), levels),
            parts: part_lengths(bytes, tlm, profile),
        },
        parts_at: part_places(bytes, tlm, profile),
        bytes: at,
    }
}
