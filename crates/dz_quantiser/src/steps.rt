// The steps of the bands.
ghost use Rattle.std.specs.Prelude.{ℕ, ◌≡◌, ◌≢◌, ◌+◌, ◌*◌, ◌<◌, ◌≤◌, ◌↔◌, IsTrue};
ghost use Rattle.arrayvec.specs.ArrayVec.{array_vec_len};
ghost use Rattle.cine_nums.specs.Levels.{band_level};
ghost use Rattle.cine_nums.specs.Profile.{guard_of, levels_of};
ghost use Rattle.cine_nums.specs.declared.orient.Orient.{Orient};
ghost use Rattle.dz_quantiser.specs.Bands.{band_number, range_of, planes_of, band_planes};
ghost use Rattle.dz_quantiser.specs.Bands.{built_in_step, built_in_bands, step_of, IsUsableAt};
ghost use Rattle.dz_quantiser.specs.Bands.{AreUsable};

use crate::band::{BandQuantiser, BandStep};
use arrayvec::ArrayVec;
use cine_nums::{Orient, Profile};

/// The steps of all bands of a component, the same for each of the three.
#[derive(Drop)]
pub struct StepSizes {
    /// The guard bits.
    pub guard: u8,
    /// One step a band, in the order of the QCD segment, which [`band_number`] gives.
    pub bands: ArrayVec<BandStep, 19>,
}

impl StepSizes {
    /// The steps and guard bits that the encoder uses. A band of level n has the exponent `13 + n`
    /// and the mantissa 0; resolution 0 has the level of the profile's lowest bands.
    pub fn built_in(profile: Profile) -> StepSizes
        ensures guard { result.guard ≡ guard_of profile }
        ensures bands { result.bands.items ≡ built_in_bands (levels_of profile) }
        // The band at each place has its level.
        ensures levels { (r : ℕ) (o : Orient) → 1 ≤ r → r ≤ levels_of profile → o ≢ Orient.LL →
            step_of result r o ≡ built_in_step (band_level (levels_of profile) r) }
        ensures usable { AreUsable (levels_of profile) result }
    {
        let levels = profile.levels();
        let mut bands = ArrayVec::new();
        bands.push(built_in_step(levels));
        for done in 0..levels {
            let step = built_in_step(levels - done);
            bands.push(step);
            bands.push(step);
            bands.push(step);
        }
        StepSizes {
            guard: profile.guard(),
            bands,
        }
    }

    /// The step of a band of resolution `res`, of `levels` levels. Resolution 0 has LL alone, and
    /// no other resolution has it.
    pub fn step(&self, levels: u8, res: u8, orient: Orient) -> BandStep
        requires levels { levels ≤ 6 }
        requires count { array_vec_len self.now.bands ≡ 3 * levels + 1 }
        requires res { res ≤ levels }
        requires lowest { res ≡ 0 → orient ≡ Orient.LL }
        requires above { orient ≡ Orient.LL → res ≡ 0 }
        ensures { result ≡ step_of self.now res orient }
    {
        self.bands[usize::from(band_number(levels, res, orient))]
    }

    /// What the quantiser needs of a band of resolution `res`. Resolution 0 has LL alone, and no
    /// other resolution has it.
    pub fn band(&self, levels: u8, res: u8, orient: Orient) -> BandQuantiser
        requires levels { levels ≤ 6 }
        requires usable { AreUsable levels self.now }
        requires res { res ≤ levels }
        requires lowest { res ≡ 0 → orient ≡ Orient.LL }
        requires above { orient ≡ Orient.LL → res ≡ 0 }
        ensures step { result.step ≡ step_of self.now res orient }
        ensures range { result.range ≡ range_of orient }
        ensures planes { result.planes ≡ band_planes self.now res orient }
    {
        let step = self.step(levels, res, orient);
        BandQuantiser {
            step,
            range: range(orient),
            planes: planes(self.guard, step),
        }
    }

    /// Whether the quantiser takes these steps for a component of `levels` levels: the guard bits
    /// are at most 7, there is one step a band (ISO/IEC 15444-1, Annex A.6.4), and each has an
    /// exponent of at least the band's [`range`] in bits, a mantissa of 11 bits, and with the guard
    /// bits 1 to 20 magnitude bit-planes (Annex E.1), so that no exponent is above 21.
    pub fn are_usable(&self, levels: u8) -> bool
        requires { levels ≤ 6 }
        ensures { IsTrue result ↔ AreUsable levels self.now }
    {
        if self.guard > 7 || self.bands.len() != 3 * usize::from(levels) + 1 {
            return false;
        }
        if !self.is_usable_at(levels, 0, Orient::LL) {
            return false;
        }
        for res in 1..levels + 1 {
            let all = self.is_usable_at(levels, res, Orient::HL)
                && self.is_usable_at(levels, res, Orient::LH)
                && self.is_usable_at(levels, res, Orient::HH);
            if !all {
                return false;
            }
        }
        true
    }

    /// Whether the quantiser takes the step of a band.
    fn is_usable_at(&self, levels: u8, res: u8, orient: Orient) -> bool
        requires levels { levels ≤ 6 }
        requires guard { self.now.guard ≤ 7 }
        requires count { array_vec_len self.now.bands ≡ 3 * levels + 1 }
        requires res { res ≤ levels }
        requires lowest { res ≡ 0 → orient ≡ Orient.LL }
        requires above { orient ≡ Orient.LL → res ≡ 0 }
        ensures { IsTrue result ↔ IsUsableAt self.now res orient }
    {
        let step = self.step(levels, res, orient);
        range(orient) <= step.exponent
            && step.exponent <= 24
            && step.mantissa < 2048
            && planes(self.guard, step) <= 20
    }
}

/// The built-in step of a band of a level.
fn built_in_step(level: u8) -> BandStep
    requires { level ≤ 6 }
    ensures { result ≡ built_in_step level }
{
    BandStep {
        exponent: 13 + level,
        mantissa: 0,
    }
}

/// The place of a band in the order of the QCD segment: LL, then HL, LH and HH of resolution 1,
/// those of resolution 2, and so on. Resolution 0 has LL alone, and no other resolution has it.
pub fn band_number(levels: u8, res: u8, orient: Orient) -> u8
    requires levels { levels ≤ 6 }
    requires res { res ≤ levels }
    requires lowest { res ≡ 0 → orient ≡ Orient.LL }
    requires above { orient ≡ Orient.LL → res ≡ 0 }
    ensures value { result ≡ band_number res orient }
    ensures within { result < 3 * levels + 1 }
{
    match orient {
        Orient::LL => 0,
        Orient::HL => 3 * (res - 1) + 1,
        Orient::LH => 3 * (res - 1) + 2,
        Orient::HH => 3 * (res - 1) + 3,
    }
}

/// The dynamic range of a band in bits: the 12 of the samples, and 1 for each high-pass filter
/// (E-4).
pub fn range(orient: Orient) -> u8
    ensures { result ≡ range_of orient }
{
    match orient {
        Orient::LL => 12,
        Orient::HL | Orient::LH => 13,
        Orient::HH => 14,
    }
}

/// The number of magnitude bit-planes of a band: the guard bits and the exponent of its step, less
/// 1 (E-2), and 0 where both are 0.
pub fn planes(guard: u8, step: BandStep) -> u8
    requires guard { guard ≤ 7 }
    requires exponent { step.exponent < 32 }
    ensures { result ≡ planes_of guard step.exponent }
{
    (guard + step.exponent).saturating_sub(1)
}

#[cfg(test)]
mod tests {
    use super::*;

    #[test]
    fn steps_are_usable_where_each_band_has_one_in_range(rt: HostRuntime) {
        let steps = StepSizes::built_in(Profile::TwoK);
        assert!(rt; steps.are_usable(5));
        assert!(rt; !steps.are_usable(4));
        let mut bands = ArrayVec::new();
        bands.push(BandStep {
            exponent: 11,
            mantissa: 0,
        });
        assert!(rt; !StepSizes { guard: 1, bands }.are_usable(0));
    }
}
