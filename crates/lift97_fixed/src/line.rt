// The transform of one line of samples.
ghost use Rattle.std.specs.Prelude.{◌≡◌, ℕ, ◌+◌, ◌-◌, ◌/◌, ◌<◌, ◌≤◌, min, ℤ, List, length, All};
ghost use Rattle.cine_nums.specs.Fixed.{Within30};
ghost use Rattle.lift97_fixed.specs.Apart.{IsApart};
ghost use Rattle.lift97_fixed.specs.Line.{at, left_of, right_of, lifted, scaled, lift, scale};
ghost use Rattle.lift97_fixed.specs.Line.{delta, split, IsParameter};
ghost use Rattle.lift97_fixed.specs.Line.{scaling, inverse_scaling, line_transform};

use crate::steps::{ALPHA, BETA, DELTA, GAMMA, INVERSE_K, K, lifted, scaled};

/// The place to the left of place `i`, mirrored at the start of the line.
#[inline]
pub fn left_of(i: usize) -> usize
    ensures { result ≡ left_of i }
{
    if i == 0 { 1 } else { i - 1 }
}

/// The place to the right of place `i` of a line of `n` samples, mirrored at the end of the line.
#[inline]
pub fn right_of(n: usize, i: usize) -> usize
    requires line { 2 ≤ n }
    requires inside { i < n }
    ensures { result ≡ right_of n i }
{
    if i + 1 < n { i + 1 } else { n - 2 }
}

/// Puts the samples at even places into `lows` and those at odd places into `highs`.
#[inline(always)]
fn take_apart(line: &[i32], lows: &mut [i32], highs: &mut [i32])
    requires low { length lows.old ≡ length line.now - length line.now / 2 }
    requires high { length highs.old ≡ length line.now / 2 }
    ensures { IsApart line.now lows.new highs.new }
{
    for k in 0..highs.len() {
        lows[k] = line[2 * k];
        highs[k] = line[2 * k + 1];
    }
    if lows.len() > highs.len() {
        lows[highs.len()] = line[line.len() - 1];
    }
}

/// The lifting step with parameter `c` at the odd places of a line that is taken apart.
#[inline(always)]
fn lift_highs(lows: &[i32], highs: &mut [i32], c: i32)
    requires parameter { IsParameter c }
    requires some { 1 ≤ length highs.old }
    requires at_least { length highs.old ≤ length lows.now }
    requires at_most { length lows.now ≤ length highs.old + 1 }
    requires lows { All Within30 lows.now }
    requires highs { All Within30 highs.old }
    ensures value { (xs : List ℤ) → IsApart xs lows.now highs.old →
        IsApart (lift c 1 xs) lows.now highs.new }
    ensures within { All Within30 highs.new }
{
    let inner = lows.len() - 1;
    for k in 0..inner {
        highs[k] = lifted(c, highs[k], lows[k], lows[k + 1]);
    }
    if inner < highs.len() {
        highs[inner] = lifted(c, highs[inner], lows[inner], lows[inner]);
    }
}

/// The lifting step with parameter `c` at the even places of a line that is taken apart.
#[inline(always)]
fn lift_lows(lows: &mut [i32], highs: &[i32], c: i32)
    requires parameter { IsParameter c }
    requires some { 1 ≤ length highs.now }
    requires at_least { length highs.now ≤ length lows.old }
    requires at_most { length lows.old ≤ length highs.now + 1 }
    requires lows { All Within30 lows.old }
    requires highs { All Within30 highs.now }
    ensures value { (xs : List ℤ) → IsApart xs lows.old highs.now →
        IsApart (lift c 0 xs) lows.new highs.now }
    ensures within { All Within30 lows.new }
{
    let inner = highs.len();
    lows[0] = lifted(c, lows[0], highs[0], highs[0]);
    for k in 1..inner {
        lows[k] = lifted(c, lows[k], highs[k - 1], highs[k]);
    }
    if inner < lows.len() {
        lows[inner] = lifted(c, lows[inner], highs[inner - 1], highs[inner - 1]);
    }
}

/// A low-pass sample: the last lifting step, and the scaling.
#[inline(always)]
fn low_sample(cell: i32, left: i32, right: i32) -> i32
    requires cell { Within30 cell }
    requires left { Within30 left }
    requires right { Within30 right }
    ensures value { result ≡ scaled inverse_scaling (lifted delta cell left right) }
    ensures within { Within30 result }
{
    scaled(INVERSE_K, lifted(DELTA, cell, left, right))
}

/// The low-pass samples of a line that is taken apart: the last lifting step at its even places,
/// and their scaling.
#[inline(always)]
fn finish_lows(line: &mut [i32], lows: &[i32], highs: &[i32])
    requires some { 1 ≤ length highs.now }
    requires at_least { length highs.now ≤ length lows.now }
    requires at_most { length lows.now ≤ length highs.now + 1 }
    requires same { length line.old ≡ length lows.now }
    requires cells { All Within30 line.old }
    requires lows { All Within30 lows.now }
    requires highs { All Within30 highs.now }
    ensures value { (j : ℕ) → j < length lows.now → at line.new j
        ≡ scaled inverse_scaling (lifted delta (at lows.now j) (at highs.now (j - 1))
        (at highs.now (min j (length highs.now - 1)))) }
    ensures within { All Within30 line.new }
{
    let inner = highs.len();
    line[0] = low_sample(lows[0], highs[0], highs[0]);
    for k in 1..inner {
        line[k] = low_sample(lows[k], highs[k - 1], highs[k]);
    }
    if inner < lows.len() {
        line[inner] = low_sample(lows[inner], highs[inner - 1], highs[inner - 1]);
    }
}

/// The high-pass samples, scaled.
#[inline(always)]
fn finish_highs(line: &mut [i32], highs: &[i32])
    requires same { length line.old ≡ length highs.now }
    requires cells { All Within30 line.old }
    requires highs { All Within30 highs.now }
    ensures value { (j : ℕ) → j < length highs.now →
        at line.new j ≡ scaled scaling (at highs.now j) }
    ensures within { All Within30 line.new }
{
    for k in 0..highs.len() {
        line[k] = scaled(K, highs[k]);
    }
}

/// The last lifting step and the scaling of a line that is taken apart: the low-pass samples first,
/// then the high-pass ones.
#[inline(always)]
fn finish(line: &mut [i32], lows: &[i32], highs: &[i32])
    requires some { 1 ≤ length highs.now }
    requires at_least { length highs.now ≤ length lows.now }
    requires at_most { length lows.now ≤ length highs.now + 1 }
    requires same { length line.old ≡ length lows.now + length highs.now }
    requires cells { All Within30 line.old }
    requires lows { All Within30 lows.now }
    requires highs { All Within30 highs.now }
    ensures value { (xs : List ℤ) → IsApart xs lows.now highs.now →
        line.new ≡ split (scale inverse_scaling 0 (scale scaling 1 (lift delta 0 xs))) }
    ensures within { All Within30 line.new }
{
    let (first, second) = line.split_at_mut(lows.len());
    finish_lows(first, lows, highs);
    finish_highs(second, highs);
}

/// The transform of a line of 1 to 4,096 samples in -2^30 .. 2^30 - 1 (ISO/IEC 15444-1, Annex F.4):
/// its low-pass samples, rounded up in number, followed by its high-pass samples, all in that range
/// again. A line of one sample is unchanged. `scratch`, as long as the line, may hold anything
/// afterwards.
pub fn forward_line(line: &mut [i32], scratch: &mut [i32])
    requires samples { 1 ≤ length line.old × length line.old ≤ 4096 }
    requires same { length line.old ≡ length scratch.old }
    requires cells { All Within30 line.old }
    ensures value { line.new ≡ line_transform line.old }
    ensures within { All Within30 line.new }
{
    if line.len() < 2 {
        return;
    }
    let low = line.len() - line.len() / 2;
    let (lows, highs) = scratch.split_at_mut(low);
    take_apart(line, lows, highs);
    lift_highs(lows, highs, ALPHA);
    lift_lows(lows, highs, BETA);
    lift_highs(lows, highs, GAMMA);
    finish(line, lows, highs);
}

#[cfg(test)]
mod tests {
    use super::*;

    #[test]
    fn two_samples(rt: HostRuntime) {
        let mut line = [8192, 0];
        forward_line(&mut line, &mut [0, 0]);
        assert_eq!(rt; line, [4097, -8191]);
    }

    #[test]
    fn five_samples(rt: HostRuntime) {
        let mut line = [1000, 2000, -3000, 4000, 5000];
        forward_line(&mut line, &mut [7; 5]);
        assert_eq!(rt; line, [2273, -939, 5604, 3250, 2749]);
    }
}
