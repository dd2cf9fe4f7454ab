// One sample in a lifting step and in the scaling, in 32 bits.
ghost use Rattle.std.specs.Prelude.{◌≡◌, ℤ, pos, negsuc, ◌+ℤ◌, ◌≤ℤ◌};
ghost use Rattle.cine_nums.specs.Fixed.{mul16, limit30, Within30};
ghost use Rattle.lift97_fixed.specs.Line.{alpha, gamma, lifted, scaled, IsParameter, IsScaling};

/// The lifting parameters, K and 1/K over 65,536.
pub const ALPHA: i32 = -103949;

pub const BETA: i32 = -3472;

pub const GAMMA: i32 = 57862;

pub const DELTA: i32 = 29066;

pub const K: i32 = 80621;

pub const INVERSE_K: i32 = 53274;

/// The range of samples.
const LOWEST: i32 = -(1 << 30);

const HIGHEST: i32 = (1 << 30) - 1;

/// The largest sum in size whose product with [`ALPHA`] over 65,536 is less than 2^31 in size.
const LARGEST_SUM: i32 = 1353909016;

/// The product of `x` and `d / 65536`, rounded to the nearest whole number, and upwards where two
/// are as near: the upper half of a product of 64 bits.
#[inline(always)]
fn fraction(d: i32, x: i32) -> i32
    requires low { negsuc 32767 ≤ℤ d }
    requires high { d ≤ℤ pos 32767 }
    ensures value { result ≡ mul16 d x }
{
    (((d * 65536) as i64 * x as i64 + (1 << 31)) >> 32) as i32
}

/// The product of a sum and [`ALPHA`] over 65,536, rounded, where it is less than 2^31 in size, and
/// else 2^31 - 1 with its sign: both products take the sum with a sample to the same limit.
#[inline(always)]
fn by_alpha(sum: i32) -> i32
    ensures { (cell : ℤ) → Within30 cell →
        limit30 (cell +ℤ result) ≡ limit30 (cell +ℤ mul16 alpha sum) }
{
    let sum = sum.max(-LARGEST_SUM).min(LARGEST_SUM);
    fraction(ALPHA + 2 * 65536, sum) - sum - sum
}

/// The product of a sum and [`GAMMA`] over 65,536, rounded.
#[inline(always)]
fn by_gamma(sum: i32) -> i32
    ensures { result ≡ mul16 gamma sum }
{
    fraction(GAMMA - 65536, sum) + sum
}

/// The sum of a sample and a product, in the range of samples.
#[inline(always)]
fn limited_sum(cell: i32, product: i32) -> i32
    requires { Within30 cell }
    ensures value { result ≡ limit30 (cell +ℤ product) }
    ensures within { Within30 result }
{
    cell + product.max(LOWEST - cell).min(HIGHEST - cell)
}

/// A sample after a lifting step.
#[inline(always)]
pub fn lifted(c: i32, cell: i32, left: i32, right: i32) -> i32
    requires parameter { IsParameter c }
    requires cell { Within30 cell }
    requires left { Within30 left }
    requires right { Within30 right }
    ensures value { result ≡ lifted c cell left right }
    ensures within { Within30 result }
{
    let sum = left + right;
    if c == ALPHA {
        limited_sum(cell, by_alpha(sum))
    } else if c == GAMMA {
        limited_sum(cell, by_gamma(sum))
    } else {
        (cell + fraction(c, sum)).max(LOWEST).min(HIGHEST)
    }
}

/// A sample after the scaling by [`K`] or [`INVERSE_K`], of which the second reaches no limit.
#[inline(always)]
pub fn scaled(c: i32, cell: i32) -> i32
    requires factor { IsScaling c }
    requires cell { Within30 cell }
    ensures value { result ≡ scaled c cell }
    ensures within { Within30 result }
{
    let product = cell + fraction(c - 65536, cell);
    if c == K {
        product.max(LOWEST).min(HIGHEST)
    } else {
        product
    }
}
