// Halving, with the rounding that the sizes of resolutions and lines need.
ghost use Rattle.std.specs.Prelude.{◌≡◌, ◌/◌};
ghost use Rattle.cine_nums.specs.Division.{div_up};

/// Half of a number of samples, rounded up: the size of the low half of a line.
pub fn half_up(n: u32) -> u32
    ensures { result ≡ div_up n 2 }
{
    n / 2 + n % 2
}

/// Half of a number of samples, rounded down: the size of the high half of a line.
pub fn half_down(n: u32) -> u32
    ensures { result ≡ n / 2 }
{
    n / 2
}
