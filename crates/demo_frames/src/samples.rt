// The samples of a frame, one after the other.
ghost use Rattle.std.specs.Prelude.{◌≡◌, ◌*◌, ◌+◌, ◌<◌, ◌≤◌, ◌%◌, ◌/◌, OnOk, ◌++◌, [], ◌∷◌};
ghost use Rattle.demo_frames.specs.Demo.{demo_sample, mixed, next_state, ramp, state_after};

use std::alloc::AllocError;

/// The next state of the generator.
pub fn next(state: u32) -> u32
    ensures { result ≡ next_state state }
{
    let wide = 1_664_525 * u64::from(state) + 1_013_904_223;
    (wide % 4_294_967_296) as u32
}

/// A sample from its ramp and a state.
fn mixed(base: u32, state: u32) -> u16
    requires { base < 4096 }
    ensures value { result ≡ mixed base state }
    ensures range { result ≤ 4095 }
{
    ((15 * base + 16 * (state >> 24)) >> 4) as u16
}

/// The samples of a pixel, by the state that the generator has before it.
#[derive(Clone, Copy)]
pub struct Pixel {
    pub samples: [u16; 3],
    pub state: u32,
}

/// Makes the pixel of a column and a row, from the state before it.
pub fn pixel_at(x: u32, y: u32, state: u32) -> Pixel
    requires column { x < 4096 }
    requires row { y < 4096 }
    ensures state { result.state ≡ next_state (next_state (next_state state)) }
    ensures samples { result.samples ≡ mixed (ramp 0 x y) (next_state state)
        ∷ mixed (ramp 1 x y) (next_state (next_state state))
        ∷ mixed (ramp 2 x y) (next_state (next_state (next_state state))) ∷ [] }
    ensures range0 { mixed (ramp 0 x y) (next_state state) ≤ 4095 }
    ensures range1 { mixed (ramp 1 x y) (next_state (next_state state)) ≤ 4095 }
    ensures range2 { mixed (ramp 2 x y) (next_state (next_state (next_state state))) ≤ 4095 }
{
    let first = next(state);
    let second = next(first);
    let third = next(second);
    let samples = [
        mixed((x + y * 3) % 4096, first),
        mixed((x * 2 + y * 2) % 4096, second),
        mixed((x * 3 + y) % 4096, third),
    ];
    Pixel {
        samples,
        state: third,
    }
}
