// Sides, powers of two, level starts and lengths: the numbers that every call works with (`power_of`, `pow2`,
// `cell_count`, `level_start`, `needed`), and what a dot is worth (`DOT`).
#![tactic(auto)]

ghost use Rattle.std.specs.Prelude.{◌≡◌, ◌^◌, ◌≤◌};
ghost use Rattle.definition.specs.Pyramid.{cell_count, needed, start};
ghost use Rattle.definition.specs.Refusals.{power_of};

// What one dot is worth, and half of that, from which on a dot is due: the 0.5 at which report 265, section 3.2, stops.
pub const DOT: i64 = 65280;

pub const HALF_DOT: i64 = DOT / 2;

// The power of a side (S 2.1): 1 to 8, or 0 if the side isn't one of the eight.
#[tactic(auto, unfolding(definition::specs::Refusals::power_of, definition::specs::Refusals::power_up_to))]
pub fn power_of(side: u32) -> usize
    ensures { result ≡ power_of side }
{
    match side {
        2 => 1,
        4 => 2,
        8 => 3,
        16 => 4,
        32 => 5,
        64 => 6,
        128 => 7,
        256 => 8,
        _ => 0,
    }
}

// 2 to the power of k.
pub fn pow2(k: usize) -> usize
    requires { k ≤ 8 }
    ensures { result ≡ 2 ^ k }
{
    1 << k
}

// The number of cells of a map of power r (S 2.1).
pub fn cell_count(r: usize) -> usize
    requires { r ≤ 8 }
    ensures { result ≡ cell_count r }
{
    let side = pow2(r);
    side * side
}

// The place at which level k begins (S 2.5), or one past the pyramid where k is one more than the last level.
pub fn level_start(k: usize) -> usize
    requires { k ≤ 9 }
    ensures { result ≡ start k }
{
    ((1 << (2 * k)) - 1) / 3
}

// The needed length of a pyramid of power r (S 2.5).
pub fn needed(r: usize) -> usize
    requires { r ≤ 8 }
    ensures { result ≡ needed r }
{
    level_start(r + 1)
}
