//! Means of quantities and lines between two of them, to the nearest millionth.

ghost use Rattle.std.specs.Prelude.{◌≡◌, ◌+◌, ◌*◌, ◌^◌, ◌<◌, ◌≤◌, ◌-◌, ℕ, ℤ, unsigned_abs};
ghost use Rattle.mds_quantity.specs.Quantity.{limit};
ghost use Rattle.mds_quantity.specs.Rounding.{IsRounded, line_times_steps};

use crate::quantity::{Quantity, signed};

/// The mean of `count` quantities, whose sum is given in millionths. It is rounded to the nearest millionth, and a tie
/// goes away from zero (profile). Takes no memory.
pub fn mean(sum: i128, count: u64) -> Quantity
    requires some { 1 ≤ count }
    requires of_quantities { unsigned_abs sum ≤ (limit - 1) * count }
    ensures { IsRounded sum count result }
{
    // decides: how is the mean of method 15 computed?
    rounded(sum, count)
}

/// The value at the place `place` on the line from one quantity to another. The line has `count` values between the
/// two, evenly spaced, with places from 1. The value is rounded to the nearest millionth, and a tie goes away from
/// zero (profile). Takes no memory.
pub fn between(before: Quantity, after: Quantity, place: u64, count: u64) -> Quantity
    requires first { 1 ≤ place }
    requires last { place ≤ count }
    requires few { count ≤ 1000 }
    ensures { IsRounded (line_times_steps before after place count) (count + 1) result }
{
    let parts = count + 1;
    let start = i128::from(before.millionths());
    let rise = i128::from(after.millionths()) - start;
    // decides: how is the line of method 17 computed?
    rounded(start * i128::from(parts) + rise * i128::from(place), parts)
}

/// The quantity nearest to `total` parts, of which `parts` make a millionth. A tie goes away from zero.
fn rounded(total: i128, parts: u64) -> Quantity
    requires some { 1 ≤ parts }
    requires of_quantities { unsigned_abs total ≤ (limit - 1) * parts }
    ensures { IsRounded total parts result }
{
    let parts = u128::from(parts);
    // decides: how are computed values rounded?
    let nearest = (2 * total.unsigned_abs() + parts) / (2 * parts);
    signed(total < 0, nearest as u64)
}

/// A law: a rounded number is unique. The function does nothing.
pub fn one_rounding()
    ensures { (p : ℤ) (q : ℕ) (r s : ℤ) → 0 < q → IsRounded p q r → IsRounded p q s → r ≡ s }
{}
