//! The size of the values in a body.

ghost use Rattle.std.specs.Prelude.{◌≡◌, ◌≤◌, option_map};
ghost use Rattle.mds_packs.specs.LoopSteps.{parts_value};
ghost use Rattle.mds_packs.specs.Sizes.{parts_size, sizes_at, values_size};

use crate::layout::VERSION;
use crate::unpacking::{Parts, read_parts, u8_at, u16_at};
use mds_marks::flags::NULL;

/// The size in bytes of the values of a day of `count` intervals, by the head and the runs of its body. `None` if the bytes
/// don't begin as such a body, or if another number of bytes follows the runs. Takes no memory.
#[tactic(auto, unfolding(crate::specs::Sizes::values_size))]
pub(crate) fn values_size(count: u16, body: &[u8]) -> Option<u64>
    ensures { result ≡ values_size count body.now }
{
    let (version, rest) = u8_at(body)?;
    let (places, rest) = u16_at(rest)?;
    let (number, rest) = u16_at(rest)?;
    if version != VERSION || places != count || number == 0 {
        return None;
    }
    let (size, rest) = read_sizes(number, rest)?;
    if rest.len() as u64 != size {
        return None;
    }
    Some(size)
}

/// Reads past `number` runs, and adds up the size in bytes of their values. The rest of the bytes is returned with it.
fn read_sizes(number: u16, bytes: &[u8]) -> Option<(u64, &[u8])>
    ensures { option_map (λ x. (x.0, x.1.now)) result ≡ sizes_at number bytes.now }
{
    let mut size = 0;
    let mut rest = bytes;
    for _ in 0..number {
        let Some((parts, after)) = read_parts(rest) else {
            return None;
        };
        size += size_of(&parts);
        rest = after;
    }
    Some((size, rest))
}

/// The size in bytes of the values of the run with these fields. N has no values.
fn size_of(parts: &Parts<'_>) -> u64
    ensures value { result ≡ parts_size (parts_value parts.now) }
    ensures small { result ≤ 524_288 }
{
    if parts.flag == NULL || parts.last < parts.first {
        return 0;
    }
    8 * (u64::from(parts.last) + 1 - u64::from(parts.first))
}
