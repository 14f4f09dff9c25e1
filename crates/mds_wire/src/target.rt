//! The parts of a target (RFC 9112, section 3.2.1).

ghost use Rattle.std.specs.Prelude.{◌≡◌, ◌≤◌, ◌+◌, ℕ, suc, length, drop};
ghost use Rattle.mds_wire.specs.Judging.{mark_place, path_of, query_of};
ghost use Rattle.mds_wire.specs.Routes.{part};

use crate::route::part_length;

/// The place of the first question mark, or the target's length.
fn mark_place(target: &[u8]) -> usize
    ensures value { result ≡ mark_place target.now }
    ensures within { result ≤ length target.now }
{
    target
        .iter()
        .position(|b| *b == b'?')
        .unwrap_or(target.len())
}

/// A target's path: all that comes before the first question mark.
pub fn path_of(target: &[u8]) -> &[u8]
    ensures { result.now ≡ path_of target.now }
{
    &target[..mark_place(target)]
}

/// What follows the byte at a place. It is empty at the end.
fn behind(text: &[u8], place: usize) -> &[u8]
    requires { place ≤ length text.now }
    ensures { result.now ≡ drop (place + 1) text.now }
{
    if place == text.len() {
        return &text[place..];
    }
    &text[place + 1..]
}

/// A target's query: all that follows the first question mark, or nothing.
pub fn query_of(target: &[u8]) -> &[u8]
    ensures { result.now ≡ query_of target.now }
{
    behind(target, mark_place(target))
}

/// The part of a path before its first slash, and what follows that slash: the path from its next part on. A path has nothing before
/// its first slash, so its part 0 is empty.
pub fn first_part(path: &[u8]) -> (&[u8], &[u8])
    ensures first { result.0.now ≡ part 0 path.now }
    ensures rest { (number : ℕ) → part (suc number) path.now ≡ part number result.1.now }
{
    let length = part_length(path);
    (&path[..length], behind(path, length))
}
