//! The body of a request, fed to a handler as it comes from a source.

ghost use Rattle.std.specs.Prelude.{◌≡◌, ◌≢◌, ◌+◌, ◌-◌, ◌^◌, ◌<◌, ◌≤◌, length, Err};
ghost use Rattle.mds_wire.specs.BodySteps.{FeedsBody, FeedsNext};

use crate::serve::{Failed, Handler};
use mds_lines::Source;

/// Why a body isn't whole.
#[derive(Clone, Copy)]
pub(crate) enum BodyFault {
    /// The source failed.
    Read,
    /// The source ended before the body did.
    Closed,
    /// The handler refused a piece. Nothing more was read.
    Unavailable,
}

impl From<Failed> for BodyFault {
    ghost use Rattle.std.specs.Prelude.{◌≡◌};
    ghost use Rattle.mds_wire.specs.declared.body.BodyFault.TheVariants as fault;

    ghost from_gives = { λ _ it. it ≡ fault.Unavailable };

    fn from(_: Failed) -> BodyFault {
        BodyFault::Unavailable
    }
}

/// The most bytes that are read at a time.
const BLOCK: usize = 16_384;

/// Reads once, at most a block of bytes, and feeds what came. Returns how many bytes came.
fn feed_next<H: Handler, R: Source>(
    body: &mut H::Body,
    block: &mut [u8],
    source: &mut R,
) -> Result<usize, BodyFault>
    requires failures { R.failures source.old < 2 ^ 64 - 1 }
    requires room { 0 < length block.old }
    ensures feeds { FeedsNext H.holds H.takes_memory body.old body.new (length block.old) R.gives source.old source.new
        (R.remaining source.old) (R.remaining source.new) result }
    ensures counted { (result ≡ Err BodyFault.Read → R.failures source.new ≡ R.failures source.old + 1)
        × (result ≢ Err BodyFault.Read → R.failures source.new ≡ R.failures source.old) }
{
    match source.read(block) {
        Ok(0) => Err(BodyFault::Closed),
        Ok(count) => {
            H::feed(body, &block[..count])?;
            Ok(count)
        }
        Err(_) => Err(BodyFault::Read),
    }
}

/// Feeds a body of `size` bytes. The first ones came with the head. The others are read, and each piece is fed as it
/// comes.
pub(crate) fn feed_body<H: Handler, R: Source>(
    body: &mut H::Body,
    front: &[u8],
    size: usize,
    source: &mut R,
) -> Result<(), BodyFault>
    requires failures { R.failures source.old < 2 ^ 64 - 1 }
    requires front { length front.now ≤ size }
    ensures feeds { FeedsBody H.holds H.takes_memory body.old body.new front.now size R.gives source.old source.new
        (R.remaining source.old) (R.remaining source.new) result }
    ensures counted { (result ≡ Err BodyFault.Read → R.failures source.new ≡ R.failures source.old + 1)
        × (result ≢ Err BodyFault.Read → R.failures source.new ≡ R.failures source.old) }
{
    H::feed(body, front)?;
    let mut block = [0; BLOCK];
    let mut left = size - front.len();
    while left > 0 {
        let wanted = left.min(BLOCK);
        match feed_next::<H, R>(body, &mut block[..wanted], source) {
            Ok(count) => left -= count,
            Err(fault) => return Err(fault),
        }
    }
    Ok(())
}
