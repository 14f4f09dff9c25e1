//! The head of a request, read from a source.

ghost use Rattle.std.specs.Prelude.{◌≡◌, ◌≢◌, ◌+◌, ◌-◌, ◌^◌, ◌<◌, length, IfOk, OnErr, MatchOption, Err};
ghost use Rattle.mds_wire.specs.Heads.{longest_head, most_fields, IsOpenHead, IsNoHead, IsWhole};
ghost use Rattle.mds_wire.specs.HeadSteps.{ReadsHead};

use httparse::Status;
use httparse::spans::{HeaderSpan, RequestSpans, parse_request};
use mds_lines::{Source, read_more};

/// A head that was read: how many bytes were read, and where its parts are. Some of the bytes may follow the head.
#[derive(Clone, Copy)]
pub(crate) struct HeadRead {
    pub(crate) filled: usize,
    pub(crate) spans: RequestSpans,
}

/// Why there is no head.
#[derive(Clone, Copy)]
pub(crate) enum HeadFault {
    /// The source failed.
    Read,
    /// The source ended before the head did.
    Closed,
    /// The bytes don't begin a head, or one with too many fields.
    Bad,
    /// The head has too many bytes.
    TooLarge,
}

/// The bytes don't begin a head.
#[derive(Clone, Copy)]
struct NoHead;

/// Finds the parts of the head that the bytes begin with. `None` if more bytes may complete a head.
fn parse(bytes: &[u8], fields: &mut [HeaderSpan]) -> Result<Option<RequestSpans>, NoHead>
    requires { length fields.old ≡ most_fields }
    ensures ok { IfOk result (λ found. MatchOption found (IsOpenHead bytes.now) (IsWhole bytes.now fields.new)) }
    ensures bad { OnErr result (IsNoHead bytes.now) }
{
    match parse_request(bytes, fields) {
        Ok(Status::Complete(spans)) => Ok(Some(spans)),
        Ok(Status::Partial) => Ok(None),
        Err(_) => Err(NoHead),
    }
}

/// Reads a head to the front of a buffer, with whatever comes after it. The bytes are parsed after each read, so that
/// each read is needed.
pub(crate) fn read_head<R: Source>(
    buffer: &mut [u8],
    fields: &mut [HeaderSpan],
    source: &mut R,
) -> Result<HeadRead, HeadFault>
    requires failures { R.failures source.old < 2 ^ 64 - 1 }
    requires buffer { length buffer.old ≡ longest_head }
    requires fields { length fields.old ≡ most_fields }
    ensures read { ReadsHead R.gives source.old source.new (R.remaining source.old) (R.remaining source.new)
        buffer.new fields.new result }
    ensures counted { (result ≡ Err HeadFault.Read → R.failures source.new ≡ R.failures source.old + 1)
        × (result ≢ Err HeadFault.Read → R.failures source.new ≡ R.failures source.old) }
{
    let mut filled = 0;
    while filled < buffer.len() {
        let count = match read_more(buffer, filled, source) {
            Ok(0) => return Err(HeadFault::Closed),
            Ok(count) => count,
            Err(_) => return Err(HeadFault::Read),
        };
        filled += count;
        match parse(&buffer[..filled], fields) {
            Ok(Some(spans)) => return Ok(HeadRead { filled, spans }),
            Ok(None) => {}
            Err(_) => return Err(HeadFault::Bad),
        }
    }
    Err(HeadFault::TooLarge)
}
