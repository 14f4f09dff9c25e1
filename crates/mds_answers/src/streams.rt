//! The known streams as JSON.

ghost use Rattle.std.specs.Prelude.{OnOk};
ghost use Rattle.mds_answers.specs.Json.{AreStreams, IsStream};
ghost use Rattle.mds_answers.specs.JsonSteps.{Tells};

use crate::told::{ToJson, send_list, send_optional_day, send_text};
use mds_messages::StreamAnswer;
use serde::Serializer;

/// Its names, and its details.
impl ToJson for StreamAnswer {
    ghost told_as = { IsStream };

    fn send<S: Serializer>(&self, _room: &mut String, out: &mut S) -> Result<(), S::Error> {
        let details = &self.details;
        out.begin_map(Some(7))?;
        send_text("configuration", details.configuration(), out)?;
        send_text("datastream", details.datastream(), out)?;
        send_text("meter", details.meter(), out)?;
        send_optional_day("next", details.next(), out)?;
        send_text("nmi", self.stream.nmi.text(), out)?;
        send_text("register", details.register(), out)?;
        send_text("suffix", self.stream.suffix.text(), out)?;
        out.end_map()
    }
}

/// Sends the known streams.
pub(crate) fn send_streams<S: Serializer>(
    answers: &[StreamAnswer],
    room: &mut String,
    out: &mut S,
) -> Result<(), S::Error>
    ensures { OnOk result (Tells AreStreams answers.now (S.written out.old) (S.written out.new)) }
{
    out.begin_map(Some(1))?;
    send_list("streams", answers, room, out)?;
    out.end_map()
}
