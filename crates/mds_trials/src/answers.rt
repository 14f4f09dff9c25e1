//! How an answer of the machine is printed.

use mds_answers::answer_json;
use mds_messages::Answer;
use std::io;
use std::io::Write;

/// Prints an answer, and ends the line. It is printed as JSON, unless it is a text.
pub fn print_answer(rt: &HostRuntime, answer: &Answer) -> io::Result<()> {
    let mut text = Vec::new(rt.alloc());
    match answer.text() {
        Some(csv) => text.extend_from_slice(csv)?,
        None => answer_json(rt.alloc(), answer, &mut text)?,
    }
    text.push(b'\n')?;
    io::writer(rt).write_all(&text)
}
