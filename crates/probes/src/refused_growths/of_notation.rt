//! A call of `chess_notation`. Its `answer_text`, which wants an outcome, is called in `of_search`.

use crate::refused_growths::marks::{Stop, default, mark};
use chess_moves::Rays;
use chess_notation::{Record, read_record};
use std::alloc::Global;

/// A record of which two operations are kept, and by which a move is avoided.
const LINE: &[u8] = b"6k1/5ppp/8/8/8/8/8/R3K3 w Q - am Ra8; dm 1; id \"back rank\"; hmvc 0;";

/// What a record says.
fn said(alloc: Global, record: &Record) -> Result<String, Stop> {
    let position = record.position.text();
    let mut text = format!(in alloc; "{} in {}", position.as_str(), record.bound.get())?;
    for operation in record.rest.iter() {
        text = format!(in alloc;
            "{text};{} {}",
            operation.opcode.as_str(),
            operation.operands.as_str()
        )?;
    }
    Ok(text)
}

pub(crate) fn tell_read_record(alloc: Global, rays: &Rays) -> Result<String, Stop> {
    let default = default().ok_or("bound")?;
    mark(alloc);
    let read = read_record(alloc, rays, LINE, default);
    mark(alloc);
    match read {
        Ok(record) => said(alloc, &record),
        Err(fault) => Ok(format!(in alloc; "{}", fault.code())?),
    }
}
