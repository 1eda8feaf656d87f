//! A line with its reply, on its way from who answered it to who writes it.

use crate::line_tasks::{LineTask, Reply};
use chess_moves::Rays;
use chess_notation::is_blank;
use mate_search::Memo;
use std::alloc::Global;
use text_lines::MAX_LINE;

/// A line without its CR, by its number in the input, and the reply to it by this task, with what is counted of it: true by its type.
#[derive(Drop)]
pub(crate) struct AnsweredLine<T: LineTask> {
    pub(crate) task: T,
    pub(crate) number: usize,
    pub(crate) line: Vec<u8>,
    pub(crate) reply: Reply<T::Mark>,
    ghost answer: { ∥ T.replies task number line.items reply.text.items reply.refused ∥₁ },
    ghost mark: { ∥ T.marks task line.items reply.mark ∥₁ },
}

/// Answers a line, which was looked at before; none where memory is refused.
pub(crate) fn answered<T: LineTask>(
    alloc: Global,
    rays: &Rays,
    task: T,
    number: usize,
    line: Vec<u8>,
    memo: &mut Memo,
) -> Option<AnsweredLine<T>> {
    if line.len() > MAX_LINE || is_blank(line.as_slice()) {
        return None;
    }
    let reply = task
        .answer(alloc, rays, number, line.as_slice(), memo)
        .ok()?;
    Some(AnsweredLine {
        task,
        number,
        line,
        reply,
    })
}
