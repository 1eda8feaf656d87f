//! A caller of `mail_lines`.

ghost use Rattle.std.specs.Prelude.{ℕ, IfOk};
ghost use Rattle.mail_lines.specs.Mails.{mailed};
ghost use Rattle.text_lines.specs.Replies.{IsReply};

use byte_streams::Stop;
use mail_lines::answer_mails_input;
use move_words::Letters;
use std::alloc::Global;
use text_lines::LineHandler;

/// What a text is answered, where a problem's line is read with those that it takes on, and men have such letters in placements.
pub fn answered_as_mails<H: LineHandler>(
    alloc: Global,
    letters: &Letters,
    handler: &H,
    input: &[u8],
    memory: &mut H::Memory,
) -> Result<Vec<u8>, Stop>
    requires { H.ready handler.now }
    ensures { IfOk result (λ text. (refused : ℕ) × IsReply (H.replies handler.now) (mailed letters.now input.now) text.items refused) }
{
    let mut text = Vec::new(alloc);
    answer_mails_input(alloc, letters, handler, input, memory, &mut text)?;
    Ok(text)
}
