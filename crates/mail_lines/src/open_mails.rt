//! What there is of a problem whose last line has not come.

ghost use Rattle.std.specs.Prelude.{◌≡◌, ◌++◌, ◌&&◌, ℕ, List, IfOk, IfSome, IfNone, codes, false, not, true};
ghost use Rattle.chess_notation.specs.Words.{is_blank};
ghost use Rattle.mail_lines.specs.Labels.{bared as text_bared};
ghost use Rattle.mail_lines.specs.Mails.{begins_mail, ends_mail as does_end_mail, is_headed_behind as are_headed_behind, line_in};
ghost use Rattle.mail_lines.specs.inside.OpenMails.{IsTextOf};

use crate::labels::bared;
use crate::mails::{begins_mail as does_begin, ends_mail, is_headed_behind};
use lettered_placements::line_read;
use move_words::Letters;
use std::alloc::{AllocError, Global};
use text_lines::{MAX_LINE, TakenLine};

/// A problem, by the number of its first line, and the text of its lines so far.
#[derive(Drop)]
pub(crate) struct OpenMail {
    pub(crate) number: usize,
    pub(crate) text: TakenLine,
}

/// The text of a line that goes on the problem before it; none where it ends that.
pub(crate) fn text_taken_on(line: &TakenLine) -> Option<&[u8]>
    ensures some { IfSome result (λ text. (said : List ℕ) → IsTextOf line.now said → (text.now ≡ said) × (does_end_mail said ≡ false)) }
    ensures none { IfNone result ((said : List ℕ) → IsTextOf line.now said → does_end_mail said ≡ true) }
{
    match line {
        TakenLine::Text(text) => {
            let text = text.as_slice();
            if ends_mail(text) { None } else { Some(text) }
        }
        TakenLine::Blank => None,
        TakenLine::Long => None,
    }
}

/// A text that takes on another, as far as a record is long.
pub(crate) fn joined(text: TakenLine, more: &[u8]) -> Result<TakenLine, AllocError>
    ensures { IfOk result (λ whole. (before : List ℕ) → is_blank before ≡ false → IsTextOf text before → IsTextOf whole (before ++ (codes " ; " ++ more.now))) }
{
    match text {
        TakenLine::Text(mut bytes) => {
            if more.len() + 3 > MAX_LINE.saturating_sub(bytes.len()) {
                return Ok(TakenLine::Long);
            }
            bytes.extend_from_slice(b" ; ")?;
            bytes.extend_from_slice(more)?;
            Ok(TakenLine::Text(bytes))
        }
        TakenLine::Blank => Ok(TakenLine::Blank),
        TakenLine::Long => Ok(TakenLine::Long),
    }
}

/// A line without labels before its position.
pub(crate) fn bared_line(alloc: Global, line: TakenLine) -> Result<TakenLine, AllocError>
    ensures { IfOk result (λ text. (said : List ℕ) → IsTextOf line said → IsTextOf text (text_bared said)) }
{
    match line {
        TakenLine::Text(text) => Ok(TakenLine::Text(Vec::from_slice(
            alloc,
            bared(text.as_slice()),
        )?)),
        TakenLine::Blank => Ok(TakenLine::Blank),
        TakenLine::Long => Ok(TakenLine::Long),
    }
}

/// A line with English letters for the men of its placement, which may have these.
#[tactic(auto, unfolding(crate::specs::Mails::line_in))]
pub(crate) fn lettered_line(
    alloc: Global,
    letters: &Letters,
    line: TakenLine,
) -> Result<TakenLine, AllocError>
    ensures { IfOk result (λ read. (said : List ℕ) → IsTextOf line said → IsTextOf read (line_in letters.now said)) }
{
    if letters.is_english() {
        return Ok(line);
    }
    match line {
        TakenLine::Text(text) if text.len() > MAX_LINE => Ok(TakenLine::Text(text)),
        TakenLine::Text(text) => {
            let text = line_read(alloc, letters, bared(text.as_slice()))?;
            Ok(TakenLine::Text(text))
        }
        TakenLine::Blank => Ok(TakenLine::Blank),
        TakenLine::Long => Ok(TakenLine::Long),
    }
}

/// Whether a line begins a problem that takes on lines, and isn't headed.
pub(crate) fn begins(is_headed: bool, line: &TakenLine) -> bool
    ensures { (said : List ℕ) → IsTextOf line.now said → result ≡ (not is_headed && begins_mail said) }
{
    match line {
        TakenLine::Text(text) => !is_headed && does_begin(text.as_slice()),
        TakenLine::Blank => false,
        TakenLine::Long => false,
    }
}

/// Whether the lines behind a line are headed.
pub(crate) fn heads(is_headed: bool, line: &TakenLine) -> bool
    ensures { (said : List ℕ) → IsTextOf line.now said → result ≡ are_headed_behind is_headed said }
{
    match line {
        TakenLine::Text(text) => is_headed_behind(is_headed, text.as_slice()),
        TakenLine::Blank => false,
        TakenLine::Long => false,
    }
}
