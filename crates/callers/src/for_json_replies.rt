//! A caller of `json_replies`.

ghost use Rattle.std.specs.Prelude.{◌≡◌, IfOk, codes};
ghost use Rattle.json_replies.specs.Replies.{InJson};
ghost use Rattle.json_replies.specs.declared.replies.Form.{Form as FormValue};
ghost use Rattle.mate_answers.specs.InputReplies.{IsLineReply};
ghost use Rattle.text_lines.specs.Replies.{IsReply};

use byte_streams::NoMemory;
use chess_moves::Rays;
use chess_problems::Bound;
use json_replies::{Form, JsonReplies};
use mate_answers::Answers;
use mate_search::{Memo, OneThread};
use std::alloc::Global;
use text_lines::{Output, answer_bytes};

/// What an input of records is answered in JSON.
pub fn answered_in_json(
    alloc: Global,
    rays: &Rays,
    memo: &mut Memo,
    input: &[u8],
    default: Bound,
) -> Result<Output, NoMemory>
    ensures { IfOk result (λ output. IsReply (InJson FormValue.Answer (codes "{") (IsLineReply default)) input.now
        output.text.items output.refused) }
{
    let answers = Answers {
        rays,
        default,
        solver: OneThread,
    };
    let json = JsonReplies {
        handler: &answers,
        form: Form::Answer,
        front: b"{",
    };
    answer_bytes(alloc, &json, input, memo)
}
