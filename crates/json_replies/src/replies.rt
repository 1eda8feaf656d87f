//! Replies to the lines of an input, in JSON.

ghost use Rattle.std.specs.Prelude.{◌≡◌, IfOk};
ghost use Rattle.json_replies.specs.Replies.{json_of};

use crate::answers::answer_json;
use crate::rows::row_json;
use crate::trees::tree_json;
use byte_streams::NoMemory;
use std::alloc::{AllocError, Global};
use text_lines::{LineHandler, Output};

/// What a reply looks like without JSON.
#[derive(Clone, Copy)]
pub enum Form {
    /// An answer, or a refusal behind a number sign, as `solve` writes them.
    Answer,
    /// A row of `verify`.
    Row,
    /// An answer, its tree below it and an empty line, or a refusal, as `tree` writes them.
    Tree,
}

/// A reply in JSON: nothing of nothing.
fn json_of(
    alloc: Global,
    form: Form,
    front: &[u8],
    number: usize,
    reply: &[u8],
) -> Result<Vec<u8>, AllocError>
    ensures { IfOk result (λ text. text.items ≡ json_of form front.now number reply.now) }
{
    if reply.is_empty() {
        return Ok(Vec::new(alloc));
    }
    match form {
        Form::Answer => answer_json(alloc, front, number, reply),
        Form::Row => row_json(alloc, front, number, reply),
        Form::Tree => tree_json(alloc, front, number, reply),
    }
}

/// Has another answer lines, whose replies have such a form, and writes each in JSON. The front is what all objects begin with.
#[derive(Clone, Copy)]
pub struct JsonReplies<'a, H> {
    pub handler: &'a H,
    pub form: Form,
    pub front: &'a [u8],
}

impl<H: LineHandler> LineHandler for JsonReplies<'_, H> {
    ghost use Rattle.std.specs.Prelude.{[], refl};
    ghost use Rattle.json_replies.specs.Replies.{InJson};

    type Memory = H::Memory;

    ghost ready = { λ json. H.ready json.handler.now };

    ghost replies = { λ json. InJson json.form json.front.now (H.replies json.handler.now) };

    ghost marks = { λ json. InJson json.form json.front.now (H.marks json.handler.now) };

    ghost tally = { λ memory. H.tally memory };

    ghost knows = { λ json. H.knows json.handler.now };

    ghost follows = { λ json before. InJson json.form json.front.now (H.follows json.handler.now before) };

    ghost room = { λ memory. H.room memory };

    fn answer(
        &self,
        alloc: Global,
        number: usize,
        line: &[u8],
        memory: &mut H::Memory,
    ) -> Result<Output, NoMemory> {
        let reply = self.handler.answer(alloc, number, line, memory)?;
        Ok(Output {
            text: json_of(alloc, self.form, self.front, number, reply.text.as_slice())?,
            refused: reply.refused,
        })
    }

    fn refuse_long(&self, alloc: Global, number: usize) -> Result<Output, NoMemory> {
        let reply = self.handler.refuse_long(alloc, number)?;
        Ok(Output {
            text: json_of(alloc, self.form, self.front, number, reply.text.as_slice())?,
            refused: reply.refused,
        })
    }

    ghost skips = { λ json number line blank. ([], H.skips json.handler.now number line blank, refl) };

    ghost unmarked = { λ json number line blank. ([], H.unmarked json.handler.now number line blank, refl) };

    ghost passes = { λ json memory before line is known. H.passes json.handler.now memory before line is known };

    ghost skips_behind = { λ json before number line blank. ([], H.skips_behind json.handler.now before number line blank, refl) };
}
