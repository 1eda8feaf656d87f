//! The replies to an input, line by line.

ghost use Rattle.std.specs.Prelude.{◌≡◌, ◌<◌, ◌≤◌, ◌-◌, ◌⊎◌, ◌∷◌, ◌++◌, ℕ, List, [], IfErr, IfOk, length, true, false};
ghost use Rattle.std.specs.Io.KnownBytes.{Appends};
ghost use Rattle.byte_streams.specs.Inputs.{MayBe};
ghost use Rattle.byte_streams.specs.Stops.{AppendsBy, AppendsPart, is_of_output};
ghost use Rattle.chess_notation.specs.Records.{max_line};
ghost use Rattle.chess_notation.specs.Words.{is_blank};
ghost use Rattle.text_lines.specs.Lines.{texts_of};
ghost use Rattle.text_lines.specs.LinesFrom.{IsReplyOn, IsReplyToFirstOn, lines_from};
ghost use Rattle.text_lines.specs.Replies.{IsReply, IsReplyToFirst, RepliesGoOn, behind};
ghost use Rattle.text_lines.specs.Writers.{Knows};

use crate::progress::Progress;
use crate::writers::{LineWriter, LinesFrom, write_replies};
use byte_streams::{Input, NoMemory, Stop, put};
use std::alloc::Global;
use std::io::Write;

/// A reply to a line or to an input: its text, and how many lines it refuses.
#[derive(Drop)]
pub struct Output {
    pub text: Vec<u8>,
    pub refused: usize,
}

/// What answers lines, one by one. It is asked neither about blank lines, which are answered with nothing, nor what stands in lines that
/// are too long.
pub trait LineHandler {
    /// What goes from each line to the next.
    type Memory;

    /// That it may answer, as where it starts threads.
    ghost ready: { Self → Type 0 } = { λ _. Unit {0} };

    /// What a line is answered: its number in the input, from 1, the line without its CR, the text, and how many refusals that is.
    ghost replies: { Self → ℕ → List ℕ → List ℕ → ℕ → Type 0 };

    /// What a line is answered, and how many marks that is: what is counted beside refusals, where anything is.
    ghost marks: { Self → ℕ → List ℕ → List ℕ → ℕ → Type 0 } = { λ _ _ _ _ _. Unit {0} };

    /// How many marks there were so far.
    ghost tally: { Self.Memory → ℕ } = { λ _. 0 };

    /// What goes from line to line is known to be of these lines, each without its CR. Nothing is where no reply depends on the lines before.
    ghost knows: { Self → Self.Memory → List (List ℕ) → Type 0 } = { λ _ _ _. Unit {0} };

    /// What a line is answered behind the lines before it: its number, the line, the text, and how many refusals that is.
    ghost follows: { Self → List (List ℕ) → ℕ → List ℕ → List ℕ → ℕ → Type 0 } = { λ _ _ _ _ _ _. Unit {0} };

    /// What of the memory stays as it is.
    ghost room: { Self.Memory → ℕ };

    /// The reply to a line that is neither blank nor longer than a record may be. Only a growth that is refused is an error.
    fn answer(
        &self,
        alloc: Global,
        number: usize,
        line: &[u8],
        memory: &mut Self::Memory,
    ) -> Result<Output, NoMemory>
        requires ready { ready self.now }
        requires filled { is_blank line.now ≡ false }
        requires short { length line.now ≤ max_line }
        ensures reply { IfOk result (λ output. replies self.now number line.now output.text.items output.refused) }
        ensures marked { IfOk result (λ output. marks self.now number line.now output.text.items (tally memory.new - tally memory.old)) }
        ensures behind { IfOk result (λ output. Knows (knows self.now) (λ before. follows self.now before number) number line.now
            memory.old memory.new output.text.items output.refused) }
        ensures grows { IfOk result (λ _. tally memory.old ≤ tally memory.new) }
        ensures few { IfOk result (λ output. output.refused ≤ 1) }
        ensures room { room memory.new ≡ room memory.old };

    /// The reply to a line that is longer than a record may be, whatever stands in it.
    fn refuse_long(&self, alloc: Global, number: usize) -> Result<Output, NoMemory>
        ensures reply { IfOk result (λ output. (line : List ℕ) → is_blank line ≡ false → max_line < length line
            → replies self.now number line output.text.items output.refused) }
        ensures marked { IfOk result (λ output. (line : List ℕ) → is_blank line ≡ false → max_line < length line
            → marks self.now number line output.text.items 0) }
        ensures behind { IfOk result (λ output. (line : List ℕ) → is_blank line ≡ false → max_line < length line
            → (before : List (List ℕ)) → follows self.now before number line output.text.items output.refused) }
        ensures few { IfOk result (λ output. output.refused ≤ 1) };

    /// A blank line is answered with nothing.
    ghost skips: { (handler : Self) (number : ℕ) (line : List ℕ) → is_blank line ≡ true → replies handler number line [] 0 };

    /// That has no mark.
    ghost unmarked: { (handler : Self) (number : ℕ) (line : List ℕ) → is_blank line ≡ true → marks handler number line [] 0 };

    /// A line that isn't taken, blank or too long, changes nothing of what is known.
    ghost passes: { (handler : Self) (memory : Self.Memory) (before : List (List ℕ)) (line : List ℕ)
        → (is_blank line ≡ true) ⊎ (max_line < length line) → knows handler memory before → knows handler memory (before ++ line ∷ []) };

    /// A blank line is answered with nothing, whatever stands before it.
    ghost skips_behind: { (handler : Self) (before : List (List ℕ)) (number : ℕ) (line : List ℕ)
        → is_blank line ≡ true → follows handler before number line [] 0 };
}

/// A handler's replies, each of which is whole before it is written, and then told.
#[derive(Clone, Copy)]
struct Whole<'a, H, P> {
    handler: &'a H,
    progress: &'a P,
}

impl<H: LineHandler, P: Progress> LineWriter for Whole<'_, H, P> {
    type Memory = H::Memory;

    ghost ready = { λ whole. H.ready whole.handler.now };

    ghost replies = { λ whole. H.replies whole.handler.now };

    ghost marks = { λ whole. H.marks whole.handler.now };

    ghost tally = { λ memory. H.tally memory };

    ghost knows = { λ whole. H.knows whole.handler.now };

    ghost follows = { λ whole. H.follows whole.handler.now };

    ghost room = { λ memory. H.room memory };

    fn write_reply<O: Write>(
        &self,
        alloc: Global,
        number: usize,
        line: &[u8],
        memory: &mut H::Memory,
        out: &mut O,
    ) -> Result<usize, Stop> {
        self.progress.begins(number);
        match self.handler.answer(alloc, number, line, memory) {
            Ok(output) => put_reply(out, self.progress, &output),
            Err(_) => Err(Stop::NoMemory),
        }
    }

    fn refuse_long<O: Write>(
        &self,
        alloc: Global,
        number: usize,
        out: &mut O,
    ) -> Result<usize, Stop> {
        self.progress.begins(number);
        match self.handler.refuse_long(alloc, number) {
            Ok(output) => put_reply(out, self.progress, &output),
            Err(_) => Err(Stop::NoMemory),
        }
    }

    ghost skips = { λ whole number line blank. H.skips whole.handler.now number line blank };

    ghost unmarked = { λ whole number line blank. H.unmarked whole.handler.now number line blank };

    ghost passes = { λ whole memory before line is. H.passes whole.handler.now memory before line is };

    ghost skips_behind = { λ whole before number line blank. H.skips_behind whole.handler.now before number line blank };
}

/// Writes a reply, and tells it once it is written; gives how many lines it refuses.
fn put_reply<P: Progress, O: Write>(
    out: &mut O,
    progress: &P,
    output: &Output,
) -> Result<usize, Stop>
    ensures ok { IfOk result (λ refused. (refused ≡ output.now.refused) × Appends (O.contents out.old) (O.contents out.new) output.now.text.items) }
    ensures err { IfErr result (λ stop. (is_of_output stop ≡ true) × AppendsPart (O.contents out.old) (O.contents out.new) output.now.text.items) }
{
    match put(out, output.text.as_slice()) {
        Ok(()) => {
            progress.ends(output.text.as_slice());
            Ok(output.refused)
        }
        Err(stop) => Err(stop),
    }
}

/// Answers an input line by line, from that of a number on: each line before the next is waited for. Gives how many lines are refused; how
/// many marks there are more, the memory tells.
///
/// Where it stops before the end, the replies to some of the first lines are written. A line is taken into memory no further
/// than a record is long.
pub fn answer_lines<H: LineHandler, P: Progress, I: Input + Drop, O: Write>(
    alloc: Global,
    lines: &LinesFrom<H, P>,
    input: I,
    memory: &mut H::Memory,
    out: &mut O,
) -> Result<usize, Stop>
    requires ready { H.ready lines.now.by.now }
    requires from { 1 ≤ lines.now.from }
    ensures ok { IfOk result (λ refused. (bytes : List ℕ) × (text : List ℕ) × MayBe (I.left input) bytes
        × IsReplyOn (H.replies lines.now.by.now) lines.now.from bytes text refused
        × Appends (O.contents out.old) (O.contents out.new) text) }
    ensures marked { IfOk result (λ refused. (bytes : List ℕ) × (text : List ℕ) × MayBe (I.left input) bytes
        × (IsReplyOn (H.replies lines.now.by.now) lines.now.from bytes text refused
        × IsReplyOn (H.marks lines.now.by.now) lines.now.from bytes text (H.tally memory.new - H.tally memory.old))
        × Appends (O.contents out.old) (O.contents out.new) text) }
    ensures followed { IfOk result (λ refused. H.knows lines.now.by.now memory.old [] → (bytes : List ℕ) × (text : List ℕ)
        × MayBe (I.left input) bytes
        × (IsReplyOn (behind (H.follows lines.now.by.now) (lines_from lines.now.from (texts_of bytes))) lines.now.from bytes text refused
        × H.knows lines.now.by.now memory.new (lines_from lines.now.from (texts_of bytes)))
        × Appends (O.contents out.old) (O.contents out.new) text) }
    ensures grows { IfOk result (λ _. H.tally memory.old ≤ H.tally memory.new) }
    ensures err { IfErr result (λ stop. (bytes : List ℕ) × (text : List ℕ) × MayBe (I.left input) bytes
        × IsReplyToFirstOn (H.replies lines.now.by.now) lines.now.from bytes text
        × AppendsBy stop (O.contents out.old) (O.contents out.new) text) }
    ensures broken { IfErr result (λ stop. H.knows lines.now.by.now memory.old [] → (bytes : List ℕ) × (text : List ℕ)
        × MayBe (I.left input) bytes
        × IsReplyToFirstOn (behind (H.follows lines.now.by.now) (lines_from lines.now.from (texts_of bytes))) lines.now.from bytes text
        × AppendsBy stop (O.contents out.old) (O.contents out.new) text) }
    ensures unreadable { IfErr result (λ stop. stop ≡ Stop.Unreadable → I.breaks input) }
    ensures room { H.room memory.new ≡ H.room memory.old }
{
    let whole = Whole {
        handler: lines.by,
        progress: lines.progress,
    };
    // Whoever is told is told by `Whole`.
    let lines = LinesFrom {
        by: &whole,
        from: lines.from,
        progress: &(),
    };
    write_replies(alloc, &lines, input, memory, out)
}

/// The same from the first line on, of which nobody is told.
#[tactic(auto, unfolding(crate::specs::Replies::IsReply, crate::specs::Replies::IsReplyToFirst, crate::specs::LinesFrom::IsReplyOn, crate::specs::LinesFrom::IsReplyToFirstOn))]
pub fn answer_input<H: LineHandler, I: Input + Drop, O: Write>(
    alloc: Global,
    handler: &H,
    input: I,
    memory: &mut H::Memory,
    out: &mut O,
) -> Result<usize, Stop>
    requires ready { H.ready handler.now }
    ensures ok { IfOk result (λ refused. (bytes : List ℕ) × (text : List ℕ) × MayBe (I.left input) bytes
        × IsReply (H.replies handler.now) bytes text refused
        × Appends (O.contents out.old) (O.contents out.new) text) }
    ensures marked { IfOk result (λ refused. (bytes : List ℕ) × (text : List ℕ) × MayBe (I.left input) bytes
        × (IsReply (H.replies handler.now) bytes text refused
        × IsReply (H.marks handler.now) bytes text (H.tally memory.new - H.tally memory.old))
        × Appends (O.contents out.old) (O.contents out.new) text) }
    ensures followed { IfOk result (λ refused. H.knows handler.now memory.old [] → (bytes : List ℕ) × (text : List ℕ)
        × MayBe (I.left input) bytes
        × (IsReply (behind (H.follows handler.now) (texts_of bytes)) bytes text refused × H.knows handler.now memory.new (texts_of bytes))
        × Appends (O.contents out.old) (O.contents out.new) text) }
    ensures grows { IfOk result (λ _. H.tally memory.old ≤ H.tally memory.new) }
    ensures err { IfErr result (λ stop. (bytes : List ℕ) × (text : List ℕ) × MayBe (I.left input) bytes
        × IsReplyToFirst (H.replies handler.now) bytes text
        × AppendsBy stop (O.contents out.old) (O.contents out.new) text) }
    ensures broken { IfErr result (λ stop. H.knows handler.now memory.old [] → (bytes : List ℕ) × (text : List ℕ)
        × MayBe (I.left input) bytes × IsReplyToFirst (behind (H.follows handler.now) (texts_of bytes)) bytes text
        × AppendsBy stop (O.contents out.old) (O.contents out.new) text) }
    ensures unreadable { IfErr result (λ stop. stop ≡ Stop.Unreadable → I.breaks input) }
    ensures room { H.room memory.new ≡ H.room memory.old }
{
    let lines = LinesFrom {
        by: handler,
        from: 1,
        progress: &(),
    };
    answer_lines(alloc, &lines, input, memory, out)
}

/// What an input that is there already is answered, and how many of its lines are refused. Want of memory leaves no part of the
/// text.
pub fn answer_bytes<H: LineHandler>(
    alloc: Global,
    handler: &H,
    input: &[u8],
    memory: &mut H::Memory,
) -> Result<Output, NoMemory>
    requires ready { H.ready handler.now }
    ensures reply { IfOk result (λ output. IsReply (H.replies handler.now) input.now output.text.items output.refused) }
    ensures marked { IfOk result (λ output. IsReply (H.marks handler.now) input.now output.text.items (H.tally memory.new - H.tally memory.old)) }
    ensures followed { IfOk result (λ output. H.knows handler.now memory.old []
        → IsReply (behind (H.follows handler.now) (texts_of input.now)) input.now output.text.items output.refused
        × H.knows handler.now memory.new (texts_of input.now)) }
    ensures grows { IfOk result (λ _. H.tally memory.old ≤ H.tally memory.new) }
    ensures room { H.room memory.new ≡ H.room memory.old }
{
    let mut text = Vec::new(alloc);
    match answer_input(alloc, handler, input, memory, &mut text) {
        Ok(refused) => Ok(Output { text, refused }),
        // Neither can a text that is there be unreadable, nor does a list refuse to be written but for want of memory.
        Err(_) => Err(NoMemory),
    }
}

/// A law: the reply to one line more goes on the replies to the lines before it, whoever answers.
pub fn replies_go_on<H: LineHandler>()
    ensures { (handler : H) → RepliesGoOn (H.replies handler) }
{}
