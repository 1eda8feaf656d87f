//! The lines of an input, answered on an output one by one.

ghost use Rattle.std.specs.Prelude.{◌≡◌, ◌<◌, ◌≤◌, ◌-◌, ◌⊎◌, ◌∷◌, ◌++◌, ℕ, Bool, List, [], IfErr, IfOk, length, true, false};
ghost use Rattle.std.specs.Io.KnownBytes.{Appends, Keeps};
ghost use Rattle.byte_streams.specs.Inputs.{MayBe};
ghost use Rattle.byte_streams.specs.Stops.{AppendsBy, AppendsPart, is_of_output};
ghost use Rattle.chess_notation.specs.Records.{max_line};
ghost use Rattle.chess_notation.specs.Words.{is_blank};
ghost use Rattle.text_lines.specs.Lines.{texts_of, without_cr as text_without_cr};
ghost use Rattle.text_lines.specs.LinesFrom.{IsReplyOn, IsReplyToFirstOn, lines_from};
ghost use Rattle.text_lines.specs.Replies.{IsReply, IsReplyToFirst, behind};
ghost use Rattle.text_lines.specs.Writers.{BreaksOff, Follows, Knows, Marked, Replied};
ghost use Rattle.text_lines.specs.inside.InputLines.{IsKept, TakesLine, left_of};
ghost use Rattle.text_lines.specs.inside.LinesFrom.{FollowsFrom, KnowsFrom, RepliesFrom};

use crate::input_lines::{Kept, Lines, MAX_LINE, without_cr};
use crate::progress::Progress;
use byte_streams::{Input, Stop};
use std::alloc::Global;
use std::io::Write;

/// What answers lines, one by one, and writes each reply itself, so that it need not be whole in memory. It is asked neither about
/// blank lines, which are answered with nothing, nor what stands in lines that are too long.
pub trait LineWriter {
    /// What goes from each line to the next.
    type Memory;

    /// That it may answer, as where it starts threads.
    ghost ready: { Self → Type 0 } = { λ _. Unit {0} };

    /// What a line is answered: its number in the input, from 1, the line without its CR, the text, and how many refusals that is.
    ghost replies: { Self → ℕ → List ℕ → List ℕ → ℕ → Type 0 };

    /// What a line is answered, and how many marks that is: what is counted beside refusals, where anything is.
    ghost marks: { Self → ℕ → List ℕ → List ℕ → ℕ → Type 0 } = { λ _ _ _ _ _. Unit {0} };

    /// How many marks there were so far.
    ghost tally: { Self.Memory → ℕ } = { λ _. 0 };

    /// What goes from line to line is known to be of these lines, each without its CR. Nothing is where no reply depends on the lines before.
    ghost knows: { Self → Self.Memory → List (List ℕ) → Type 0 } = { λ _ _ _. Unit {0} };

    /// What a line is answered behind the lines before it: its number, the line, the text, and how many refusals that is.
    ghost follows: { Self → List (List ℕ) → ℕ → List ℕ → List ℕ → ℕ → Type 0 } = { λ _ _ _ _ _ _. Unit {0} };

    /// What of the memory stays as it is.
    ghost room: { Self.Memory → ℕ };

    /// Writes the reply to a line that is neither blank nor longer than a record may be; gives how many refusals that is. Where memory
    /// is refused, nothing is written.
    fn write_reply<O: Write>(
        &self,
        alloc: Global,
        number: usize,
        line: &[u8],
        memory: &mut Self::Memory,
        out: &mut O,
    ) -> Result<usize, Stop>
        requires ready { ready self.now }
        requires filled { is_blank line.now ≡ false }
        requires short { length line.now ≤ max_line }
        ensures reply { IfOk result (Replied (Marked (replies self.now number line.now) (marks self.now number line.now)
            (Knows (knows self.now) (λ before. follows self.now before number) number line.now memory.old memory.new)
            (tally memory.new - tally memory.old)) (O.contents out.old) (O.contents out.new)) }
        ensures err { IfErr result (BreaksOff (λ text refusals. replies self.now number line.now text refusals
            × Follows (knows self.now) (λ before. follows self.now before number) number line.now memory.old text refusals)
            (O.contents out.old) (O.contents out.new)) }
        ensures few { IfOk result (λ refused. refused ≤ 1) }
        ensures grows { IfOk result (λ _. tally memory.old ≤ tally memory.new) }
        ensures room { room memory.new ≡ room memory.old };

    /// Writes the reply to a line that is longer than a record may be, whatever stands in it.
    fn refuse_long<O: Write>(
        &self,
        alloc: Global,
        number: usize,
        out: &mut O,
    ) -> Result<usize, Stop>
        ensures reply { IfOk result (Replied (Marked (λ text refusals. (line : List ℕ) → is_blank line ≡ false → max_line < length line
            → replies self.now number line text refusals) (λ text count. (line : List ℕ) → is_blank line ≡ false → max_line < length line
            → marks self.now number line text count) (λ text refusals. (line : List ℕ) → is_blank line ≡ false → max_line < length line
            → (before : List (List ℕ)) → follows self.now before number line text refusals) 0) (O.contents out.old) (O.contents out.new)) }
        ensures err { IfErr result (BreaksOff (λ text refusals. (line : List ℕ) → is_blank line ≡ false → max_line < length line
            → replies self.now number line text refusals × ((before : List (List ℕ)) → follows self.now before number line text refusals))
            (O.contents out.old) (O.contents out.new)) }
        ensures few { IfOk result (λ refused. refused ≤ 1) };

    /// A blank line is answered with nothing.
    ghost skips: { (writer : Self) (number : ℕ) (line : List ℕ) → is_blank line ≡ true → replies writer number line [] 0 };

    /// That has no mark.
    ghost unmarked: { (writer : Self) (number : ℕ) (line : List ℕ) → is_blank line ≡ true → marks writer number line [] 0 };

    /// A line that isn't taken, blank or too long, changes nothing of what is known.
    ghost passes: { (writer : Self) (memory : Self.Memory) (before : List (List ℕ)) (line : List ℕ)
        → (is_blank line ≡ true) ⊎ (max_line < length line) → knows writer memory before → knows writer memory (before ++ line ∷ []) };

    /// A blank line is answered with nothing, whatever stands before it.
    ghost skips_behind: { (writer : Self) (before : List (List ℕ)) (number : ℕ) (line : List ℕ)
        → is_blank line ≡ true → follows writer before number line [] 0 };
}

/// Who answers the lines of an input, from that of a number on, and who is told of each. The lines before it keep their numbers, are read no
/// further than to their ends, and are neither answered nor refused.
#[derive(Clone, Copy)]
pub struct LinesFrom<'a, W, P> {
    pub by: &'a W,
    /// The number of the first line that is answered, 1 at least.
    pub from: usize,
    pub progress: &'a P,
}

/// Writes the reply to a line by what is kept of it: a line of which bytes are left out is blank or too long.
fn answer_kept<W: LineWriter, P: Progress, O: Write>(
    alloc: Global,
    lines: &LinesFrom<W, P>,
    number: usize,
    kept: &Kept,
    memory: &mut W::Memory,
    out: &mut O,
) -> Result<usize, Stop>
    requires ready { W.ready lines.now.by.now }
    requires kept { (line : List ℕ) × IsKept kept.now line }
    ensures reply { IfOk result (Replied (Marked (λ text refusals. (line : List ℕ) → IsKept kept.now line
        → W.replies lines.now.by.now number (text_without_cr line) text refusals) (λ text count. (line : List ℕ) → IsKept kept.now line
        → W.marks lines.now.by.now number (text_without_cr line) text count) (λ text refusals. (line : List ℕ) → IsKept kept.now line
        → Knows (W.knows lines.now.by.now) (λ before. W.follows lines.now.by.now before number) number (text_without_cr line) memory.old memory.new
        text refusals) (W.tally memory.new - W.tally memory.old)) (O.contents out.old) (O.contents out.new)) }
    ensures err { IfErr result (BreaksOff (λ text refusals. (line : List ℕ) → IsKept kept.now line
        → W.replies lines.now.by.now number (text_without_cr line) text refusals
        × Follows (W.knows lines.now.by.now) (λ before. W.follows lines.now.by.now before number) number (text_without_cr line) memory.old text refusals)
        (O.contents out.old) (O.contents out.new)) }
    ensures few { IfOk result (λ refused. refused ≤ 1) }
    ensures grows { IfOk result (λ _. W.tally memory.old ≤ W.tally memory.new) }
    ensures room { W.room memory.new ≡ W.room memory.old }
{
    if kept.is_blank() {
        return Ok(0);
    }
    lines.progress.begins(number);
    let line = without_cr(kept.bytes.as_slice());
    if line.len() > MAX_LINE {
        let refused = lines.by.refuse_long(alloc, number, out);
        tell(lines.progress, &refused);
        return refused;
    }
    let refused = lines.by.write_reply(alloc, number, line, memory, out);
    tell(lines.progress, &refused);
    refused
}

/// Says that a reply is written, where it is.
fn tell<P: Progress>(progress: &P, refused: &Result<usize, Stop>) {
    if let Ok(refused) = refused {
        progress.wrote(*refused);
    }
}

/// What is known once a line is answered: whether it was refused, and whether it is the last.
#[derive(Clone, Copy)]
struct Answered {
    refused: usize,
    is_last: bool,
}

/// Takes the next line of an input, and has written the reply to it when it returns, unless it is passed over.
fn answer_next<W: LineWriter, P: Progress, I: Input + Drop, O: Write>(
    alloc: Global,
    lines: &LinesFrom<W, P>,
    number: usize,
    input: &mut Lines<I>,
    memory: &mut W::Memory,
    out: &mut O,
) -> Result<Answered, Stop>
    requires ready { W.ready lines.now.by.now }
    ensures ok { IfOk result (λ answered. (line : List ℕ) × (here : List ℕ)
        × RepliesFrom (W.replies lines.now.by.now) lines.now.from number (text_without_cr line) here answered.refused
        × RepliesFrom (W.marks lines.now.by.now) lines.now.from number (text_without_cr line) here (W.tally memory.new - W.tally memory.old)
        × Knows (KnowsFrom (W.knows lines.now.by.now) lines.now.from)
        (λ before. FollowsFrom (W.follows lines.now.by.now) lines.now.from before number) number (text_without_cr line) memory.old memory.new
        here answered.refused
        × TakesLine answered.is_last (left_of I.left input.old) (left_of I.left input.new) line
        × Appends (O.contents out.old) (O.contents out.new) here) }
    ensures few { IfOk result (λ answered. answered.refused ≤ 1) }
    ensures grows { IfOk result (λ _. W.tally memory.old ≤ W.tally memory.new) }
    ensures unanswered { IfErr result (λ stop. is_of_output stop ≡ false → Keeps (O.contents out.old) (O.contents out.new)) }
    ensures cut { IfErr result (λ stop. is_of_output stop ≡ true → (is_last : Bool) × (line : List ℕ) × (here : List ℕ) × (count : ℕ)
        × (RepliesFrom (W.replies lines.now.by.now) lines.now.from number (text_without_cr line) here count
        × Follows (KnowsFrom (W.knows lines.now.by.now) lines.now.from)
        (λ before. FollowsFrom (W.follows lines.now.by.now) lines.now.from before number) number (text_without_cr line) memory.old here count)
        × TakesLine is_last (left_of I.left input.old) (left_of I.left input.new) line
        × AppendsPart (O.contents out.old) (O.contents out.new) here) }
    ensures unreadable { IfErr result (λ stop. stop ≡ Stop.Unreadable → I.breaks input.old.input) }
    ensures steady { I.breaks input.new.input → I.breaks input.old.input }
    ensures room { W.room memory.new ≡ W.room memory.old }
{
    let taken = input.take_line(alloc)?;
    if number < lines.from {
        return Ok(Answered {
            refused: 0,
            is_last: taken.is_last,
        });
    }
    match answer_kept(alloc, lines, number, &taken.kept, memory, out) {
        Ok(refused) => Ok(Answered {
            refused,
            is_last: taken.is_last,
        }),
        Err(stop) => Err(stop),
    }
}

/// Takes all lines of an input, and answers each that isn't passed over before the next is waited for; gives how many are refused.
fn write_each<W: LineWriter, P: Progress, I: Input + Drop, O: Write>(
    alloc: Global,
    lines: &LinesFrom<W, P>,
    input: I,
    memory: &mut W::Memory,
    out: &mut O,
) -> Result<usize, Stop>
    requires ready { W.ready lines.now.by.now }
    ensures marked { IfOk result (λ refused. (bytes : List ℕ) × (text : List ℕ) × MayBe (I.left input) bytes
        × (IsReply (RepliesFrom (W.replies lines.now.by.now) lines.now.from) bytes text refused
        × IsReply (RepliesFrom (W.marks lines.now.by.now) lines.now.from) bytes text (W.tally memory.new - W.tally memory.old))
        × Appends (O.contents out.old) (O.contents out.new) text) }
    ensures followed { IfOk result (λ refused. KnowsFrom (W.knows lines.now.by.now) lines.now.from memory.old []
        → (bytes : List ℕ) × (text : List ℕ) × MayBe (I.left input) bytes
        × (IsReply (behind (FollowsFrom (W.follows lines.now.by.now) lines.now.from) (texts_of bytes)) bytes text refused
        × KnowsFrom (W.knows lines.now.by.now) lines.now.from memory.new (texts_of bytes))
        × Appends (O.contents out.old) (O.contents out.new) text) }
    ensures grows { IfOk result (λ _. W.tally memory.old ≤ W.tally memory.new) }
    ensures err { IfErr result (λ stop. (bytes : List ℕ) × (text : List ℕ) × MayBe (I.left input) bytes
        × IsReplyToFirst (RepliesFrom (W.replies lines.now.by.now) lines.now.from) bytes text
        × AppendsBy stop (O.contents out.old) (O.contents out.new) text) }
    ensures broken { IfErr result (λ stop. KnowsFrom (W.knows lines.now.by.now) lines.now.from memory.old []
        → (bytes : List ℕ) × (text : List ℕ) × MayBe (I.left input) bytes
        × IsReplyToFirst (behind (FollowsFrom (W.follows lines.now.by.now) lines.now.from) (texts_of bytes)) bytes text
        × AppendsBy stop (O.contents out.old) (O.contents out.new) text) }
    ensures unreadable { IfErr result (λ stop. stop ≡ Stop.Unreadable → I.breaks input) }
    ensures room { W.room memory.new ≡ W.room memory.old }
{
    let mut rest = Lines::new(alloc, input);
    let mut refused = 0;
    for number in 1..usize::MAX {
        let answered = answer_next(alloc, lines, number, &mut rest, memory, out)?;
        refused += answered.refused;
        if answered.is_last {
            return Ok(refused);
        }
    }
    Err(Stop::NoMemory)
}

/// Answers an input line by line, from that of a number on: each line before the next is waited for. Gives how many lines are refused; how
/// many marks there are more, the memory tells.
///
/// Where it stops before the end, the replies to some of the first lines are written. A line is taken into memory no further
/// than a record is long.
pub fn write_replies<W: LineWriter, P: Progress, I: Input + Drop, O: Write>(
    alloc: Global,
    lines: &LinesFrom<W, P>,
    input: I,
    memory: &mut W::Memory,
    out: &mut O,
) -> Result<usize, Stop>
    requires ready { W.ready lines.now.by.now }
    requires from { 1 ≤ lines.now.from }
    ensures ok { IfOk result (λ refused. (bytes : List ℕ) × (text : List ℕ) × MayBe (I.left input) bytes
        × IsReplyOn (W.replies lines.now.by.now) lines.now.from bytes text refused
        × Appends (O.contents out.old) (O.contents out.new) text) }
    ensures marked { IfOk result (λ refused. (bytes : List ℕ) × (text : List ℕ) × MayBe (I.left input) bytes
        × (IsReplyOn (W.replies lines.now.by.now) lines.now.from bytes text refused
        × IsReplyOn (W.marks lines.now.by.now) lines.now.from bytes text (W.tally memory.new - W.tally memory.old))
        × Appends (O.contents out.old) (O.contents out.new) text) }
    ensures followed { IfOk result (λ refused. W.knows lines.now.by.now memory.old [] → (bytes : List ℕ) × (text : List ℕ)
        × MayBe (I.left input) bytes
        × (IsReplyOn (behind (W.follows lines.now.by.now) (lines_from lines.now.from (texts_of bytes))) lines.now.from bytes text refused
        × W.knows lines.now.by.now memory.new (lines_from lines.now.from (texts_of bytes)))
        × Appends (O.contents out.old) (O.contents out.new) text) }
    ensures grows { IfOk result (λ _. W.tally memory.old ≤ W.tally memory.new) }
    ensures err { IfErr result (λ stop. (bytes : List ℕ) × (text : List ℕ) × MayBe (I.left input) bytes
        × IsReplyToFirstOn (W.replies lines.now.by.now) lines.now.from bytes text
        × AppendsBy stop (O.contents out.old) (O.contents out.new) text) }
    ensures broken { IfErr result (λ stop. W.knows lines.now.by.now memory.old [] → (bytes : List ℕ) × (text : List ℕ)
        × MayBe (I.left input) bytes
        × IsReplyToFirstOn (behind (W.follows lines.now.by.now) (lines_from lines.now.from (texts_of bytes))) lines.now.from bytes text
        × AppendsBy stop (O.contents out.old) (O.contents out.new) text) }
    ensures unreadable { IfErr result (λ stop. stop ≡ Stop.Unreadable → I.breaks input) }
    ensures room { W.room memory.new ≡ W.room memory.old }
{
    write_each(alloc, lines, input, memory, out)
}
