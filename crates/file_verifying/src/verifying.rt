//! The command `verify`.

ghost use Rattle.std.specs.Prelude.{◌≡◌, ◌≤◌, ℕ, List, IfErr, IfOk, map};
ghost use Rattle.std.specs.Io.KnownBytes.{Appends};
ghost use Rattle.byte_streams.specs.Inputs.{MayBe};
ghost use Rattle.byte_streams.specs.Stops.{AppendsBy};
ghost use Rattle.text_lines.specs.LinesFrom.{IsReplyOn, IsReplyToFirstOn};
ghost use Rattle.file_answers.specs.Writing.{Gains};
ghost use Rattle.mate_claims.specs.ClaimReplies.{IsClaimReply};
ghost use Rattle.file_verifying.specs.Verified.{StopsHeaded, StopsVerifying, Verifies, VerifiesHeaded};

use crate::headings::{Rows, ToldHints, prefix_of, put_header, tell_counts};
use byte_streams::{Input, Stop};
use chess_moves::Rays;
use chess_problems::Bound;
use command_words::VerifyAsked;
use file_answers::{FileAnswers, FileStart, Source, SourceFiles, answer_files, holds_reads};
use file_solving::new_memo;
use mate_claims::{ClaimMemory, ClaimRows, Counts, Hints};
use std::alloc::Global;
use std::io::Write;
use text_lines::{LinesFrom, answer_lines};

/// Where the rows of a file begin: what stands before the number of a line, the number of the first line, and the source of the file.
#[derive(Clone, Copy)]
pub struct RowStart<'a, S> {
    pub prefix: &'a [u8],
    pub from: usize,
    pub source: &'a S,
}

/// Who holds the lines of files against their claims.
pub trait Verifier {
    /// What is kept from line to line.
    type Memory;

    /// The bound of records that say none.
    ghost default: { Self → ℕ };

    /// Writes the row of each line of a file from where its rows begin; gives how many lines aren't sound.
    fn verify_lines<S: Source, I: Input + Drop, O: Write>(
        &self,
        alloc: Global,
        start: &RowStart<S>,
        input: I,
        memory: &mut Self::Memory,
        out: &mut O,
    ) -> Result<usize, Stop>
        requires from { 1 ≤ start.now.from }
        ensures ok { IfOk result (λ unsound. (bytes : List ℕ) × (text : List ℕ) × MayBe (I.left input) bytes
            × IsReplyOn (IsClaimReply start.now.prefix.now (default self.now)) start.now.from bytes text unsound
            × Appends (O.contents out.old) (O.contents out.new) text) }
        ensures err { IfErr result (λ stop. (bytes : List ℕ) × (text : List ℕ) × MayBe (I.left input) bytes
            × IsReplyToFirstOn (IsClaimReply start.now.prefix.now (default self.now)) start.now.from bytes text
            × AppendsBy stop (O.contents out.old) (O.contents out.new) text) }
        ensures unreadable { IfErr result (λ stop. stop ≡ Stop.Unreadable → I.breaks input) };

    /// How many lines came to which verdict so far.
    fn counts(&self, memory: &Self::Memory) -> Counts;

    /// What is told beside these counts so far.
    fn hints(&self, memory: &Self::Memory) -> Hints;
}

/// The calling thread, over one memo.
#[derive(Clone, Copy)]
struct OneVerifier<'a> {
    rays: &'a Rays,
    bound: Bound,
}

impl Verifier for OneVerifier<'_> {
    type Memory = ClaimMemory;

    ghost default = { λ one. one.bound };

    fn verify_lines<S: Source, I: Input + Drop, O: Write>(
        &self,
        alloc: Global,
        start: &RowStart<S>,
        input: I,
        memory: &mut ClaimMemory,
        out: &mut O,
    ) -> Result<usize, Stop> {
        let rows = ClaimRows {
            rays: self.rays,
            default: self.bound,
            prefix: start.prefix,
        };
        let before = memory.counts.not_sound();
        let unsound = answer_lines(
            alloc,
            &LinesFrom {
                by: &rows,
                from: start.from,
                progress: start.source,
            },
            input,
            memory,
            out,
        )?;
        memory.count_unread(before, unsound);
        Ok(unsound)
    }

    fn counts(&self, memory: &ClaimMemory) -> Counts {
        memory.counts
    }

    fn hints(&self, memory: &ClaimMemory) -> Hints {
        memory.hints
    }
}

/// Holds records against their claims so.
#[derive(Drop)]
struct ClaimAnswers<'a, V> {
    verifier: &'a V,
    /// Whether a row names its file.
    several: bool,
    told: ToldHints,
}

impl<V: Verifier> FileAnswers for ClaimAnswers<'_, V> {
    ghost use Rattle.file_answers.specs.FileAnswers.{unmarked};
    ghost use Rattle.file_verifying.specs.Verified.{claim_replies, first_claim_replies};

    type Memory = V::Memory;

    ghost replies = { λ answers. claim_replies answers.several (V.default answers.verifier.now) };

    ghost told = { λ answers. unmarked (claim_replies answers.several (V.default answers.verifier.now)) };

    ghost tells = { λ _ _ _ _ _ _ _ told. told };

    ghost first = { λ answers. first_claim_replies answers.several (V.default answers.verifier.now) };

    fn answer<S: Source, I: Input + Drop, O: Write>(
        &self,
        alloc: Global,
        start: &FileStart<S>,
        input: I,
        memory: &mut V::Memory,
        out: &mut O,
    ) -> Result<usize, Stop> {
        let prefix = prefix_of(alloc, self.several, start.name)?;
        let rows = RowStart {
            prefix: prefix.as_slice(),
            from: start.from,
            source: start.source,
        };
        self.verifier.verify_lines(alloc, &rows, input, memory, out)
    }

    fn tell_beside<E: Write>(&self, name: Option<&str>, memory: &V::Memory, err: &mut E) {
        self.told.tell(name, self.verifier.hints(memory), err);
    }

    #[tactic(auto, using(crate::proofs::Unopened::no_claim_reply))]
    fn begins_with_nothing(&self) {}
}

/// Writes the row of each record of each file, in order, but of those of the first file that are passed over.
fn verify_rows<V: Verifier, S: Source, O: Write, E: Write>(
    alloc: Global,
    verifier: &V,
    files: &SourceFiles<S>,
    memory: &mut V::Memory,
    out: &mut O,
    err: &mut E,
) -> Result<bool, Stop>
    ensures ok { IfOk result (λ refused. Gains (Verifies (S.holds files.now.source.now) (V.default verifier.now) files.now.from
        (map (λ s. s.now) files.now.names.now) refused) (O.contents out.old) (O.contents out.new)) }
    ensures err { IfErr result (λ stop. StopsVerifying (S.holds files.now.source.now) (S.refuses files.now.source.now) (V.default verifier.now)
        files.now.from (map (λ s. s.now) files.now.names.now) stop (O.contents out.old) (O.contents out.new)) }
{
    // How many inputs there are of so many names.
    holds_reads();
    let answers = ClaimAnswers {
        verifier,
        several: files.names.len() > 1,
        told: ToldHints::new(),
    };
    match answer_files(alloc, &answers, files, memory, out, err) {
        Ok(unsound) => {
            tell_counts(alloc, &verifier.counts(memory), err)?;
            Ok(unsound)
        }
        Err(stop) => Err(stop),
    }
}

/// Has each record of each file, in order, but those of the first file that are passed over, held against its claims; gives whether a line
/// isn't sound. A first row has the names of the fields, where these are asked for. At the end `err` is told how many lines came to which
/// verdict; a file that can't be read is named there.
pub fn verify_by<V: Verifier, S: Source, O: Write, E: Write>(
    alloc: Global,
    rows: &Rows<V>,
    files: &SourceFiles<S>,
    memory: &mut V::Memory,
    out: &mut O,
    err: &mut E,
) -> Result<bool, Stop>
    ensures ok { IfOk result (λ refused. Gains (VerifiesHeaded (S.holds files.now.source.now) (V.default rows.now.by.now) rows.now.header
        files.now.from (map (λ s. s.now) files.now.names.now) refused) (O.contents out.old) (O.contents out.new)) }
    ensures err { IfErr result (λ stop. StopsHeaded (S.holds files.now.source.now) (S.refuses files.now.source.now) (V.default rows.now.by.now)
        rows.now.header files.now.from (map (λ s. s.now) files.now.names.now) stop (O.contents out.old) (O.contents out.new)) }
{
    put_header(out, rows.header)?;
    verify_rows(alloc, rows.by, files, memory, out, err)
}

/// The same by the calling thread, over one memo of such a size.
pub fn verify<S: Source, O: Write, E: Write>(
    alloc: Global,
    asked: &VerifyAsked,
    source: &S,
    out: &mut O,
    err: &mut E,
) -> Result<bool, Stop>
    ensures ok { IfOk result (λ refused. Gains (VerifiesHeaded (S.holds source.now) asked.now.bound asked.now.header asked.now.files.from
        (map (λ s. s.now) asked.now.files.names.now) refused) (O.contents out.old) (O.contents out.new)) }
    ensures err { IfErr result (λ stop. StopsHeaded (S.holds source.now) (S.refuses source.now) asked.now.bound asked.now.header asked.now.files.from
        (map (λ s. s.now) asked.now.files.names.now) stop (O.contents out.old) (O.contents out.new)) }
{
    let rays = Rays::new();
    let mut memory = ClaimMemory {
        memo: new_memo(alloc, asked.memo.get() as usize)?,
        counts: Counts::new(),
        hints: Hints::new(),
    };
    let verifier = OneVerifier {
        rays: &rays,
        bound: asked.bound,
    };
    let rows = Rows {
        by: &verifier,
        header: asked.header,
    };
    let files = SourceFiles {
        names: asked.files.names,
        from: asked.files.from,
        source,
    };
    verify_by(alloc, &rows, &files, &mut memory, out, err)
}
