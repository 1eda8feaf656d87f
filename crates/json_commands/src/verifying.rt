//! The command `verify --json`.

ghost use Rattle.std.specs.Prelude.{◌≡◌, IfErr, IfOk, map};
ghost use Rattle.file_answers.specs.Writing.{Gains};
ghost use Rattle.json_commands.specs.Verified.{StopsVerifyingJson, VerifiesJson};

use crate::json_files::has_several;
use byte_streams::{Input, Stop};
use chess_moves::Rays;
use chess_problems::Bound;
use command_words::VerifyAsked;
use file_answers::{FileAnswers, FileStart, Source, SourceFiles, answer_files, holds_reads};
use file_solving::new_memo;
use file_verifying::{ToldHints, tell_counts};
use json_replies::{Form, JsonReplies, front_of};
use mate_claims::{ClaimMemory, ClaimRows, Counts, Hints};
use std::alloc::Global;
use std::io::Write;
use text_lines::{LinesFrom, answer_lines};

/// Holds records against their claims, with the bound of those that say none.
#[derive(Drop)]
struct JsonClaims<'a> {
    rays: &'a Rays,
    bound: Bound,
    /// Whether an object names its file.
    several: bool,
    told: ToldHints,
}

impl FileAnswers for JsonClaims<'_> {
    ghost use Rattle.std.specs.Prelude.{[]};
    ghost use Rattle.file_answers.specs.FileAnswers.{unmarked};
    ghost use Rattle.json_commands.specs.JsonFiles.{file_replies, first_file_replies};
    ghost use Rattle.json_replies.specs.declared.replies.Form.TheVariants.{Row};
    ghost use Rattle.mate_claims.specs.ClaimReplies.{IsClaimReply};

    type Memory = ClaimMemory;

    ghost replies = { λ claims. file_replies Row claims.several (IsClaimReply [] claims.bound) };

    ghost told = { λ claims. unmarked (file_replies Row claims.several (IsClaimReply [] claims.bound)) };

    ghost tells = { λ _ _ _ _ _ _ _ told. told };

    ghost first = { λ claims. first_file_replies Row claims.several (IsClaimReply [] claims.bound) };

    fn answer<S: Source, I: Input + Drop, O: Write>(
        &self,
        alloc: Global,
        start: &FileStart<S>,
        input: I,
        memory: &mut ClaimMemory,
        out: &mut O,
    ) -> Result<usize, Stop> {
        let front = front_of(alloc, self.several, start.name)?;
        let rows = ClaimRows {
            rays: self.rays,
            default: self.bound,
            prefix: b"",
        };
        let json = JsonReplies {
            handler: &rows,
            form: Form::Row,
            front: front.as_slice(),
        };
        let before = memory.counts.not_sound();
        let unsound = answer_lines(
            alloc,
            &LinesFrom {
                by: &json,
                from: start.from,
                progress: start.source,
            },
            input,
            memory,
            out,
        )?;
        memory.count_unread(before, unsound);
        Ok(unsound)
    }

    fn tell_beside<E: Write>(&self, name: Option<&str>, memory: &ClaimMemory, err: &mut E) {
        self.told.tell(name, memory.hints, err);
    }

    #[tactic(auto, using(crate::proofs::Unopened::no_file_reply))]
    fn begins_with_nothing(&self) {}
}

/// Holds records against their claims as `verify` does, but in JSON: a line for each that isn't blank. It gives whether a line isn't sound.
/// At the end `err` is told how many lines came to which verdict; a file that can't be read is named there.
pub fn verify_json<S: Source, O: Write, E: Write>(
    alloc: Global,
    asked: &VerifyAsked,
    source: &S,
    out: &mut O,
    err: &mut E,
) -> Result<bool, Stop>
    ensures ok { IfOk result (λ refused. Gains (VerifiesJson (S.holds source.now) asked.now.bound asked.now.files.from
        (map (λ s. s.now) asked.now.files.names.now) refused) (O.contents out.old) (O.contents out.new)) }
    ensures err { IfErr result (λ stop. StopsVerifyingJson (S.holds source.now) (S.refuses source.now) asked.now.bound asked.now.files.from
        (map (λ s. s.now) asked.now.files.names.now) stop (O.contents out.old) (O.contents out.new)) }
{
    // How many inputs there are of so many names.
    holds_reads();
    let rays = Rays::new();
    let memo = new_memo(alloc, asked.memo.get() as usize)?;
    let mut memory = ClaimMemory {
        memo,
        counts: Counts::new(),
        hints: Hints::new(),
    };
    let claims = JsonClaims {
        rays: &rays,
        bound: asked.bound,
        several: has_several(asked.files.names),
        told: ToldHints::new(),
    };
    let files = SourceFiles {
        names: asked.files.names,
        from: asked.files.from,
        source,
    };
    match answer_files(alloc, &claims, &files, &mut memory, out, err) {
        Ok(unsound) => {
            tell_counts(alloc, &memory.counts, err)?;
            Ok(unsound)
        }
        Err(stop) => Err(stop),
    }
}
