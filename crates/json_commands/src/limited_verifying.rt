//! The command `verify --json` where each record may take so many seconds.

ghost use Rattle.std.specs.Prelude.{◌≡◌, ◌-◌, IfErr, IfOk, map};
ghost use Rattle.file_answers.specs.Writing.{Gains};
ghost use Rattle.json_commands.specs.Verified.{StopsVerifyingLimitedJson, VerifiesLimitedJson};

use crate::json_files::has_several;
use byte_streams::{Input, Stop};
use file_answers::{FileAnswers, FileStart, Source, SourceFiles, answer_files, holds_reads};
use file_verifying::{ToldHints, tell_counts};
use json_replies::{Form, JsonReplies, front_of};
use mate_answers::{Limited, TimeLimit};
use mate_claims::{LimitedClaimMemory, LimitedClaims};
use mate_search::Solver;
use std::alloc::Global;
use std::io::Write;
use text_lines::{LinesFrom, answer_lines};

/// Holds records against their claims so.
#[derive(Drop)]
struct LimitedJsonClaims<'a, 'r, T, V> {
    limited: &'a Limited<'r, T, V>,
    /// Whether an object names its file.
    several: bool,
    told: ToldHints,
}

impl<T: TimeLimit, V: Solver<T>> FileAnswers for LimitedJsonClaims<'_, '_, T, V> {
    ghost use Rattle.std.specs.Prelude.{[]};
    ghost use Rattle.json_commands.specs.JsonFiles.{file_replies, file_told, first_file_replies};
    ghost use Rattle.json_replies.specs.declared.replies.Form.TheVariants.{Row};
    ghost use Rattle.mate_claims.specs.LimitedClaims.{IsLateClaim, IsLimitedClaim};

    type Memory = LimitedClaimMemory<V::Memory>;

    ghost ready = { λ claims. V.ready claims.limited.now.solver };

    ghost replies = { λ claims. file_replies Row claims.several
        (IsLimitedClaim (T.may_stop claims.limited.now.limit.now) [] claims.limited.now.default) };

    ghost told = { λ claims. file_told Row claims.several
        (IsLimitedClaim (T.may_stop claims.limited.now.limit.now) [] claims.limited.now.default)
        (IsLateClaim (T.may_stop claims.limited.now.limit.now) [] claims.limited.now.default) };

    ghost tally = { λ memory. memory.counts.undecided };

    ghost tells = { λ _ _ _ _ _ _ _ told. told.0 };

    ghost first = { λ claims. first_file_replies Row claims.several
        (IsLimitedClaim (T.may_stop claims.limited.now.limit.now) [] claims.limited.now.default) };

    fn answer<S: Source, I: Input + Drop, O: Write>(
        &self,
        alloc: Global,
        start: &FileStart<S>,
        input: I,
        memory: &mut LimitedClaimMemory<V::Memory>,
        out: &mut O,
    ) -> Result<usize, Stop> {
        let front = front_of(alloc, self.several, start.name)?;
        let claims = LimitedClaims {
            limited: self.limited,
            prefix: b"",
        };
        let json = JsonReplies {
            handler: &claims,
            form: Form::Row,
            front: front.as_slice(),
        };
        let before = memory.counts.not_sound();
        let unsound = answer_lines(
            alloc,
            &LinesFrom {
                by: &json,
                from: start.from,
                progress: start.source,
            },
            input,
            memory,
            out,
        )?;
        memory.counts = memory.counts.with_unread(before, unsound);
        Ok(unsound)
    }

    fn tell_beside<E: Write>(
        &self,
        name: Option<&str>,
        memory: &LimitedClaimMemory<V::Memory>,
        err: &mut E,
    ) {
        self.told.tell(name, memory.hints, err);
    }

    #[tactic(auto, using(crate::proofs::Unopened::no_file_reply))]
    fn begins_with_nothing(&self) {}
}

/// Holds records against their claims as `verify --json` does, by who solves them, but that one which the limit stops before it is decided is
/// told as undecided; gives whether a line is known not to be sound. How many records were not decided, the memory counts, as all else that
/// is told at the end on `err`; a file that can't be read is named there.
pub fn verify_json_limited<T: TimeLimit, V: Solver<T>, S: Source, O: Write, E: Write>(
    alloc: Global,
    limited: &Limited<T, V>,
    files: &SourceFiles<S>,
    memory: &mut LimitedClaimMemory<V::Memory>,
    out: &mut O,
    err: &mut E,
) -> Result<bool, Stop>
    requires ready { V.ready limited.now.solver }
    ensures ok { IfOk result (λ unsound. Gains (VerifiesLimitedJson (S.holds files.now.source.now) (T.may_stop limited.now.limit.now)
        limited.now.default files.now.from (map (λ s. s.now) files.now.names.now) unsound
        (memory.new.counts.undecided - memory.old.counts.undecided)) (O.contents out.old) (O.contents out.new)) }
    ensures err { IfErr result (λ stop. StopsVerifyingLimitedJson (S.holds files.now.source.now) (S.refuses files.now.source.now)
        (T.may_stop limited.now.limit.now) limited.now.default files.now.from (map (λ s. s.now) files.now.names.now) stop (O.contents out.old) (O.contents out.new)) }
{
    // How many inputs there are of so many names.
    holds_reads();
    let claims = LimitedJsonClaims {
        limited,
        several: has_several(files.names),
        told: ToldHints::new(),
    };
    match answer_files(alloc, &claims, files, memory, out, err) {
        Ok(unsound) => {
            tell_counts(alloc, &memory.counts, err)?;
            Ok(unsound)
        }
        Err(stop) => Err(stop),
    }
}
