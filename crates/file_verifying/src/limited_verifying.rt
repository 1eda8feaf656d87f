//! The command `verify` where each record may take so many seconds.

ghost use Rattle.std.specs.Prelude.{◌-◌, IfErr, IfOk, map};
ghost use Rattle.file_answers.specs.Writing.{Gains};
ghost use Rattle.file_verifying.specs.Verified.{LimitedHeaded, StopsLimitedHeaded, StopsVerifyingInTime, VerifiesInTime};

use crate::headings::{Rows, ToldHints, prefix_of, put_header, tell_counts};
use byte_streams::{Input, Stop};
use file_answers::{FileAnswers, FileStart, Source, SourceFiles, answer_files, holds_reads};
use mate_answers::{Limited, TimeLimit};
use mate_claims::{LimitedClaimMemory, LimitedClaims};
use mate_search::Solver;
use std::alloc::Global;
use std::io::Write;
use text_lines::{LinesFrom, answer_lines};

/// Holds records against their claims so.
#[derive(Drop)]
struct LimitedAnswers<'a, 'r, T, V> {
    limited: &'a Limited<'r, T, V>,
    /// Whether a row names its file.
    several: bool,
    told: ToldHints,
}

impl<T: TimeLimit, V: Solver<T>> FileAnswers for LimitedAnswers<'_, '_, T, V> {
    ghost use Rattle.file_verifying.specs.Verified.{limited_claim_replies, limited_claims_told, first_limited_claim_replies};

    type Memory = LimitedClaimMemory<V::Memory>;

    ghost ready = { λ answers. V.ready answers.limited.now.solver };

    ghost replies = { λ answers. limited_claim_replies (T.may_stop answers.limited.now.limit.now) answers.several answers.limited.now.default };

    ghost told = { λ answers. limited_claims_told (T.may_stop answers.limited.now.limit.now) answers.several answers.limited.now.default };

    ghost tally = { λ memory. memory.counts.undecided };

    ghost tells = { λ _ _ _ _ _ _ _ told. told.0 };

    ghost first = { λ answers. first_limited_claim_replies (T.may_stop answers.limited.now.limit.now) answers.several answers.limited.now.default };

    fn answer<S: Source, I: Input + Drop, O: Write>(
        &self,
        alloc: Global,
        start: &FileStart<S>,
        input: I,
        memory: &mut LimitedClaimMemory<V::Memory>,
        out: &mut O,
    ) -> Result<usize, Stop> {
        let prefix = prefix_of(alloc, self.several, start.name)?;
        let claims = LimitedClaims {
            limited: self.limited,
            prefix: prefix.as_slice(),
        };
        let before = memory.counts.not_sound();
        let unsound = answer_lines(
            alloc,
            &LinesFrom {
                by: &claims,
                from: start.from,
                progress: start.source,
            },
            input,
            memory,
            out,
        )?;
        memory.counts = memory.counts.with_unread(before, unsound);
        Ok(unsound)
    }

    fn tell_beside<E: Write>(
        &self,
        name: Option<&str>,
        memory: &LimitedClaimMemory<V::Memory>,
        err: &mut E,
    ) {
        self.told.tell(name, memory.hints, err);
    }

    #[tactic(auto, using(crate::proofs::Unopened::no_limited_reply))]
    fn begins_with_nothing(&self) {}
}

/// Writes the row of each record of each file, in order, but of those of the first file that are passed over, and tells the counts.
fn verify_rows<T: TimeLimit, V: Solver<T>, S: Source, O: Write, E: Write>(
    alloc: Global,
    limited: &Limited<T, V>,
    files: &SourceFiles<S>,
    memory: &mut LimitedClaimMemory<V::Memory>,
    out: &mut O,
    err: &mut E,
) -> Result<bool, Stop>
    requires ready { V.ready limited.now.solver }
    ensures ok { IfOk result (λ unsound. Gains (VerifiesInTime (S.holds files.now.source.now) (T.may_stop limited.now.limit.now)
        limited.now.default files.now.from (map (λ s. s.now) files.now.names.now) unsound
        (memory.new.counts.undecided - memory.old.counts.undecided)) (O.contents out.old) (O.contents out.new)) }
    ensures err { IfErr result (λ stop. StopsVerifyingInTime (S.holds files.now.source.now) (S.refuses files.now.source.now)
        (T.may_stop limited.now.limit.now) limited.now.default files.now.from (map (λ s. s.now) files.now.names.now) stop
        (O.contents out.old) (O.contents out.new)) }
{
    // How many inputs there are of so many names.
    holds_reads();
    let answers = LimitedAnswers {
        limited,
        several: files.names.len() > 1,
        told: ToldHints::new(),
    };
    match answer_files(alloc, &answers, files, memory, out, err) {
        Ok(unsound) => {
            tell_counts(alloc, &memory.counts, err)?;
            Ok(unsound)
        }
        Err(stop) => Err(stop),
    }
}

/// Holds records against their claims as `verify` does, by who solves them, but that one which the limit stops before it is decided is told
/// as undecided; gives whether a line is known not to be sound. How many records were not decided, the memory counts, as all else that is
/// told at the end on `err`; a file that can't be read is named there.
pub fn verify_limited<T: TimeLimit, V: Solver<T>, S: Source, O: Write, E: Write>(
    alloc: Global,
    rows: &Rows<Limited<T, V>>,
    files: &SourceFiles<S>,
    memory: &mut LimitedClaimMemory<V::Memory>,
    out: &mut O,
    err: &mut E,
) -> Result<bool, Stop>
    requires ready { V.ready rows.now.by.now.solver }
    ensures ok { IfOk result (λ unsound. Gains (LimitedHeaded (S.holds files.now.source.now) (T.may_stop rows.now.by.now.limit.now)
        rows.now.by.now.default rows.now.header files.now.from (map (λ s. s.now) files.now.names.now) unsound
        (memory.new.counts.undecided - memory.old.counts.undecided)) (O.contents out.old) (O.contents out.new)) }
    ensures err { IfErr result (λ stop. StopsLimitedHeaded (S.holds files.now.source.now) (S.refuses files.now.source.now)
        (T.may_stop rows.now.by.now.limit.now) rows.now.by.now.default rows.now.header files.now.from (map (λ s. s.now) files.now.names.now) stop
        (O.contents out.old) (O.contents out.new)) }
{
    put_header(out, rows.header)?;
    verify_rows(alloc, rows.by, files, memory, out, err)
}
