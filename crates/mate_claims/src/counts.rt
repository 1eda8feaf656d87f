//! How many lines came to which verdict, and of how many the number of moves is the default one.

ghost use Rattle.std.specs.Prelude.{◌≡◌, ◌++◌, IfOk, IfSome, OnOk, false, min, string_bytes};
ghost use Rattle.mate_claims.specs.Counts.{no_counts, count_of as count_in, with_count as with_count_of, with_source as with_source_of};
ghost use Rattle.mate_claims.specs.Counts.{with_one, with_decided, with_refusals, with_unread as with_unread_of, not_sound_in, count_text, counts_text, some_text};

use crate::bound_sources::BoundSource;
use crate::claim_verdicts::ClaimVerdict;
use byte_streams::NoMemory;
use std::alloc::{AllocError, Global};

/// How many lines came to each verdict, and how many were refused.
#[derive(Clone, Copy, Debug, PartialEq, Eq)]
pub struct Counts {
    pub sound: usize,
    pub several: usize,
    pub unclaimed: usize,
    pub cooked: usize,
    pub wrong: usize,
    pub short: usize,
    pub unsolvable: usize,
    pub unsolved: usize,
    /// How many records were not decided, whatever is amiss with their claims.
    pub undecided: usize,
    pub refused: usize,
    /// How many records say no number of moves, whatever comes of their claims.
    pub unnumbered: usize,
}

impl Counts {
    /// Of no line.
    pub fn new() -> Counts
        ensures { result ≡ no_counts }
    {
        Counts {
            sound: 0,
            several: 0,
            unclaimed: 0,
            cooked: 0,
            wrong: 0,
            short: 0,
            unsolvable: 0,
            unsolved: 0,
            undecided: 0,
            refused: 0,
            unnumbered: 0,
        }
    }

    /// How many lines came to this verdict, or were refused where there is none. What was not decided is counted apart.
    fn count_of(&self, verdict: Option<ClaimVerdict>) -> usize
        ensures { result ≡ count_in verdict self.now }
    {
        match verdict {
            Some(ClaimVerdict::Sound) => self.sound,
            Some(ClaimVerdict::Several) => self.several,
            Some(ClaimVerdict::Unclaimed) => self.unclaimed,
            Some(ClaimVerdict::Cooked) => self.cooked,
            Some(ClaimVerdict::Wrong) => self.wrong,
            Some(ClaimVerdict::Short) => self.short,
            Some(ClaimVerdict::Unsolvable) => self.unsolvable,
            Some(ClaimVerdict::Unsolved) => self.unsolved,
            Some(ClaimVerdict::Undecided) => 0,
            None => self.refused,
        }
    }

    /// With this count of them.
    fn with_count(self, verdict: Option<ClaimVerdict>, count: usize) -> Counts
        ensures { result ≡ with_count_of verdict count self }
    {
        match verdict {
            Some(ClaimVerdict::Sound) => Counts {
                sound: count,
                ..self
            },
            Some(ClaimVerdict::Several) => Counts {
                several: count,
                ..self
            },
            Some(ClaimVerdict::Unclaimed) => Counts {
                unclaimed: count,
                ..self
            },
            Some(ClaimVerdict::Cooked) => Counts {
                cooked: count,
                ..self
            },
            Some(ClaimVerdict::Wrong) => Counts {
                wrong: count,
                ..self
            },
            Some(ClaimVerdict::Short) => Counts {
                short: count,
                ..self
            },
            Some(ClaimVerdict::Unsolvable) => Counts {
                unsolvable: count,
                ..self
            },
            Some(ClaimVerdict::Unsolved) => Counts {
                unsolved: count,
                ..self
            },
            Some(ClaimVerdict::Undecided) => self,
            None => Counts {
                refused: count,
                ..self
            },
        }
    }

    /// With one record more whose number of moves comes from there. None where the count has no room for it.
    fn with_source(self, source: Option<BoundSource>) -> Option<Counts>
        ensures { IfSome result (λ counts. counts ≡ with_source_of source self) }
    {
        match source {
            Some(BoundSource::Default) => Some(Counts {
                unnumbered: self.unnumbered.checked_add(1)?,
                ..self
            }),
            _ => Some(self),
        }
    }

    /// With one line more: of this verdict, or refused where there is none; and where the number of moves of a record comes from. None where a
    /// count has no room for it.
    pub fn with(self, verdict: Option<ClaimVerdict>, source: Option<BoundSource>) -> Option<Counts>
        ensures { IfSome result (λ counts. counts ≡ with_one verdict source self) }
    {
        let count = self.count_of(verdict).checked_add(1)?;
        self.with_count(verdict, count).with_source(source)
    }

    /// With one record more that was not decided. None where the count has no room for it.
    pub fn with_undecided(self) -> Option<Counts>
        ensures { IfSome result (λ counts. counts ≡ with_decided false self) }
    {
        Some(Counts {
            undecided: self.undecided.checked_add(1)?,
            ..self
        })
    }

    /// How many lines are known not to be sound, as far as there is a number for it.
    pub fn not_sound(&self) -> usize
        ensures { result ≡ min (not_sound_in self.now) 18446744073709551615 }
    {
        self.several
            .saturating_add(self.unclaimed)
            .saturating_add(self.cooked)
            .saturating_add(self.wrong)
            .saturating_add(self.short)
            .saturating_add(self.unsolvable)
            .saturating_add(self.unsolved)
            .saturating_add(self.refused)
    }

    /// With so many refused lines more, as far as there is a number for them.
    pub fn with_refused(self, count: usize) -> Counts
        ensures { result ≡ with_refusals count self }
    {
        Counts {
            refused: self.refused.saturating_add(count),
            ..self
        }
    }

    /// With what is missing of so many lines that aren't sound, since there were so many before, counted as refused: a line that is too long
    /// is refused unread, and no count has it yet.
    pub fn with_unread(self, before: usize, unsound: usize) -> Counts
        ensures { result ≡ with_unread_of before unsound self }
    {
        let counted = self.not_sound().saturating_sub(before);
        self.with_refused(unsound.saturating_sub(counted))
    }

    /// Adds the counts, one behind the other.
    #[tactic(auto, unfolding(crate::specs::Counts::counts_text))]
    fn push_to(&self, alloc: Global, text: &mut String) -> Result<(), AllocError>
        ensures { OnOk result (string_bytes text.new ≡ string_bytes text.old ++ counts_text self.now) }
    {
        push_count(alloc, text, "sound ", self.sound)?;
        push_count(alloc, text, ", several ", self.several)?;
        push_count(alloc, text, ", unclaimed ", self.unclaimed)?;
        push_count(alloc, text, ", cooked ", self.cooked)?;
        push_count(alloc, text, ", wrong ", self.wrong)?;
        push_count(alloc, text, ", short ", self.short)?;
        push_count(alloc, text, ", unsolvable ", self.unsolvable)?;
        push_count(alloc, text, ", unsolved ", self.unsolved)?;
        push_count(alloc, text, ", refused ", self.refused)?;
        push_some(alloc, text, self.unnumbered, " without a number of moves")?;
        push_some(alloc, text, self.undecided, " not decided")?;
        Ok(())
    }

    /// The counts on one line, without a newline.
    pub fn text(&self, alloc: Global) -> Result<String, NoMemory>
        ensures { IfOk result (λ text. string_bytes text ≡ counts_text self.now) }
    {
        let mut text = String::new(alloc);
        self.push_to(alloc, &mut text)?;
        Ok(text)
    }
}

/// Adds a count behind its name.
fn push_count(alloc: Global, text: &mut String, name: &str, count: usize) -> Result<(), AllocError>
    ensures { OnOk result (string_bytes text.new ≡ string_bytes text.old ++ count_text name.now count) }
{
    text.push_str(name)?;
    text.push_str(count.to_string(alloc)?.as_str())
}

/// Adds how many there are of this kind, where there are any.
fn push_some(alloc: Global, text: &mut String, count: usize, kind: &str) -> Result<(), AllocError>
    ensures { OnOk result (string_bytes text.new ≡ string_bytes text.old ++ some_text count kind.now) }
{
    if count == 0 {
        return Ok(());
    }
    push_count(alloc, text, "; ", count)?;
    text.push_str(kind)
}
