//! What is asked of lines, each by itself: whoever answers one, on whatever thread, it is answered the same.

ghost use Rattle.std.specs.Prelude.{◌≡◌, ◌<◌, ◌≤◌, ◌∷◌, ◌++◌, ℕ, List, [], Option, None, Some, IfNone, IfOk, IfSome, OnOk, length, false, true};
ghost use Rattle.chess_notation.specs.Records.{max_line};
ghost use Rattle.chess_notation.specs.Words.{is_blank};

use byte_streams::NoMemory;
use chess_moves::Rays;
use mate_search::Memo;
use std::alloc::Global;

/// The reply to a line: its text, how many lines it refuses, and what else is counted of it, where anything is.
#[derive(Drop)]
pub struct Reply<M: Drop> {
    pub text: Vec<u8>,
    pub refused: usize,
    pub mark: Option<M>,
}

/// What is asked of lines. It goes with each line to the thread that answers it, and comes back with the reply.
pub trait LineTask: Drop + Send + 'static {
    /// What is counted of a reply beside refusals.
    type Mark: Drop + Send + 'static;

    /// What is counted of all of them.
    type Tally: Drop;

    /// What a line is answered: its number in the input, from 1, the line without its CR, the text, and how many refusals that is.
    ghost replies: { Self → ℕ → List ℕ → List ℕ → ℕ → Type 0 };

    /// That a line waits for an answer: by what it says there is one.
    ghost waits: { Self → List ℕ → Type 0 };

    /// What may be counted of a line, without its CR, where anything is.
    ghost marks: { Self → List ℕ → Option Self.Mark → Type 0 } = { λ _ _ _. Unit {0} };

    /// What is counted is known to be of these lines, each without its CR.
    ghost knows: { Self → Self.Tally → List (List ℕ) → Type 0 } = { λ _ _ _. Unit {0} };

    /// The same task once more.
    fn copy(&self, alloc: Global) -> Result<Self, NoMemory>;

    /// Whether the other is the same, so that what it is answered is answered to this one, and counted as this one's.
    fn is(&self, other: &Self) -> bool
        ensures replies { result ≡ true → (number : ℕ) (line text : List ℕ) (refusals : ℕ)
            → replies other.now number line text refusals → replies self.now number line text refusals }
        ensures marks { result ≡ true → (line : List ℕ) (mark : Option Self.Mark) → marks other.now line mark → marks self.now line mark };

    /// The reply to a line that isn't blank, where it is known without a search, or nothing where it waits for an answer. Only a growth that
    /// is refused is an error.
    fn look(
        &self,
        alloc: Global,
        rays: &Rays,
        number: usize,
        line: &[u8],
    ) -> Result<Option<Reply<Self::Mark>>, NoMemory>
        ensures reply { IfOk result (λ known. IfSome known
            (λ reply. is_blank line.now ≡ false → replies self.now number line.now reply.text.items reply.refused)) }
        ensures mark { IfOk result (λ known. IfSome known (λ reply. is_blank line.now ≡ false → marks self.now line.now reply.mark)) }
        ensures waits { IfOk result (λ known. IfNone known (waits self.now line.now)) };

    /// The reply to a line that is longer than a record may be, whatever stands in it.
    fn refuse_long(
        &self,
        alloc: Global,
        rays: &Rays,
        number: usize,
    ) -> Result<Reply<Self::Mark>, NoMemory>
        ensures reply { IfOk result (λ reply. (line : List ℕ) → is_blank line ≡ false → max_line < length line
            → replies self.now number line reply.text.items reply.refused) }
        ensures mark { IfOk result (λ reply. (line : List ℕ) → is_blank line ≡ false → max_line < length line
            → marks self.now line reply.mark) };

    /// The reply to a line that is neither blank nor longer than a record may be, over a memo. Only a growth that is refused is an error.
    fn answer(
        &self,
        alloc: Global,
        rays: &Rays,
        number: usize,
        line: &[u8],
        memo: &mut Memo,
    ) -> Result<Reply<Self::Mark>, NoMemory>
        requires filled { is_blank line.now ≡ false }
        requires short { length line.now ≤ max_line }
        ensures reply { IfOk result (λ reply. replies self.now number line.now reply.text.items reply.refused) }
        ensures mark { IfOk result (λ reply. marks self.now line.now reply.mark) };

    /// Counts what one reply more is. Only a count that has no room is an error.
    fn count(&self, tally: &mut Self::Tally, mark: &Self::Mark) -> Result<(), NoMemory>
        ensures { OnOk result ((before : List (List ℕ)) (line : List ℕ) → ∥ marks self.now line (Some mark.now) ∥₁
            → knows self.now tally.old before → knows self.now tally.new (before ++ line ∷ [])) };

    /// A blank line is answered with nothing.
    ghost skips: { (task : Self) (number : ℕ) (line : List ℕ) → is_blank line ≡ true → replies task number line [] 0 };

    /// Nothing is counted of it.
    ghost unmarked: { (task : Self) (line : List ℕ) → is_blank line ≡ true → marks task line None };

    /// A line of which nothing is counted changes nothing of what is known.
    ghost passes: { (task : Self) (tally : Self.Tally) (before : List (List ℕ)) (line : List ℕ) → ∥ marks task line None ∥₁
        → knows task tally before → knows task tally (before ++ line ∷ []) };

    /// A line that waits is answered as somebody has answered it. It does nothing: its contract is the law.
    fn joins(&self)
        ensures { (number : ℕ) (line text : List ℕ) (refusals : ℕ) → is_blank line ≡ false → waits self.now line
            → ∥ replies self.now number line text refusals ∥₁ → replies self.now number line text refusals };
}
