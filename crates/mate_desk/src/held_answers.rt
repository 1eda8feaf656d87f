//! Answers that stand outside the replies that hold them, and the places that are taken for them beforehand.

ghost use Rattle.std.specs.Prelude.{◌≡◌, ◌<◌, ◌+◌, IfOk, vec_len, vec_capacity};

use mate_jobs::Answer;
use std::alloc::{AllocError, Global};
use std::marker::Model;

/// An answer that stands outside the reply that holds it: its fixed room is more than a hundred times that of any other reply.
/// Contracts see the answer alone.
#[derive(Drop)]
pub struct HeldAnswer {
    place: Vec<Answer>,
}

impl Model for HeldAnswer {
    ghost use Rattle.std.specs.Prelude.{◌≡◌, length};
    ghost use Rattle.mate_jobs.specs.Jobs.{AnswerValue};
    ghost use Rattle.mate_desk.specs.Holding.{the_one};

    ghost Value = { AnswerValue };

    ghost view = { λ h. the_one h.place.items };

    ghost invariant = { λ h. length h.place.items ≡ 1 };
}

impl HeldAnswer {
    /// The answer.
    pub fn answer(&self) -> &Answer
        ensures { result.now ≡ self.now }
    {
        &self.place[0]
    }
}

/// A place for an answer, with its memory, and no answer there yet.
#[derive(Drop)]
pub(crate) struct AnswerPlace {
    room: Vec<Answer>,
    ghost empty: { vec_len room ≡ 0 },
    ghost roomy: { 0 < vec_capacity room },
}

impl AnswerPlace {
    /// A place, where there is memory for one.
    fn new(alloc: Global) -> Result<AnswerPlace, AllocError> {
        Ok(AnswerPlace {
            room: Vec::with_capacity(alloc, 1)?,
        })
    }

    /// Puts an answer there.
    fn hold(self, answer: Answer) -> HeldAnswer
        ensures { result ≡ answer }
    {
        let AnswerPlace { mut room } = self;
        room.push_reserved(answer);
        HeldAnswer { place: room }
    }
}

/// So many places. Only a growth that is refused is an error.
pub(crate) fn new_places(alloc: Global, count: usize) -> Result<Vec<AnswerPlace>, AllocError>
    ensures { IfOk result (λ places. vec_len places ≡ count) }
{
    let mut places = Vec::with_capacity(alloc, count)?;
    for _ in 0..count {
        let place = AnswerPlace::new(alloc)?;
        places.push_reserved(place);
    }
    Ok(places)
}

/// Holds an answer in one of the places.
pub(crate) fn hold(places: &mut Vec<AnswerPlace>, answer: Answer) -> HeldAnswer
    requires { 0 < vec_len places.old }
    ensures held { result ≡ answer }
    ensures left { vec_len places.new + 1 ≡ vec_len places.old }
{
    match places.pop() {
        Some(place) => place.hold(answer),
        None => unreachable!(),
    }
}
