//! Gates: whether a bench solves the job that it took, or hands it back.

ghost use Rattle.std.specs.Prelude.{◌≡◌, ℕ, Bool, true};

use mate_jobs::Ticket;

/// Is asked by a bench, counted from 0, that has taken a job: true to solve it, false to hand it back.
pub trait Gate: Sync {
    /// What it may answer to a bench about a ticket.
    ghost answers: { Self → ℕ → ℕ → Bool → Type 0 };

    fn pass(&self, bench: usize, ticket: Ticket) -> bool
        ensures { answers self.now bench ticket result };
}

/// The gate that lets each job pass.
#[derive(Clone, Copy, Default)]
pub struct OpenGate;

impl Gate for OpenGate {
    ghost use Rattle.std.specs.Prelude.{◌≡◌, true};

    ghost answers = { λ _ _ _ passed. passed ≡ true };

    fn pass(&self, _bench: usize, _ticket: Ticket) -> bool {
        true
    }
}
