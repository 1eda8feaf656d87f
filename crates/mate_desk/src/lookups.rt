//! Where in the queues of a desk something stands. A desk has 16 queues at most, and in each the place is found at once.

ghost use Rattle.std.specs.Prelude.{◌≡◌, ◌<◌, false, flat_map, length, slice_get, Some, None, IfNone, IfSome};
ghost use Rattle.std.specs.List.{list_any};
ghost use Rattle.mate_desk.specs.Content.{QueueValue, lowest, is_out_with};
ghost use Rattle.mate_desk.specs.inside.Keeping.{is_lower as is_lower_ticket, IsOutIn};

use crate::queues::Queue;
use chess_problems::Problem;
use mate_jobs::Ticket;

/// The submitter and the place of the record that is out with a job of that ticket and problem.
pub(crate) fn place_out(
    queues: &[Queue],
    ticket: Ticket,
    problem: &Problem,
) -> Option<(usize, usize)>
    ensures none { IfNone result (list_any (is_out_with (record { ticket = ticket; problem = problem.now }))
        (flat_map (λ q. q.pending) queues.now) ≡ false) }
    ensures some { IfSome result (λ at. IsOutIn (record { ticket = ticket; problem = problem.now }) at.0 at.1 queues.now) }
{
    for (s, queue) in queues.iter().enumerate() {
        if let Some(place) = queue.place_out(ticket, problem) {
            return Some((s, place));
        }
    }
    None
}

/// The submitter of the record that waits under the lowest ticket.
pub(crate) fn first_waiting(queues: &[Queue]) -> Option<usize>
    ensures none { IfNone result (lowest (flat_map (λ q. q.pending) queues.now) ≡ None) }
    ensures inside { IfSome result (λ s. s < length queues.now) }
    ensures lowest { IfSome result (λ s. (q : QueueValue) → slice_get queues.now s ≡ Some q
        → lowest q.pending ≡ lowest (flat_map (λ q. q.pending) queues.now)) }
{
    let mut first = 0;
    let mut least: Option<u64> = None;
    for s in 0..queues.len() {
        let ticket = queues[s].lowest();
        if is_lower(ticket, least) {
            first = s;
            least = ticket;
        }
    }
    match least {
        Some(_) => Some(first),
        None => None,
    }
}

/// Whether the first of two tickets is there, and is the lower one or the only one.
fn is_lower(ticket: Option<u64>, other: Option<u64>) -> bool
    ensures { result ≡ is_lower_ticket ticket other }
{
    match (ticket, other) {
        (Some(ticket), Some(other)) => ticket < other,
        (Some(_), None) => true,
        (None, _) => false,
    }
}
