//! What the readings of a history say. Each function here does nothing: its contract is the law.

ghost use Rattle.mate_desk.specs.HistoryLaws.{AcceptedReads, DeliveredReads, WithdrawnReads, ClosedReads, CountReads, PhaseReads, HandReads};

/// The k-th accepted record of a submitter is that of its k-th step to hand one in whose reply is a ticket.
pub fn accepted_reads()
    ensures { AcceptedReads }
{}

/// The k-th thing that a submitter got is what its k-th step to collect with an answer or a notice for its reply gave.
pub fn delivered_reads()
    ensures { DeliveredReads }
{}

/// A record was withdrawn exactly where a step to withdraw it was answered so.
pub fn withdrawn_reads()
    ensures { WithdrawnReads }
{}

/// A desk was closed exactly where a step closed it.
pub fn closed_reads()
    ensures { ClosedReads }
{}

/// So many records were accepted as replies are tickets.
pub fn count_reads()
    ensures { CountReads }
{}

/// What phase a ticket is in is told by the last reply that says so of it.
pub fn phase_reads()
    ensures { PhaseReads }
{}

/// A job is in hand exactly where it was taken, and since then neither finished nor handed back.
pub fn hand_reads()
    ensures { HandReads }
{}
