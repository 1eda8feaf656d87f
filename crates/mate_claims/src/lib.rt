//! Records held against their own claims: whether a mate is as long as a record says, by the keys that it says.
//!
//! What a record says, and claims in `bm`, is `chess_notation`'s business, solving is `mate_search`'s, and lines are `text_lines`'s. To read:
//! `specs/ClaimVerdicts.antt` and `claim_verdicts`, `specs/BoundSources.antt` and `bound_sources`, `claimed_records`, `specs/Rows.antt` and
//! `rows`, `counts`, and `hints`, what is told beside them, then `play_words`, what the line of play claims; `specs/Said.antt` and `said`, what comes of claims;
//! `specs/ClaimReplies.antt`, `claim_replies` and `claim_rows`; `specs/LimitedClaims.antt` and `limited_claims`, where each record may take so
//! long; and `specs/CountedLines.antt`, what is counted of an input's lines.
#![tactic(auto)]

mod bound_sources;
mod claim_replies;
mod claim_rows;
mod claim_verdicts;
mod claimed_records;
mod counts;
mod hints;
mod limited_claims;
mod play_words;
mod rows;
mod said;

pub use bound_sources::BoundSource;
pub use claim_replies::{Told, told_of};
pub use claim_rows::{ClaimMemory, ClaimRows, refusals};
pub use claim_verdicts::{ClaimVerdict, judge};
pub use counts::Counts;
pub use hints::Hints;
pub use limited_claims::{LimitedClaimMemory, LimitedClaims};
pub use rows::refused_row;
