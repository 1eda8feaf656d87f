//! What each fault means: the explanations that `explain` shows.
//!
//! That the table says of each fault what docs/FORMATS.md and docs/COLLECTIONS.md say is tested. To read: `specs/Explained.antt`, which says what
//! is told of the words of replies, and which codes there are; then `explanations`, the table, and `explaining`, which looks words up there and
//! makes the text. `laws` says what a refusal means.
#![tactic(auto)]

mod explaining;
mod explanations;
mod laws;

pub use explaining::{explained_text, push_code};
pub use explanations::{Example, Explanation};
pub use laws::no_code_refused;
