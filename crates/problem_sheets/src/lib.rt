//! Pages of diagrams: problems to be looked at, printed and handed out.
//!
//! What a record says is `chess_notation`'s business, solving is `mate_search`'s, and how a solution reads `mate_tree`'s. Each definition
//! stands in the file of `specs/` with the same name. To read: `escaping` (what a record says is text, whatever it holds), `diagrams` over
//! `shapes`, `problems` and `solutions`; `contents`, what files hold; then `pages` over `page_parts`. `laws` says of the definitions what
//! they are meant to say. A text is made whole before any of it is given.
#![tactic(auto)]

mod contents;
mod diagrams;
mod escaping;
mod laws;
mod page_parts;
mod pages;
mod problems;
mod shapes;
mod solutions;

pub use contents::{Contents, add_files};
pub use diagrams::svg_text;
pub use laws::{each_referred, letters_apart, no_markup};
pub use pages::{Form, page_text};
