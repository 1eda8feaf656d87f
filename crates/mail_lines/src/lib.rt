//! Lines that a problem takes on, as mails and lists have them, read as one.
//!
//! Lines are taken and answered as `text_lines` says; what they say is the business of a `LineHandler`. To read: `specs/Mails.antt`, over
//! `placements`, `labels` and `mails`, which look at one line; then `open_mails`, what there is of a problem whose last line has not come, and
//! `mail_replies`, over `line_replies`.
#![tactic(auto)]

mod labels;
mod line_replies;
mod mail_replies;
mod mails;
mod open_mails;
mod placements;

pub use mail_replies::{answer_mails, answer_mails_input};
