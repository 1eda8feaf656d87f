//! Scripts: texts that open a desk and say, line by line, what is done with it.
//!
//! What a desk answers is the business of `mate_desk`, and how lines are cut that of `text_lines`. To read: `specs/Scripts.antt`, which says
//! what a script is and which line is at fault in what is none; then `scripts` (a text to a script), over `script_lines` (its lines),
//! `script_desk` and `script_steps` (what a line says), and `script_words`.
#![tactic(auto)]

mod script_desk;
mod script_lines;
mod script_steps;
mod script_words;
mod scripts;

pub use scripts::{Script, ScriptFault, read_script};
