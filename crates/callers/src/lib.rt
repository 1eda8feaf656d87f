//! The callers that docs/CALLING.md names, to be proved with all other crates: a file for each crate that is called, lowest first.
//! `tests/callers` holds the page and the files to one another.
#![tactic(auto)]

pub mod for_byte_streams;
pub mod for_chess_board;
pub mod for_chess_moves;
pub mod for_chess_notation;
pub mod for_chess_problems;
pub mod for_chess_views;
pub mod for_desk_room;
pub mod for_import_claims;
pub mod for_json_replies;
pub mod for_lettered_placements;
pub mod for_mail_lines;
pub mod for_mate_answers;
pub mod for_mate_claims;
pub mod for_mate_desk;
pub mod for_mate_jobs;
pub mod for_mate_search;
pub mod for_mate_tree;
pub mod for_move_words;
pub mod for_parallel_answers;
pub mod for_parallel_search;
pub mod for_plain_commands;
pub mod for_position_lines;
pub mod for_problem_import;
pub mod for_problem_sheets;
pub mod for_record_tasks;
pub mod for_room_ends;
pub mod for_square_sets;
pub mod for_stipulations;
pub mod for_text_lines;
pub mod for_uci_commands;
