//! Calls that take memory, each with growths refused in it: `refused-growths CALL`.
//!
//! Everything around the call has ample memory: the call stands between two marks, and `tests/refused_growths` runs this under
//! `tests/refuse.c`, which knows them. The first line that is answered is what the call answered. The lines behind it say what was found
//! afterwards, and are the same whatever was refused.
//!
//! To read: `marks`; then the calls, by the crate that they are of: `of_notation`, `of_search`, `of_inputs`, `of_desk`, `of_room` and `of_ends`.

mod marks;
mod of_desk;
mod of_ends;
mod of_inputs;
mod of_notation;
mod of_room;
mod of_search;

use crate::refused_growths::marks::Stop;
use chess_moves::Rays;
use std::alloc::Global;
use std::sync::Wait;
use std::thread::Threads;

/// What the call of this name answered, and what was found afterwards.
fn tell<R: Threads + Wait + Sync>(
    rt: &R,
    alloc: Global,
    rays: &Rays,
    name: &str,
) -> Result<String, Stop> {
    match name {
        "read_record" => of_notation::tell_read_record(alloc, rays),
        "Memo::new" => of_search::tell_new_memo(alloc),
        "Memo::large" => of_search::tell_large_memo(alloc),
        "solve" => of_search::tell_solve(alloc, rays),
        "OnThreads::solve" => of_search::tell_on_threads(rt, alloc, rays),
        "Job::solve" => of_search::tell_job(alloc, rays),
        "Answer::text" => of_search::tell_answer(alloc, rays),
        "answer_text" => of_search::tell_answer_text(alloc, rays),
        "answer_input" => of_inputs::tell_answer_input(alloc, rays),
        "solve_input" => of_inputs::tell_solve_input(alloc, rays),
        "fault_text" => of_inputs::tell_fault_text(alloc),
        "Desk::new" => of_desk::tell_new_desk(alloc, rays),
        "run" => of_desk::tell_run(alloc, rays),
        "reply_text" => of_desk::tell_reply_text(alloc, rays),
        "open_room" => of_room::tell_open_room(alloc),
        "serve" => of_room::tell_serve(rt, alloc, rays),
        "Window::submit" => of_ends::tell_submit(alloc, rays),
        "Keeper::turn" => of_ends::tell_turn(alloc, rays),
        "Keeper::send_home" => of_ends::tell_send_home(alloc),
        _ => Err(Stop("no such call")),
    }
}

/// What the call that the word names answered.
pub(crate) fn answer<R: Threads + Wait + Sync>(
    rt: &R,
    alloc: Global,
    words: &[String],
) -> Result<String, &'static str> {
    let [name] = words else {
        return Err("no call");
    };
    match tell(rt, alloc, &Rays::new(), name.as_str()) {
        Ok(told) => Ok(told),
        Err(Stop(name)) => Err(name),
    }
}
