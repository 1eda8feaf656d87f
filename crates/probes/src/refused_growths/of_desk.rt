//! Calls of `mate_desk`.

use crate::refused_growths::marks::{Stop, and_afterwards, default, mark};
use chess_moves::Rays;
use chess_notation::read_record;
use mate_desk::{Desk, Reply, RunFault, Step, reply_text, run};
use mate_search::Memo;
use std::alloc::Global;

/// A mate in one, of which an operation is kept, and a mate in two.
const A: &[u8] = b"6k1/5ppp/8/8/8/8/8/R3K3 w Q - dm 1; id \"a\";";

const B: &[u8] = b"7k/8/5K2/8/8/8/8/R7 w - - dm 2;";

/// Where there is a desk, it takes a record.
pub(crate) fn tell_new_desk(alloc: Global, rays: &Rays) -> Result<String, Stop> {
    mark(alloc);
    let desk = Desk::new(alloc, 2, 3, 5);
    mark(alloc);
    match desk {
        Ok(desk) => take_record(alloc, rays, desk),
        Err(fault) => Ok(format!(in alloc; "{}", fault.code())?),
    }
}

fn take_record(alloc: Global, rays: &Rays, mut desk: Desk) -> Result<String, Stop> {
    let default = default().ok_or("bound")?;
    let submitted = match read_record(alloc, rays, B, default) {
        Ok(record) => desk.submit(1, record),
        Err(fault) => return Err(Stop(fault.code())),
    };
    match submitted {
        Ok(ticket) => Ok(format!(in alloc; "ticket {}", ticket.0)?),
        Err((refusal, _)) => Err(Stop(refusal.code())),
    }
}

fn line_of(alloc: Global, line: &[u8]) -> Result<Vec<u8>, Stop> {
    let mut copy = Vec::new(alloc);
    copy.extend_from_slice(line)?;
    Ok(copy)
}

fn steps(alloc: Global) -> Result<Vec<Step>, Stop> {
    let mut steps = Vec::new(alloc);
    for step in [
        Step::Submit(0, line_of(alloc, A)?),
        Step::Submit(0, line_of(alloc, B)?),
        Step::Take,
        Step::Take,
        Step::Finish(1),
        Step::Collect(0),
        Step::Finish(0),
        Step::Collect(0),
        Step::Collect(0),
        Step::Collect(0),
        Step::Drained,
    ] {
        steps.push(step).ok().ok_or("NoMemory")?;
    }
    Ok(steps)
}

fn memo_of(alloc: Global) -> Result<Memo, Stop> {
    match Memo::new(alloc, 64) {
        Ok(memo) => Ok(memo),
        Err(fault) => Err(Stop(fault.code())),
    }
}

/// The texts of replies in one line.
fn texts(alloc: Global, rays: &Rays, replies: &[Reply]) -> Result<String, Stop> {
    let mut texts = String::new(alloc);
    for reply in replies {
        let text = reply_text(alloc, rays, reply).ok().ok_or("NoMemory")?;
        texts = format!(in alloc; "{texts}|{text}")?;
    }
    Ok(texts)
}

/// What came of steps.
fn told(alloc: Global, rays: &Rays, replies: Result<Vec<Reply>, RunFault>) -> Result<String, Stop> {
    match replies {
        Ok(replies) => texts(alloc, rays, replies.as_slice()),
        Err(fault) => Ok(format!(in alloc; "{}", fault.code())?),
    }
}

/// Afterwards: the replies to the same steps by the same memo.
pub(crate) fn tell_run(alloc: Global, rays: &Rays) -> Result<String, Stop> {
    let default = default().ok_or("bound")?;
    let steps = steps(alloc)?;
    let mut memo = memo_of(alloc)?;
    mark(alloc);
    let replies = run(alloc, rays, 1, 2, default, steps.as_slice(), &mut memo);
    mark(alloc);
    let again = run(alloc, rays, 1, 2, default, steps.as_slice(), &mut memo);
    and_afterwards(alloc, told(alloc, rays, replies), told(alloc, rays, again))
}

/// The texts of replies between marks, or want of memory for one of them. Afterwards: all texts.
pub(crate) fn tell_reply_text(alloc: Global, rays: &Rays) -> Result<String, Stop> {
    let steps = steps(alloc)?;
    let mut memo = memo_of(alloc)?;
    let Ok(replies) = run(
        alloc,
        rays,
        1,
        2,
        default().ok_or("bound")?,
        steps.as_slice(),
        &mut memo,
    ) else {
        return Err(Stop("NoMemory"));
    };
    let mut told = String::new(alloc);
    for reply in replies.iter() {
        mark(alloc);
        let text = reply_text(alloc, rays, reply);
        mark(alloc);
        told = match text {
            Ok(text) => format!(in alloc; "{told}|{text}")?,
            Err(refused) => format!(in alloc; "{told}|{refused}")?,
        };
    }
    let all = texts(alloc, rays, replies.as_slice())?;
    Ok(format!(in alloc; "{told}\n{all}")?)
}
