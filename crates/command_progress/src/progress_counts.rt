//! How far a command is: what the thread that answers leaves for the one that tells of it.

use crate::said::{MOVES, Said};
use std::alloc::{AllocError, Global};
use std::sync::atomic::{AtomicU64, Ordering};

/// How many ticks a second has.
pub(crate) const TICKS_A_SECOND: u64 = 10;

/// How many bytes of a file's name are told.
pub(crate) const MOST_OF_NAME: usize = 30;

/// The file that is answered, the line of it, and what came of the lines before. Each number is written by one thread alone.
#[derive(Drop)]
pub struct ProgressCounts {
    /// The words of the command line, among which the files are named.
    words: Vec<String>,
    /// Which of them names the file that was opened last, and 0 before the first.
    file: AtomicU64,
    /// How many bytes that file has, and 0 where that isn't known.
    size: AtomicU64,
    /// How many of them were read.
    read: AtomicU64,
    /// The line that was begun last, and at which tick.
    line: AtomicU64,
    began: AtomicU64,
    /// In how many moves mate is searched there, and 0 where that isn't known.
    moves: AtomicU64,
    /// How many replies there were.
    replies: AtomicU64,
    refused: AtomicU64,
    no_mate: AtomicU64,
    undecided: AtomicU64,
    /// How many mates there were, by the number of moves.
    mates: Vec<AtomicU64>,
    /// How many ticks there were, and whether the thread that counts them is to end.
    pub(crate) ticks: AtomicU64,
    pub(crate) has_ended: AtomicU64,
}

/// Adds one to a number.
fn add_one(number: &AtomicU64) {
    number.fetch_add(1, Ordering::SeqCst);
}

/// The number that a thread left.
fn now(number: &AtomicU64) -> u64 {
    number.load(Ordering::SeqCst)
}

/// Adds how often it was said, unless it never was.
fn push_count(alloc: Global, text: &mut String, count: u64, said: &str) -> Result<(), AllocError> {
    if count > 0 {
        text.push_str(format!(in alloc; ", {count} {said}")?.as_str())?;
    }
    Ok(())
}

/// The end of a file's name, in so many bytes at most.
fn end_of_name(name: &str, most: usize) -> &str {
    let first = name.len().saturating_sub(most);
    for at in first..name.len() {
        if let Some(end) = name.get(at..) {
            return end;
        }
    }
    name
}

impl ProgressCounts {
    /// That of words of which nothing is answered yet.
    pub(crate) fn new(alloc: Global, words: &[String]) -> Result<ProgressCounts, AllocError> {
        let mut own = Vec::new(alloc);
        for word in words {
            own.push(String::from_str(alloc, word.as_str())?)?;
        }
        let mut mates = Vec::new(alloc);
        for _ in 0..MOVES {
            mates.push(AtomicU64::new(0))?;
        }
        Ok(ProgressCounts {
            words: own,
            file: AtomicU64::new(0),
            size: AtomicU64::new(0),
            read: AtomicU64::new(0),
            line: AtomicU64::new(0),
            began: AtomicU64::new(0),
            moves: AtomicU64::new(0),
            replies: AtomicU64::new(0),
            refused: AtomicU64::new(0),
            no_mate: AtomicU64::new(0),
            undecided: AtomicU64::new(0),
            mates,
            ticks: AtomicU64::new(0),
            has_ended: AtomicU64::new(0),
        })
    }

    /// The file of this name was opened, and has so many bytes, if that is known.
    pub(crate) fn open(&self, name: &str, size: Option<u64>) {
        for (index, word) in self.words.iter().enumerate() {
            if word.as_str() == name {
                self.file.store(index as u64, Ordering::SeqCst);
            }
        }
        self.size.store(size.unwrap_or(0), Ordering::SeqCst);
        self.read.store(0, Ordering::SeqCst);
        self.line.store(0, Ordering::SeqCst);
    }

    /// So many bytes more were read.
    pub(crate) fn read(&self, count: usize) {
        self.read.fetch_add(count as u64, Ordering::SeqCst);
    }

    /// The line of this number was begun.
    pub(crate) fn begin(&self, number: usize) {
        self.search(0);
        self.began.store(now(&self.ticks), Ordering::SeqCst);
        self.line.store(number as u64, Ordering::SeqCst);
    }

    /// Mate in so many moves is searched, or for 0 none.
    pub(crate) fn search(&self, moves: u8) {
        self.moves.store(moves as u64, Ordering::SeqCst);
    }

    /// A line was printed that says this.
    pub(crate) fn count(&self, said: Said) {
        match said {
            Said::Nothing => return,
            Said::Mate(moves) => {
                if let Some(mates) = self.mates.get(moves as usize) {
                    add_one(mates);
                }
            }
            Said::NoMate => add_one(&self.no_mate),
            Said::Undecided => add_one(&self.undecided),
            Said::Refused => add_one(&self.refused),
            Said::Row => {}
        }
        add_one(&self.replies);
    }

    /// How long a number of ticks is, in seconds.
    fn seconds_since(&self, tick: u64) -> u64 {
        now(&self.ticks).saturating_sub(tick) / TICKS_A_SECOND
    }

    /// What came of the lines until now.
    fn push_counts(&self, alloc: Global, text: &mut String) -> Result<(), AllocError> {
        let replies = now(&self.replies);
        text.push_str(format!(in alloc; ", {replies} answered")?.as_str())?;
        push_count(alloc, text, now(&self.refused), "refused")
    }

    /// Which length is searched, where it is known.
    fn push_length(&self, alloc: Global, text: &mut String) -> Result<(), AllocError> {
        let moves = now(&self.moves);
        if moves > 0 {
            text.push_str(format!(in alloc; ", at #{moves}")?.as_str())?;
        }
        Ok(())
    }

    /// The file that was opened last, by the end of its name, in so many bytes at most.
    fn name(&self, most: usize) -> &str {
        match self.words.get(now(&self.file) as usize) {
            Some(name) => end_of_name(name.as_str(), most),
            None => "-",
        }
    }

    /// How much of the file was read, where it is known how long that is.
    fn push_part(&self, alloc: Global, text: &mut String) -> Result<(), AllocError> {
        let size = now(&self.size);
        if size > 0 {
            let part = now(&self.read).saturating_mul(100) / size;
            text.push_str(format!(in alloc; ", {part} % read")?.as_str())?;
        }
        Ok(())
    }

    /// How far a file is at this line.
    fn told_of_line(&self, alloc: Global, name: &str, line: u64) -> Result<String, AllocError> {
        let seconds = self.seconds_since(now(&self.began));
        let mut text = format!(in alloc; "{name}: line {line} for {seconds} s")?;
        self.push_length(alloc, &mut text)?;
        self.push_counts(alloc, &mut text)?;
        self.push_part(alloc, &mut text)?;
        Ok(text)
    }

    /// How far all is, on one line, with so many bytes of the file's name; nothing before a line is begun.
    pub(crate) fn told(&self, alloc: Global, most: usize) -> Result<String, AllocError> {
        let name = self.name(most);
        let line = now(&self.line);
        if line == 0 {
            Ok(String::new(alloc))
        } else {
            self.told_of_line(alloc, name, line)
        }
    }

    /// How many mates there were, by the number of moves.
    fn push_mates(&self, alloc: Global, text: &mut String) -> Result<(), AllocError> {
        for (moves, mates) in self.mates.iter().enumerate() {
            let count = now(mates);
            if count > 0 {
                text.push_str(format!(in alloc; ", {count} mate in {moves}")?.as_str())?;
            }
        }
        Ok(())
    }

    /// At which line it stopped.
    fn push_stop(&self, alloc: Global, text: &mut String) -> Result<(), AllocError> {
        let line = now(&self.line);
        if line > 0 {
            let name = self.name(MOST_OF_NAME);
            text.push_str(format!(in alloc; "; stopped at {name}: line {line}")?.as_str())?;
        }
        Ok(())
    }

    /// What was said how often, and where it stopped before its end.
    fn push_results(
        &self,
        alloc: Global,
        text: &mut String,
        stopped: bool,
    ) -> Result<(), AllocError> {
        self.push_mates(alloc, text)?;
        push_count(alloc, text, now(&self.no_mate), "no mate")?;
        push_count(alloc, text, now(&self.undecided), "not decided")?;
        push_count(alloc, text, now(&self.refused), "refused")?;
        if stopped {
            self.push_stop(alloc, text)
        } else {
            Ok(())
        }
    }

    /// What came of it all: how long it took, what was said how often, and where it stopped before its end.
    pub(crate) fn summary(&self, alloc: Global, stopped: bool) -> Result<String, AllocError> {
        let replies = now(&self.replies);
        let ticks = now(&self.ticks);
        let seconds = ticks / TICKS_A_SECOND;
        let tenths = ticks % TICKS_A_SECOND;
        let mut text = format!(in alloc; "{replies} answered in {seconds}.{tenths} s")?;
        self.push_results(alloc, &mut text, stopped)?;
        Ok(text)
    }
}
