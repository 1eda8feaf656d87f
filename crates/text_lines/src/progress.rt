//! Who is told how far the answering of lines is.

/// Is told of files and of their lines while these are answered. No answer depends on it.
pub trait Progress {
    /// The file of this name, which was opened before, is answered next.
    fn turns_to(&self, _name: &str) {}

    /// The file of this name, one of several, is answered next.
    fn goes_on_with(&self, _name: &str) {}

    /// The line of this number is begun, of the file that was opened or turned to last.
    fn begins(&self, _number: usize) {}

    /// Whether it wants to be told which length is searched.
    fn follows_lengths(&self) -> bool {
        false
    }

    /// Mate in so many moves is searched, of the line that was begun last.
    fn searches(&self, _moves: u8) {}

    /// These are the replies to lines, from one that was begun on, which are written.
    fn ends(&self, _replies: &[u8]) {}

    /// The reply to a line that was begun is written, and refuses so many lines.
    fn wrote(&self, _refused: usize) {}
}

/// Nobody is told.
impl Progress for () {}
