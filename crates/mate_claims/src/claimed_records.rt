//! A record as its line claims it.

use crate::bound_sources::BoundSource;
use chess_notation::Record;

/// A record as its line claims it: the place of the line, the line, the record that it says, where its bound comes from, and the words that
/// stand behind `bm`.
#[derive(Clone, Copy)]
pub(crate) struct ClaimedRecord<'a> {
    pub(crate) place: &'a [u8],
    pub(crate) line: &'a [u8],
    pub(crate) record: &'a Record,
    pub(crate) source: BoundSource,
    pub(crate) words: &'a [u8],
}
