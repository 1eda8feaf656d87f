//! What a line that was printed says of a problem.

use chess_notation::first_segment;

/// How many moves a mate may take, and none.
pub(crate) const MOVES: usize = 16;

/// What a line of a reply says.
#[derive(Clone, Copy, PartialEq, Eq)]
pub(crate) enum Said {
    /// A mate in so many moves.
    Mate(u8),
    /// That there is none within the bound.
    NoMate,
    /// That none was found in time.
    Undecided,
    /// The fault of a line that is no record.
    Refused,
    /// A row of `verify`, or a tree.
    Row,
    /// It goes on a reply.
    Nothing,
}

/// What follows the four fields of a position.
fn behind_fields(line: &[u8]) -> Option<&[u8]> {
    let mut fields_left: u8 = 4;
    for (index, byte) in line.iter().enumerate() {
        if *byte == b' ' {
            fields_left = fields_left.saturating_sub(1);
            if fields_left == 0 {
                let (_, rest) = line.split_at(index);
                return Some(rest);
            }
        }
    }
    None
}

/// A number of one or two digits.
fn number_in(digits: &[u8]) -> u8 {
    let mut number: u8 = 0;
    for digit in digits {
        number = number
            .wrapping_mul(10)
            .wrapping_add(digit.wrapping_sub(b'0'));
    }
    number
}

/// What is said where there is no mate within so many moves: that this is the bound, or how long it took behind a comma.
fn said_of_none(moves: &[u8]) -> Said {
    if moves.contains(&b',') {
        Said::Undecided
    } else {
        Said::NoMate
    }
}

/// What an operation says, with the space before it.
fn said_in(operation: &[u8]) -> Said {
    if let Some(digits) = operation.strip_prefix(b" dm ".as_slice()) {
        Said::Mate(number_in(digits))
    } else if operation.starts_with(b" c0 \"not decided within ") {
        Said::Undecided
    } else if let Some(moves) = operation.strip_prefix(b" c0 \"no mate in ".as_slice()) {
        said_of_none(moves)
    } else {
        Said::Nothing
    }
}

/// What operations say: that nothing was found in time, or the number of moves where there is one, whatever another comment says.
fn said_by_operations(operations: &[u8]) -> Said {
    let mut rest = operations;
    let mut said = Said::Nothing;
    for _ in 0..operations.len() {
        let Some((operation, more)) = first_segment(rest) else {
            return said;
        };
        match said_in(operation) {
            Said::Mate(moves) => return Said::Mate(moves),
            Said::Undecided => return Said::Undecided,
            Said::Nothing => {}
            comment => said = comment,
        }
        rest = more;
    }
    said
}

/// What follows the first place of a text in a line, if it stands there.
fn behind<'t>(line: &'t [u8], text: &[u8]) -> Option<&'t [u8]> {
    for index in 0..line.len() {
        let (_, rest) = line.split_at(index);
        if let Some(more) = rest.strip_prefix(text) {
            return Some(more);
        }
    }
    None
}

/// What is said in the comment of an object in JSON: that none was found in time, or else that there is none.
fn said_by_comment(comment: &[u8]) -> Said {
    if comment.starts_with(b"not decided within ") {
        return Said::Undecided;
    }
    match comment.strip_prefix(b"no mate in ".as_slice()) {
        Some([_, b',', ..]) => Said::Undecided,
        Some([_, second, b',', ..]) if second.is_ascii_digit() => Said::Undecided,
        _ => Said::NoMate,
    }
}

/// What an object in JSON says. In its strings a quotation mark stands behind a stroke, so these are its own members.
fn said_by_object(line: &[u8]) -> Said {
    if behind(line, b",\"error\":\"").is_some() {
        return Said::Refused;
    }
    if behind(line, b",\"verdict\":\"").is_some() || behind(line, b"},\"tree\":[").is_some() {
        return Said::Row;
    }
    match behind(line, b",\"dm\":") {
        Some([first, second, ..]) if second.is_ascii_digit() => Said::Mate(number_in(&[
            *first, *second,
        ])),
        Some([first, ..]) if first.is_ascii_digit() => Said::Mate(number_in(&[*first])),
        _ => match behind(line, b"\"c0\":[\"") {
            Some(comment) => said_by_comment(comment),
            None => Said::NoMate,
        },
    }
}

/// What a line says.
pub(crate) fn said_by(line: &[u8]) -> Said {
    if line.starts_with(b"# line ") {
        return Said::Refused;
    }
    if line.starts_with(b"{") {
        return said_by_object(line);
    }
    if line.contains(&b'\t') {
        return Said::Row;
    }
    match behind_fields(line) {
        Some(operations) => said_by_operations(operations),
        None => Said::Nothing,
    }
}
