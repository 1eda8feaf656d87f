//! What each fault means: the one table that `explain` tells, in the order of docs/FORMATS.md, and behind it docs/COLLECTIONS.md.

ghost use Rattle.std.specs.Prelude.{◌≡◌};
ghost use Rattle.fault_explanations.specs.Explained.{AreOfKnown, codes_of, field_codes, men_codes, move_codes, line_codes, problem_codes};
ghost use Rattle.fault_explanations.specs.Explained.{verdict_codes, step_codes, size_codes, import_codes};

/// A text that has a fault, and the same mended.
#[derive(Clone, Copy)]
pub struct Example {
    pub faulty: &'static str,
    pub mended: &'static str,
}

/// What there is to say of a fault, or of a verdict.
#[derive(Clone, Copy)]
pub struct Explanation {
    /// The word by which it is named. `explain` takes it in any case, so that no two differ in case alone.
    pub code: &'static str,
    /// Where it comes, as these pages say.
    pub comes: &'static str,
    /// What it means, and what to look at.
    pub means: &'static str,
    /// None where it isn't in what is read.
    pub example: Option<Example>,
}

/// Of the fields of a FEN, each by itself.
static FIELDS: [Explanation; 6] = [
    Explanation {
        code: "FieldCount",
        comes: "cutting at every space doesn't give six parts",
        means: "A FEN has six fields with one space between each two: placement, side to move, castling
rights, en passant target, halfmove clock, fullmove number. A record has the first four
of them, and more than one space is no fault there. In a shell the FEN stands in quotes.",
        example: Some(Example {
            faulty: "4k3/8/8/8/8/8/8/4K3 w - -",
            mended: "4k3/8/8/8/8/8/8/4K3 w - - 0 1",
        }),
    },
    Explanation {
        code: "BadPlacement",
        comes: "the first field is no placement",
        means: "It is eight ranks from the eighth down with `/` between them, each of eight squares from
file a to file h: `PNBRQK` for White, `pnbrqk` for Black, and a digit for so many empty
squares, no two digits side by side.",
        example: Some(Example {
            faulty: "4k3/44/8/8/8/8/8/4K3 w - - 0 1",
            mended: "4k3/8/8/8/8/8/8/4K3 w - - 0 1",
        }),
    },
    Explanation {
        code: "BadSide",
        comes: "the second field is neither `w` nor `b`",
        means: "It says who is to move: `w` for White, `b` for Black, in small letters.",
        example: Some(Example {
            faulty: "4k3/8/8/8/8/8/8/4K3 W - - 0 1",
            mended: "4k3/8/8/8/8/8/8/4K3 w - - 0 1",
        }),
    },
    Explanation {
        code: "BadCastling",
        comes: "the third field is no castling field; an empty one too",
        means: "It has a letter for each right to castle that is left, `K` and `Q` for White, `k` and `q`
for Black, each once; or it is `-` where none is left.",
        example: Some(Example {
            faulty: "4k3/8/8/8/8/8/8/4K2R w KK - 0 1",
            mended: "4k3/8/8/8/8/8/8/4K2R w K - 0 1",
        }),
    },
    Explanation {
        code: "BadTarget",
        comes: "the fourth field is neither `-` nor a square of rank 6 (White to move) or 3 (Black)",
        means: "It is the square that a pawn's double step passed over in the last move. That pawn belongs
to the side that is not to move, so White to move has a target on rank 6.",
        example: Some(Example {
            faulty: "4k3/8/8/8/4P3/8/8/4K3 w - e3 0 1",
            mended: "4k3/8/8/8/4P3/8/8/4K3 b - e3 0 1",
        }),
    },
    Explanation {
        code: "BadCounter",
        comes: "a counter is not one to four digits",
        means: "The fifth field counts the half-moves since the last capture or pawn's move, the sixth the
moves of the game, from 1. Both are plain numbers without a sign.",
        example: Some(Example {
            faulty: "4k3/8/8/8/8/8/8/4K3 w - - 0 +1",
            mended: "4k3/8/8/8/8/8/8/4K3 w - - 0 1",
        }),
    },
];

/// Of the men of a FEN, its castling rights and its target.
static MEN: [Explanation; 6] = [
    Explanation {
        code: "BadKings",
        comes: "a side has not exactly one king",
        means: "White has one `K`, and Black one `k`.",
        example: Some(Example {
            faulty: "8/8/8/8/8/8/8/4K3 w - - 0 1",
            mended: "4k3/8/8/8/8/8/8/4K3 w - - 0 1",
        }),
    },
    Explanation {
        code: "PawnOnEndRank",
        comes: "a pawn stands on rank 1 or 8",
        means: "No pawn stands there: it begins on its second rank, and becomes a piece on its last. The
eighth rank comes first in a FEN; it may have been written upside down.",
        example: Some(Example {
            faulty: "4k2P/8/8/8/8/8/8/4K3 w - - 0 1",
            mended: "4k3/7P/8/8/8/8/8/4K3 w - - 0 1",
        }),
    },
    Explanation {
        code: "TooManyMen",
        comes: "a side has more than 16 men",
        means: "A side begins with 16 men, and never has more. The men of a kind aren't counted: nine
queens are read.",
        example: Some(Example {
            faulty: "4k3/8/8/8/8/P7/PPPPPPPP/RNBQKBNR w - - 0 1",
            mended: "4k3/8/8/8/8/P7/1PPPPPPP/RNBQKBNR w - - 0 1",
        }),
    },
    Explanation {
        code: "RightWithoutMen",
        comes: "a castling right lacks its king on e1 or e8, or its rook in the corner",
        means: "A right to castle is lost for good once its king or its rook has moved, so both stand at
home. Leave out the letter of a right that is gone.",
        example: Some(Example {
            faulty: "4k3/8/8/8/8/8/8/4K3 w K - 0 1",
            mended: "4k3/8/8/8/8/8/8/4K3 w - - 0 1",
        }),
    },
    Explanation {
        code: "TargetWithoutPawn",
        comes: "the enemy pawn isn't just beyond the target, or the target or the pawn's first square isn't empty",
        means: "A target says that a pawn has just made a double step over it. So the pawn stands beyond
it, and both squares behind the pawn are empty.",
        example: Some(Example {
            faulty: "4k3/8/8/8/8/8/8/4K3 w - e6 0 1",
            mended: "4k3/8/8/4p3/8/8/8/4K3 w - e6 0 1",
        }),
    },
    Explanation {
        code: "OpponentInCheck",
        comes: "the king of the side not to move is attacked",
        means: "That king could be taken, which the Laws of Chess don't allow. Mostly the wrong side is to
move: see the second field.",
        example: Some(Example {
            faulty: "4k3/8/8/8/8/8/8/4RK2 w - - 0 1",
            mended: "4k3/8/8/8/8/8/8/4RK2 b - - 0 1",
        }),
    },
];

/// Of a move that is to be made.
static MOVES: [Explanation; 1] = [Explanation {
    code: "NoSuchMove",
    comes: "a word of `play` names no legal move of the position before it",
    means: "The number before it counts the moves from 1. A move is written in SAN, where a capital
letter stands for a piece and none for a pawn, or by its coordinates; and it may not leave
its own king attacked. `matedesk moves FEN` lists all that are legal. `verify` says so of an
operand of `bm` that is a string or names no legal move, and of the first word of `pv` where
that claims. `verify --import` reads moves as magazines have them, too: `1.Bh1!`, `R6g2`.",
    example: Some(Example {
        faulty: "matedesk play \"4k3/8/8/8/8/8/8/R3K3 w Q - 0 1\" O-O",
        mended: "matedesk play \"4k3/8/8/8/8/8/8/R3K3 w Q - 0 1\" O-O-O",
    }),
}];

/// Of a line of records, and how its operations are written.
static LINES: [Explanation; 7] = [
    Explanation {
        code: "TooLong",
        comes: "the line has more than 1,023 bytes",
        means: "A record is one line. Two may have run together, or a comment is long.",
        example: None,
    },
    Explanation {
        code: "NotPrintable",
        comes: "a byte isn't printable ASCII (32 to 126)",
        means: "A tab, or a letter beyond ASCII, as in many a composer's name, can't be read: write a space,
and letters without their marks.",
        example: Some(Example {
            faulty: "7k/8/5K2/8/8/8/8/R7 w - - id \"König\";",
            mended: "7k/8/5K2/8/8/8/8/R7 w - - id \"Konig\";",
        }),
    },
    Explanation {
        code: "Fen",
        comes: "fewer than four words (FieldCount), or F is the first fault of the four fields",
        means: "It stands with a fault of a FEN behind it, as in `Fen BadKings`: see that one. A record
begins with the first four fields of a FEN.",
        example: Some(Example {
            faulty: "7k/8/5K2 w - -",
            mended: "7k/8/5K2/8/8/8/8/R7 w - -",
        }),
    },
    Explanation {
        code: "BadOpcode",
        comes: "a segment, ended or not, has no first word or one that is no opcode",
        means: "What stands before each semicolon is an operation, which begins with its opcode: a letter,
and up to fourteen letters, digits or underscores. A semicolon too many makes an empty one.",
        example: Some(Example {
            faulty: "7k/8/5K2/8/8/8/8/R7 w - - dm 2;;",
            mended: "7k/8/5K2/8/8/8/8/R7 w - - dm 2;",
        }),
    },
    Explanation {
        code: "BadString",
        comes: "a string isn't closed, is longer than 255 bytes, or lacks a space before it, or a space or the segment's end behind it",
        means: "A quotation mark opens a string, and the next one closes it: a string can't have one inside.",
        example: Some(Example {
            faulty: "7k/8/5K2/8/8/8/8/R7 w - - id \"a\"b;",
            mended: "7k/8/5K2/8/8/8/8/R7 w - - id \"a\" b;",
        }),
    },
    Explanation {
        code: "MissingSemicolon",
        comes: "the last segment isn't ended",
        means: "Each operation ends with a semicolon, the last one too.",
        example: Some(Example {
            faulty: "7k/8/5K2/8/8/8/8/R7 w - - dm 2",
            mended: "7k/8/5K2/8/8/8/8/R7 w - - dm 2;",
        }),
    },
    Explanation {
        code: "DoubleOpcode",
        comes: "an opcode stands twice",
        means: "A record has each operation once. More moves to avoid stand behind one `am`.",
        example: Some(Example {
            faulty: "7k/8/5K2/8/8/8/8/R7 w - - dm 2; dm 3;",
            mended: "7k/8/5K2/8/8/8/8/R7 w - - dm 3;",
        }),
    },
];

/// Of what a record asks for, and its memory.
static PROBLEMS: [Explanation; 4] = [
    Explanation {
        code: "BadBound",
        comes: "`dm` hasn't exactly one operand, or it isn't one of digits alone, or its value is 0",
        means: "The operand of `dm` is the number of moves within which mate is asked for. `verify` says so
of `#0` in `bm`, too.",
        example: Some(Example {
            faulty: "7k/8/5K2/8/8/8/8/R7 w - - dm two;",
            mended: "7k/8/5K2/8/8/8/8/R7 w - - dm 2;",
        }),
    },
    Explanation {
        code: "BoundTooLarge",
        comes: "the value of `dm` is above 15",
        means: "Mates in more than 15 moves are not looked for. `verify` says so of a `#N` in `bm`, too.",
        example: Some(Example {
            faulty: "7k/8/5K2/8/8/8/8/R7 w - - dm 16;",
            mended: "7k/8/5K2/8/8/8/8/R7 w - - dm 2;",
        }),
    },
    Explanation {
        code: "BadAvoid",
        comes: "`am` has no operand, or one that is a string or names no legal move",
        means: "Each operand of `am` is a legal move in SAN, with or without a `+` or `#` at its end.",
        example: Some(Example {
            faulty: "7k/8/5K2/8/8/8/8/R7 w - - am Kf8;",
            mended: "7k/8/5K2/8/8/8/8/R7 w - - am Kf7;",
        }),
    },
    Explanation {
        code: "NoMemory",
        comes: "memory was refused for the operations of a record",
        means: "The system gave no more memory. Nothing is wrong with the record: try again with a smaller
`--memo`, or with less beside it.",
        example: None,
    },
];

/// What `verify` says of a record's claims.
static VERDICTS: [Explanation; 10] = [
    Explanation {
        code: "TwoLengths",
        comes: "the first `#N` in `bm` isn't the number of `dm`",
        means: "The record says two numbers of moves, so nothing is held against either: take out the wrong
one.",
        example: Some(Example {
            faulty: "7k/8/5K2/8/8/8/8/R7 w - - bm #3 Kf7 Kg6; dm 2;",
            mended: "7k/8/5K2/8/8/8/8/R7 w - - am Kf7; bm #2 Kg6; dm 2;",
        }),
    },
    Explanation {
        code: "undecided",
        comes: "with `--limit`, the record was not decided in its seconds",
        means: "Nothing is held against it, and what the fourth and the fifth field would have is not known.
A longer limit may decide it; hard ones are decided sooner with `--workers`.",
        example: None,
    },
    Explanation {
        code: "unsolvable",
        comes: "there is no mate within the number of moves that the line says",
        means: "The number is that of `dm`, else of the first `#N` in `bm`. It may be too small, or a man stands
on a wrong square.",
        example: Some(Example {
            faulty: "7k/8/5K2/8/8/8/8/R7 w - - bm Kf7 Kg6; dm 1;",
            mended: "7k/8/5K2/8/8/8/8/R7 w - - am Kf7; bm Kg6; dm 2;",
        }),
    },
    Explanation {
        code: "unsolved",
        comes: "the line says no number of moves, and there is no mate within that of `--bound`",
        means: "The number that was asked stands in the third field of the row as `#N?`: no author said it. There
may be a mate in more moves: say their number with `dm`, or try a larger `--bound`.",
        example: Some(Example {
            faulty: "7k/8/8/8/8/8/8/K7 w - - bm Kb2;",
            mended: "7k/8/5K2/8/8/8/8/R7 w - - am Kf7; bm Kg6; dm 2;",
        }),
    },
    Explanation {
        code: "short",
        comes: "there is a mate in fewer moves than the line says",
        means: "The fourth field of the row has the length of the shortest mate, and the fifth its keys.",
        example: Some(Example {
            faulty: "7k/8/5K2/8/8/8/8/R7 w - - bm #3 Kf7 Kg6;",
            mended: "7k/8/5K2/8/8/8/8/R7 w - - am Kf7; bm #2 Kg6;",
        }),
    },
    Explanation {
        code: "wrong",
        comes: "a move claimed is no key, as one to avoid is none",
        means: "The fifth field of the row has the keys, and the sixth the moves claimed.",
        example: Some(Example {
            faulty: "7k/8/5K2/8/8/8/8/R7 w - - bm Ra8 Kf7; dm 2;",
            mended: "7k/8/5K2/8/8/8/8/R7 w - - am Kf7; bm Kg6; dm 2;",
        }),
    },
    Explanation {
        code: "cooked",
        comes: "a key isn't claimed; or no move is claimed, and there is more than one key",
        means: "Another first move mates as soon as what the author meant. The fifth field of the row has
all keys, and the sixth the moves claimed. The problem is to be mended, not its record: with
all keys in `bm` it would have `several`. A key that is meant to be left out stands in `am`.",
        example: Some(Example {
            faulty: "7k/8/5K2/8/8/8/8/R7 w - - bm Kg6; dm 2;",
            mended: "7k/8/5K2/8/8/8/8/R7 w - - am Kf7; bm Kg6; dm 2;",
        }),
    },
    Explanation {
        code: "unclaimed",
        comes: "no move is claimed",
        means: "The mate is no shorter than the line says, and has one key, the fifth field of the row: but there was
no claim to hold it against. Write behind `bm` what the author has for the key.",
        example: Some(Example {
            faulty: "7k/8/5K2/8/8/8/8/R7 w - - am Kf7; dm 2;",
            mended: "7k/8/5K2/8/8/8/8/R7 w - - am Kf7; bm Kg6; dm 2;",
        }),
    },
    Explanation {
        code: "several",
        comes: "there are several keys, and all of them are claimed",
        means: "The record is right, but the problem is not sound: a sound one has one key. The fifth field of
the row has all of them.",
        example: Some(Example {
            faulty: "7k/8/5K2/8/8/8/8/R7 w - - bm Kf7 Kg6; dm 2;",
            mended: "7k/8/5K2/8/8/8/8/R7 w - - am Kf7; bm Kg6; dm 2;",
        }),
    },
    Explanation {
        code: "sound",
        comes: "there is one key, it is the one claimed, and the mate is no shorter than the line says",
        means: "The record is as it claims to be: nothing is to be mended.",
        example: None,
    },
];

/// Of the steps of a script.
static STEPS: [Explanation; 6] = [
    Explanation {
        code: "NoSuchSubmitter",
        comes: "the desk has no submitter of that number",
        means: "Submitters are numbered from 0: a desk of two has 0 and 1.",
        example: Some(Example {
            faulty: "desk 2 1 3\ncollect 2",
            mended: "desk 2 1 3\ncollect 1",
        }),
    },
    Explanation {
        code: "Closed",
        comes: "a record is submitted behind `close`",
        means: "A closed desk accepts no record; what it has accepted is answered.",
        example: Some(Example {
            faulty: "desk 1 1 3\nclose\nsubmit 0 7k/8/5K2/8/8/8/8/R7 w - - dm 2;",
            mended: "desk 1 1 3\nsubmit 0 7k/8/5K2/8/8/8/8/R7 w - - dm 2;\nclose",
        }),
    },
    Explanation {
        code: "Full",
        comes: "the submitter has as many records pending as the desk has room for",
        means: "A record is pending until what is owed for it is collected. The second number of `desk` says
for how many each submitter has room.",
        example: Some(Example {
            faulty: "desk 1 1 3\nsubmit 0 7k/8/5K2/8/8/8/8/R7 w - - dm 2;\nsubmit 0 7k/8/5K2/8/8/8/8/R7 w - - dm 1;",
            mended: "desk 1 2 3\nsubmit 0 7k/8/5K2/8/8/8/8/R7 w - - dm 2;\nsubmit 0 7k/8/5K2/8/8/8/8/R7 w - - dm 1;",
        }),
    },
    Explanation {
        code: "NotAccepted",
        comes: "the submitter has had no record of that number accepted",
        means: "Each submitter's accepted records are numbered from 0; one that was refused has no number.",
        example: Some(Example {
            faulty: "desk 1 1 3\nsubmit 0 7k/8/5K2/8/8/8/8/R7 w - - dm 2;\nwithdraw 0 1",
            mended: "desk 1 1 3\nsubmit 0 7k/8/5K2/8/8/8/8/R7 w - - dm 2;\nwithdraw 0 0",
        }),
    },
    Explanation {
        code: "Delivered",
        comes: "what is owed for the record was collected before",
        means: "An answer that was given can't be taken back.",
        example: Some(Example {
            faulty: "desk 1 1 3\nsubmit 0 7k/8/5K2/8/8/8/8/R7 w - - dm 2;\ntake\nfinish 0\ncollect 0\nwithdraw 0 0",
            mended: "desk 1 1 3\nsubmit 0 7k/8/5K2/8/8/8/8/R7 w - - dm 2;\ntake\nfinish 0\nwithdraw 0 0\ncollect 0",
        }),
    },
    Explanation {
        code: "Withdrawn",
        comes: "the record was withdrawn before",
        means: "A record is withdrawn once. Its submitter is still owed a notice.",
        example: Some(Example {
            faulty: "desk 1 1 3\nsubmit 0 7k/8/5K2/8/8/8/8/R7 w - - dm 2;\nwithdraw 0 0\nwithdraw 0 0",
            mended: "desk 1 1 3\nsubmit 0 7k/8/5K2/8/8/8/8/R7 w - - dm 2;\nwithdraw 0 0",
        }),
    },
];

/// Of a desk, the files and threads of `serve`, what is to be explained, and blocks.
static SIZES: [Explanation; 6] = [
    Explanation {
        code: "BadSubmitters",
        comes: "a desk is to have no submitter, or more than 16",
        means: "It is the first number of `desk`.",
        example: Some(Example {
            faulty: "desk 17 1 3\ndrained",
            mended: "desk 16 1 3\ndrained",
        }),
    },
    Explanation {
        code: "BadRoom",
        comes: "a desk is to have room for no record of a submitter, or for more than 64",
        means: "It is the second number of `desk`.",
        example: Some(Example {
            faulty: "desk 1 0 3\ndrained",
            mended: "desk 1 1 3\ndrained",
        }),
    },
    Explanation {
        code: "BadWindows",
        comes: "`serve` is given more than 16 files",
        means: "All files are open at once, 16 at most. Call `serve` twice, or join files:
`cat FILE.. | matedesk serve --workers 4 -`.",
        example: Some(Example {
            faulty: "matedesk serve --workers 4 - - - - - - - - - - - - - - - - -",
            mended: "matedesk serve --workers 4 - - - - - - - - - - - - - - - -",
        }),
    },
    Explanation {
        code: "NoThread",
        comes: "`serve`, `uci`, `verify` or `tree` with `--workers`, or `solve`, `verify` or `tree` with `--limit` could start no more threads",
        means: "The system allows no more of them: take fewer workers, or `solve`, `verify` or `tree` alone,
which start none.",
        example: None,
    },
    Explanation {
        code: "NoSuchFault",
        comes: "`explain` is given words of which none is a code here",
        means: "A code is a word of a reply as it is printed, but in any case, with a space or nothing on
either side. Without a word `explain` lists all.",
        example: Some(Example {
            faulty: "matedesk explain BadKing",
            mended: "matedesk explain BadKings",
        }),
    },
    Explanation {
        code: "TimedOut",
        comes: "a line had no answer when its block of `examples/blocks` had taken its `LIMIT`",
        means: "Lines before it may have taken that time. Try fewer lines a block, or `--limit` behind `--`,
which limits each record.",
        example: None,
    },
];

/// Of collections that are imported.
static IMPORTS: [Explanation; 10] = [
    Explanation {
        code: "NoFen",
        comes: "a game that is to be imported has no tag `FEN`",
        means: "Only a game that begins from a position of its own is a problem. The line is that of its first tag.",
        example: None,
    },
    Explanation {
        code: "TwoFens",
        comes: "a game that is to be imported has two tags `FEN` that differ; a line without `dm`, or that is no record as it stands, has two FENs",
        means: "Which of them is meant nobody can tell. Part two games by an empty line, and give each FEN a line.",
        example: None,
    },
    Explanation {
        code: "NoBound",
        comes: "a line that is no record as it stands, or a game, says no number of moves, and no `--bound` is given",
        means: "How many moves are asked nobody can tell. Write `dm N`, `#N` or `mate in N`, or give `--bound N` for all of them.",
        example: None,
    },
    Explanation {
        code: "TwoBounds",
        comes: "a line, or a game, that is to be imported says two numbers of moves",
        means: "Which of them is asked nobody can tell. Leave the one that is.",
        example: None,
    },
    Explanation {
        code: "BadStipulation",
        comes: "a text speaks of an aim otherwise than a phrase for mate in N does; a problem for Popeye, or of Olive's, has no `#N` or `N#`",
        means: "Direct mates alone are solved here; `h#2`, `Selfmate`, `mate in 2 or 3`, `mate in 2, Circe` are not. What
isn't understood whole is refused: leave one phrase as `White to move and mate in 2`, or write `dm 2`.",
        example: None,
    },
    Explanation {
        code: "WrongSide",
        comes: "a line, or a game, that is to be imported says of the side that isn't to move that it moves, or mates",
        means: "One of the two is wrong: the second field of the FEN, or the words.",
        example: None,
    },
    Explanation {
        code: "OtherMen",
        comes: "a line that is to be imported tells, as `(5+6)`, other numbers of men than stand in its placement",
        means: "One of the two is wrong: a man is missing in the FEN, or is one too many, or the numbers are White's and Black's the other way round.",
        example: None,
    },
    Explanation {
        code: "FairyCondition",
        comes: "a problem for Popeye, or of Olive's, has a condition; a game has a tag for one, or for twins, or its `Variant` is another than standard chess",
        means: "Whatever stands there changes the rules of chess, or the problem.",
        example: None,
    },
    Explanation {
        code: "FairyPiece",
        comes: "a word of `Pieces`, a letter of `Forsyth`, or a man in a file of Olive's is none of chess",
        means: "Men are `K`, `Q`, `R`, `B`, `S` for the knight, and `P`, behind `White` or `Black`. `N` is the nightrider there.",
        example: None,
    },
    Explanation {
        code: "UnknownCommand",
        comes: "a problem for Popeye has another command, or an option that changes the problem; one of Olive's has twins",
        means: "Twins are not read, for one. Options that change only how it is solved or shown are passed over.",
        example: None,
    },
];

fn fields() -> &'static [Explanation]
    ensures { codes_of result.now ≡ field_codes }
{
    &FIELDS
}

fn men() -> &'static [Explanation]
    ensures { codes_of result.now ≡ men_codes }
{
    &MEN
}

fn moves() -> &'static [Explanation]
    ensures { codes_of result.now ≡ move_codes }
{
    &MOVES
}

fn lines() -> &'static [Explanation]
    ensures { codes_of result.now ≡ line_codes }
{
    &LINES
}

fn problems() -> &'static [Explanation]
    ensures { codes_of result.now ≡ problem_codes }
{
    &PROBLEMS
}

fn verdicts() -> &'static [Explanation]
    ensures { codes_of result.now ≡ verdict_codes }
{
    &VERDICTS
}

fn steps() -> &'static [Explanation]
    ensures { codes_of result.now ≡ step_codes }
{
    &STEPS
}

fn sizes() -> &'static [Explanation]
    ensures { codes_of result.now ≡ size_codes }
{
    &SIZES
}

fn imports() -> &'static [Explanation]
    ensures { codes_of result.now ≡ import_codes }
{
    &IMPORTS
}

/// All of them, group by group, so that no proof has the whole table before it.
#[tactic(auto, unfolding(crate::specs::Explained::known_codes))]
pub(crate) fn all() -> [&'static [Explanation]; 9]
    ensures { AreOfKnown result }
{
    [
        fields(),
        men(),
        moves(),
        lines(),
        problems(),
        verdicts(),
        steps(),
        sizes(),
        imports(),
    ]
}
