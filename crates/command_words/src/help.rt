//! The texts that `--help` and `--version` print.

/// The version of the program, which `--version` prints behind its name.
pub const VERSION: &str = "0.1.0";

/// What the program is.
pub const ABOUT: &str =
    "Solves direct-mate chess problems. Reads chess positions, and answers questions about them.";

/// What stands below the list of commands: what a record and a FEN are, an example of each command, and the statuses.
pub const AFTER_HELP: &str =
    "A FILE of `solve`, `verify`, `tree`, `sheet` or `serve` has a problem on each line, as a record in Extended
Position Description: `matedesk solve --help` says what that is.

FEN, the Forsyth-Edwards Notation of a position, is six fields with a space between
(placement, side, castling rights, en passant target, halfmove clock, fullmove
number), given as ONE argument in quotes.

Examples:
  matedesk solve problems.epd
  matedesk verify problems.epd
  matedesk tree problems.epd
  matedesk sheet problems.epd > page.html
  matedesk serve --workers 4 problems.epd
  matedesk replay small.script
  matedesk look \"rnbqkbnr/pppppppp/8/8/8/8/PPPPPPPP/RNBQKBNR w KQkq - 0 1\"
  matedesk play \"rnbqkbnr/pppppppp/8/8/8/8/PPPPPPPP/RNBQKBNR w KQkq - 0 1\" f3 e5 g4 Qh4
  matedesk moves \"8/8/8/K2pP2r/8/8/8/7k w - d6 0 1\"
  matedesk perft \"rnbqkbnr/pppppppp/8/8/8/8/PPPPPPPP/RNBQKBNR w KQkq - 0 1\" 3
  matedesk moves --lines positions.epd
  matedesk explain BadKings
  matedesk uci

Status:
  0  everything was answered
  1  something that was given is refused: `matedesk explain CODE` says why
  2  the words ask for nothing, or `serve` is given more than 16 files
  3  no memory, or no thread
  4  a file can't be read, or the output can't be written
  5  some record was not decided within the seconds of `--limit`

`matedesk COMMAND --help` says more about a command.";

/// `solve` in one line.
pub const ABOUT_SOLVE: &str =
    "Solves the problems of files: does the side to move mate within so many moves?";

/// What stands below the arguments of `solve`: what a record is, an example, what an answer says, and the statuses.
pub const AFTER_SOLVE: &str =
    "Each line is a record in Extended Position Description (EPD): the first four fields of
a FEN (placement, side, castling rights, en passant target), and operations, each of
which ends with a semicolon. The operation `dm N` asks for a mate within N moves of
the side to move, 1 to 15; a record without it is asked for one within B, also where it
claims a mate by `bm #N;`. All bytes are printable ASCII. A blank line is passed over.

Example:
  $ cat problems.epd
  7k/8/5K2/8/8/8/8/R7 w - - dm 2;
  $ matedesk solve problems.epd
  7k/8/5K2/8/8/8/8/R7 w - - bm Kf7 Kg6; dm 2; pv Kg6 Kg8 Ra8#;

Each record is answered on a line of its own, before the next line is waited for: a
program that holds both ends open can write a line and read its answer. `bm` has each
first move that mates soonest (a second one is a cook), `dm` the number of moves that
the mate takes, and `pv` one line that leads to it. Where there is no mate within its
bound N, the answer says `c0 \"no mate in N\"`. A line that is no record is answered
`# line K: CODE`: K is its number in its file, and CODE names its fault. A bound of
many moves may take longer than one can wait, and the lines behind it wait too: with
`--limit S` a record that isn't decided within S seconds is answered
`c0 \"no mate in K, not decided within N in S s\"`, with `dm N` where the record has it: there
is no mate within K moves, and more is not known. In JSON it has `\"decided\":false`,
`\"none_within\":K` and `\"asked\":N`, too. The last line on standard error then counts such
records, and the status is 5. With --progress standard error says which line is solved and
for how long, twice a second on a terminal and every ten seconds elsewhere, and at the end
how often there was which answer.

What was found of positions is kept in a memo with room for M of them, so that it need not
be found again. No answer depends on M: more room mostly takes less time and more memory.
For a hard problem `--memory SIZE`, as 512M or 8G, makes room for as many as so much memory
holds, which is taken as they come; the memos of several workers share it.
With `--workers N` each record is solved by N threads, each with a memo of its own: a hard
problem is answered sooner, and by the same answer. For many records there is `serve`.

To look for a second solution, name the author's key as a move to avoid (`am`), with
others behind it if need be. It is left out at the first move alone:
  8/8/3p1p2/1N2p3/4kNQ1/5n2/2K3B1/8 w - - am Bh1; dm 2;
A sound problem then has no mate within its bound:
  8/8/3p1p2/1N2p3/4kNQ1/5n2/2K3B1/8 w - - am Bh1; c0 \"no mate in 2\";

The FILE `-` is standard input; a file by that name is `./-`. With --record or --fen there
are no files: `matedesk solve --fen '7k/8/5K2/8/8/8/8/R7 w - -' --bound 2`. With --json each
answer is an object in JSON:
  {\"line\":1,\"fen\":\"7k/8/5K2/8/8/8/8/R7 w - -\",\"bm\":[\"Kf7\",\"Kg6\"],\"dm\":2,
  \"pv\":[\"Kg6\",\"Kg8\",\"Ra8#\"],\"operations\":{}}

Status:
  0  every line was answered
  1  a line was refused; all others were answered
  2  the words ask for nothing
  3  no memory; with `--limit` also no thread
  4  a FILE can't be read, or the output can't be written
  5  with `--limit`: every line was answered or refused, and some record was not decided
At 3 and 4 the first of the answers may have been written.";

/// `verify` in one line.
pub const ABOUT_VERIFY: &str =
    "Holds the problems of files against their own claims: is each of them sound?";

/// What stands below the arguments of `verify`: what a row says, the verdicts, an example, and the statuses.
pub const AFTER_VERIFY: &str =
    "Each line is a record, as `matedesk solve --help` says. Its claims are the moves that `bm`
names, each in SAN, or where it names none the first of the line of play, `pv`, in SAN or by
coordinates; and the number of moves: that of `dm`, or else the first `#N` in `bm`, or else
B. For each record there is a row of seven fields, parted by tabs, before the next line is
waited for; a blank line is passed over:

  LINE     its number in its file; with several files, NAME:LINE
  VERDICT  what it is: see below
  ASKED    `#N`, the number of moves that was asked; `#N?` where the line says none, so
           that it is B
  FOUND    `#N`, the number that the shortest mate takes; `-` where there is none within
           ASKED, `?` where that is not known
  KEYS     each first move that mates soonest, as `solve` lists them, or `-`
  CLAIMED  the moves that `bm` names, or `pv` and the move that begins it, or `-`
  ID       what `id` says, or `-`

The verdict is the first of these that applies:
  CODE        the line is no record, or `bm` is at fault: it has a number that is not 1 to
              15 (BadBound, BoundTooLarge), names no legal move (NoSuchMove), or says
              another number than `dm` (TwoLengths); or `pv` begins with no legal move
              (NoSuchMove). Of no record the other fields are `-`; else CLAIMED is what
              stands behind `bm`, or `pv` and its first word
  undecided   with `--limit S`, it was not decided within S seconds
  unsolvable  there is no mate within the number that the line says
  unsolved    the line says no number, and there is no mate within B
  short       there is a mate in fewer moves than the line says; that a claimed move would
              mate in so many is not told
  wrong       a claimed move is no key
  cooked      there is a key that isn't claimed; or, where no move is claimed, a second key
  unclaimed   no move is claimed, so that nothing is held against the one key
  several     there are several keys, and all are claimed
  sound       there is one key, and it is the one claimed

Moves to avoid (`am`) are left out at the first move, as `solve` does. With --header a row
with these seven names stands before all others. At the end standard error says how many
lines came to each verdict, of how many records the number asked has a question mark, and
how many were not decided, also of those whose claims are at fault. Opcodes as `DM` are not
read, nor without --import moves as `1.Qh7!`: it says so of each file that has such.
With --import the lines are problems in any form that `import` takes, and LINE is the line
where one begins; one that is no record as it stands and says no number of moves is NoBound,
or with `--bound B` is taken to say B. With --json each row is an object in JSON.

With `--workers N` the records of a collection are taken side by side by N threads, each with
a memo of its own, and all with one SIZE; their rows stand in the order of its lines. With
`--limit S` as well they are taken one after the other, and each is solved by N threads, as
`solve` does. Beside --json and --import N is 1.

Example:
  $ cat problems.epd
  7k/8/5K2/8/8/8/8/R7 w - - bm Kf7; dm 2; id \"one key of two\";
  $ matedesk verify problems.epd
  1\tcooked\t#2\t#2\tKf7 Kg6\tKf7\tone key of two
  matedesk: sound 0, several 0, unclaimed 0, cooked 1, wrong 0, short 0, unsolvable 0, unsolved 0, refused 0

The FILE `-` is standard input; a file by that name is `./-`.

Status:
  0  each record is sound
  1  a line is not
  2  the words ask for nothing
  3  no memory; with `--limit` or `--workers` also no thread
  4  a FILE can't be read, or the output can't be written
  5  with `--limit`: every line has its row, and some record was not decided
At 3 and 4 the first of the rows may have been written.";

/// `tree` in one line.
pub const ABOUT_TREE: &str =
    "Tells how the problems of files are solved: keys, threats, every defence, and what follows";

/// What stands below the arguments of `tree`: what its lines say, an example, and the statuses.
pub const AFTER_TREE: &str =
    "Each line is a record, as `matedesk solve --help` says. For each record there is the answer
of `solve`; where it tells of a mate, the tree of its solution; and an empty line. A refused
line is answered `# line K: CODE` and an empty line, and a blank one is passed over.

  1.Bh1! zugzwang    a key, and that the defender has no good move: were it to pass, there
                     would be no mate in time
  1.Nf4! threat 2.Qd5# 2.Qe6#
                     a key, and the moves that would mate soonest were the defender to pass.
                     Of a key that gives check nothing is said
  1...Ke3            a defence: each legal reply stands below its move
  1...c6 dual        the same, where the attacker has more than one move to go on
  2.Qxf3#            below a defence: each move with which the attacker mates soonest
  2.Qd5 #4           below this move the tree is cut: it mates within 4 moves, itself counted

The tree goes down to mate, or to the attacker's D-th move. With --defences it is a solution
as magazines print it. A reply is left out where a threat still mates in time after it;
mates stand behind the replies that they answer, and threats behind moves that don't mate:
  1...d5, d6 2.Ng2#
With --column as well the tree stands on one line, as in a solution column. With --letters
KDTLSB, or `de`, pieces have these letters in place of KQRBNP; with --figurines they are
figurines. With --set-play `set play` has before the keys what the attacker would answer
were the defender to move first. With --tries `tries` has behind them each first move that
exactly one reply refutes: 1.Qh3? Kd5! With --json there is one object for each line, as
`solve --json` has it, with the lines of the tree as strings in `tree`.

With `--workers W` the records of a collection are taken side by side by W threads, each with
a memo of its own; their trees stand in the order of its lines. Beside --json and --limit W
is 1.

Example:
  $ cat problems.epd
  7k/8/5K2/8/8/8/8/R7 w - - dm 2;
  $ matedesk tree problems.epd
  7k/8/5K2/8/8/8/8/R7 w - - bm Kf7 Kg6; dm 2; pv Kg6 Kg8 Ra8#;
  1.Kg6! threat 2.Ra8#
    1...Kg8
      2.Ra8#
  1.Kf7! threat 2.Rh1#
    1...Kh7
      2.Rh1#

Moves to avoid (`am`) are left out at the first move. A bound of many moves may take longer
than one can wait: with `--limit S`, which goes without --json, the search for a record's
mate may take S seconds. One that isn't decided in them is answered so, as `solve` does,
without a tree; the last line on standard error then counts such records, and the status is
5. A tree whose mate is known is written whole: of many moves it may take longer than one
can wait, and all memory: use --moves and --lines.

The FILE `-` is standard input; a file by that name is `./-`.

Status:
  0  every line was answered
  1  a line was refused; all others were answered
  2  the words ask for nothing
  3  no memory; with `--limit` or `--workers` also no thread
  4  a FILE can't be read, or the output can't be written
  5  with `--limit`: every line was answered or refused, and some record was not decided
At 3 and 4 the first of the answers may have been written.";

/// `sheet` in one line.
pub const ABOUT_SHEET: &str = "Makes a page of diagrams of the problems of files";

/// What stands below the arguments of `sheet`: what a page has, an example, and the statuses.
pub const AFTER_SHEET: &str =
    "Each line is a record, as `matedesk solve --help` says. The page is one file of HTML, which
any browser shows and prints; nothing is fetched. It has for each record, in order: its
number, a diagram, `#N` as `dm` says, how many men each side has (7+5) and what `id` says;
`Black to move` where it is; rights to castle and an en passant target in words; and the
record, with `dm` and `id` alone, which a click copies. At its end stand the lines that are
refused, by FILE:K CODE, and with --solutions, before them, each problem's solution as `tree
--defences --column` tells it, behind what isn't sound (`short`, `2 keys`), or that there is no
mate within its bound; `#N` of a record without `dm` is then the shortest mate found. Nothing is
solved without it. With --letters KDTLSB, or `de`, pieces have these letters there in place of
KQRBNP; with --figurines they are figurines.

The page is made whole before any of it is written: where a file can't be read, nothing is.

Example:
  $ matedesk sheet --solutions --title \"Loyd in two\" loyd_in_2.epd > page.html

The FILE `-` is standard input; a file by that name is `./-`.

Status:
  0  every line was a record or blank
  1  a line was refused; the page has all others
  2  no FILE, an unknown option, a number outside its range, or no letters of men
  3  no memory
  4  a file can't be read, or the output can't be written";

/// The option `--header` in one line.
pub const ABOUT_HEADER: &str = "Prints a first row with the names of the fields";

/// The option `--bound` of `verify` in one line.
pub const ABOUT_VERIFY_BOUND: &str =
    "Within how many moves a record without `dm` asks for mate, 1 to 15 (default 3)";

/// The option `--import` in one line.
pub const ABOUT_IMPORTED: &str =
    "Takes problems in any form that `import` takes; without --bound one that says no number is refused";

/// The option `--json` of `solve`, `verify` and `tree` in one line.
pub const ABOUT_JSON: &str = "Prints an object in JSON for each line, in place of its text";

/// The option `--json` of `moves` in one line.
pub const ABOUT_MOVES_JSON: &str =
    "Prints one object in JSON, with each move in SAN and by coordinates";

/// The option `--column` in one line.
pub const ABOUT_COLUMN: &str = "Prints each tree on one line, as a solution column does";

/// The option `--figurines` of `tree` in one line.
pub const ABOUT_TREE_FIGURINES: &str = "Shows pieces as figurines in the lines of the tree";

/// The option `--letters` of `import` and `verify --import` in one line.
pub const ABOUT_IMPORT_LETTERS: &str =
    "The letters of men in moves: six for king, queen, rook, bishop, knight, pawn, or a language, as `de`";

/// The option `--fen-letters` of `import` and `verify --import` in one line.
pub const ABOUT_FEN_LETTERS: &str =
    "The letters of men in FENs and placements, where they aren't English";

/// The option `--letters` of `tree` and `sheet` in one line.
pub const ABOUT_LETTERS: &str =
    "The letters of men: six for king, queen, rook, bishop, knight, pawn, or a language, as `de`";

/// The option `--solutions` in one line.
pub const ABOUT_SOLUTIONS: &str = "Solves the problems, and has their solutions behind them";

/// The option `--figurines` in one line.
pub const ABOUT_FIGURINES: &str =
    "Shows pieces as figurines in the solutions; goes with --solutions";

/// The option `--title` in one line.
pub const ABOUT_TITLE: &str = "What the page is called";

/// The option `--svg` of `look` in one line.
pub const ABOUT_SVG: &str = "Draws the board as an image in SVG, and says nothing else";

/// `import` in one line.
pub const ABOUT_IMPORT: &str =
    "Makes records of the problems of files as collections have them: EPD that wants mending, PGN, Popeye";

/// `--keep` in one line.
pub const ABOUT_KEEP: &str = "Tell in an operation c9 of each record what was changed";

/// `--bound` of `import` in one line.
pub const ABOUT_IMPORT_BOUND: &str =
    "Within how many moves a problem that says no number asks for mate, 1 to 15; else it is refused";

/// What stands below the arguments of `import`: what is read, an example, and the statuses.
pub const AFTER_IMPORT: &str =
    "For each problem one record is printed, in order, as the other commands read it. Forms may
stand in one file in any mixture:
  - lines of EPD or FEN. Mended are letters beyond ASCII, tabs, a byte order mark, a missing
    last semicolon, other quotation marks, `!` and `?` behind moves; in `bm` and `am` moves as
    `1.Bg2-h1`, `0-0` or `f8(R)`, which become SAN. A number of moves, as `#2`, `2#` or `White
    mates in two`, becomes `dm N`: in `bm`, words, comments, or in `id`. A line that is a record
    and wants none of this is printed as it is
    The lines behind one that asks for no `dm N` itself, as mails have them, are of the same
    problem up to an empty line or the next problem: what is asked, the author, `Key: 1.Bh1`.
    A number or a bullet before a FEN, as `12)` or `[3]`, or `FEN:`, says nothing
  - lines that begin with `%`, `;`, or `#` and a space: dropped, as empty ones are
  - games in PGN: the tag FEN makes the record, White, Black, Event, Round, Date and Annotator
    its id, and the first move the claim `bm`; the number of moves is said by Stipulation, else
    by White, Black, Event, Annotator, or a comment before the first move
  - Popeye's input, from BeginProblem to EndProblem, with stipulation `#N` or `N#`
  - files of Olive's (`.olv`): the keys that have a `!` there are the claim `bm`
Words that speak of a mate, or of another aim, are a phrase that is understood whole, in one of
eight languages, or the problem is refused as BadStipulation: `Selfmate`, `mate in 2 or 3`.
Not so the names in `id` beside `dm N`.
Men may have other letters in moves: --letters KDTLSB, or `de`, names those for king, queen,
rook, bishop, knight and pawn. FENs are English, unless --fen-letters names others for them.
What can't be read is printed as `# line K: CODE`, by the line where it begins; `matedesk
explain CODE` says what that means.

Example:
  matedesk import magazine.txt > magazine.epd

Status:
  0  every problem was read
  1  a problem was refused by its line and fault
  2  the arguments are at fault
  3  memory was refused
  4  a FILE can't be read, or the output can't be written
At 3 and 4 the first of the records may have been printed.";

/// `serve` in one line.
pub const ABOUT_SERVE: &str =
    "Solves the problems of up to 16 files on threads, and answers them as `solve` does";

/// What stands below the arguments of `serve`: how it differs from `solve`, an example, and the statuses.
pub const AFTER_SERVE: &str =
    "The answers are those of `solve`, in the same order: `matedesk solve --help` says what a
record is and what an answer says. N workers solve the records, each one at a time, so that
many problems are answered sooner; one hard problem is not: for that there is
`solve --workers`. Each worker has a memo of its own; with `--memory SIZE` all share SIZE.

All files are opened before the first problem is looked at. Each answer is written once it
and all before it are there, and before more input is waited for.

Example:
  $ cat problems.epd
  7k/8/5K2/8/8/8/8/R7 w - - dm 2;
  $ matedesk serve --workers 4 problems.epd
  7k/8/5K2/8/8/8/8/R7 w - - bm Kf7 Kg6; dm 2; pv Kg6 Kg8 Ra8#;

The FILE `-` is standard input; a file by that name is `./-`.

Status:
  0  every line was answered
  1  a line was refused; all others were answered
  2  the words ask for nothing, or for more than 16 files
  3  no memory, or no thread
  4  a FILE can't be read, or the output can't be written
At 3 and 4 the answers to some first lines were written, where a FILE can't be opened none.";

/// The option `--workers` in one line.
pub const ABOUT_WORKERS: &str = "How many threads solve, 1 to 16";

/// `uci` in one line.
pub const ABOUT_UCI: &str = "Answers a chess program as an engine that looks for mate";

/// What stands below the arguments of `uci`: which commands are known, an example, and the statuses.
pub const AFTER_UCI: &str =
    "Speaks the Universal Chess Interface: a chess program starts it as an engine, and gives it
commands on standard input, a line each, which it answers on standard output. It is for
problems: it looks for a forced mate, and plays the first legal move where it finds none.

  uci                    the engine's name and its options, then `uciok`
  isready                `readyok`
  setoption name NAME value N
                         Hash N: megabytes of the memo, 1 to 10. Bound N: how many moves
                         are looked at, 1 to 15. MultiPV N: how many keys have lines, 1 to
                         64. NAME in any case; `info string` where N is not of these
  ucinewgame             forgets what it found
  position startpos|fen FEN [moves MOVE..]
                         the position; `info string CODE` where it is refused, and again for
                         each `go` until one is taken, which then plays nothing:
                         `matedesk explain CODE` says what CODE means
  go [mate N] [depth N] [movetime MS] [nodes N] [infinite] [ponder] [wtime MS] [btime MS]
     [winc MS] [binc MS] [movestogo N] [searchmoves MOVE..]
                         looks for a mate in 1, in 2 and so on; `info` for each of them, and
                         on what it costs some four times a second; then `bestmove`, which
                         is 0000 behind `score mate 0` or `score cp 0`, where the side to
                         move is mated or stalemated. `depth` counts moves of both sides
  stop, ponderhit, quit  as the interface has them. Where the input ends without `quit`, a
                         search goes on to its own end; `infinite` and `ponder` stop
  d                      the board

Example:
  $ matedesk uci
  position fen 7k/8/5K2/8/8/8/8/R7 w - - 0 1
  go mate 2
  info depth 1 nodes 1 time 0 nps 1000
  info depth 3 multipv 1 score mate 2 nodes 1 time 0 nps 1000 pv f6g6 h8g8 a1a8
  bestmove f6g6
  quit

What it says of a mate is as true as what `solve` says; what it writes of it is only tested.

Status:
  0  it was told to quit, or its input ended
  3  no memory, or no thread
  4  the input can't be read, or the output can't be written";

/// `replay` in one line.
pub const ABOUT_REPLAY: &str =
    "Runs a script of steps at a desk that hands out problems and gives their answers back in order";

/// What stands below the arguments of `replay`: what a script is, an example with its replies, and the statuses.
pub const AFTER_REPLAY: &str =
    "The first line of a script, `desk S R B`, opens a desk: S submitters, 1 to 16, numbered from
0; each may have R records pending, 1 to 64; and a record without `dm` asks for mate
within B moves, 1 to 15. Each line behind it is a step, and has a line of reply:

  submit S RECORD  submitter S hands in a record, as `solve` reads it: `ticket T`
  take             the waiting record of the lowest ticket becomes a job: `job T`, `nothing`
  finish I         the I-th job in hand, counted from 0, is solved: `done T`, `no job`
  handback I       the I-th job in hand is given back, and its record waits again
                   unless it was withdrawn: `back T`, `no job`
  collect S        S is given what its first pending record is owed: the answer,
                   `notice T` where that was withdrawn, or `none` so far
  withdraw S N     S withdraws its N-th accepted record, counted from 0: `withdrawn`
  drained          whether nothing is pending: `drained yes`, `drained no`
  close            nothing is accepted any more: `closed`

What the desk refuses is `refused CODE`. Numbers have one to nine digits, and one space
stands between words. A blank line is passed over.

Example:
  $ cat small.script
  desk 1 2 3
  submit 0 7k/8/5K2/8/8/8/8/R7 w - - dm 2;
  submit 0 6k1/5ppp/8/8/8/8/8/R3K3 w Q - dm 1;
  take
  withdraw 0 1
  finish 0
  collect 0
  collect 0
  drained
  $ matedesk replay small.script
  ticket 0
  ticket 1
  job 0
  withdrawn
  done 0
  7k/8/5K2/8/8/8/8/R7 w - - bm Kf7 Kg6; dm 2; pv Kg6 Kg8 Ra8#;
  notice 1
  drained yes

The SCRIPT `-` is standard input; a file by that name is `./-`.

Status:
  0  every step was made
  1  the script is refused: the error output names its first faulty line, 0 where
     all are blank, or says BadSubmitters or BadRoom
  2  the words ask for nothing
  3  no memory
  4  SCRIPT can't be read, or the output can't be written";

/// The argument SCRIPT in one line.
pub const ABOUT_SCRIPT: &str = "A file with a desk and its steps; `-` is standard input";

/// The option `--bound` in one line.
pub const ABOUT_BOUND: &str = "Within how many moves a record without `dm` asks for mate, 1 to 15";

/// The option `--moves` of `tree` in one line.
pub const ABOUT_SHOWN: &str =
    "How many of the attacker's moves are shown, 1 to 15; else all of a mate in up to 3, and else 2";

/// The option `--defences` in one line.
pub const ABOUT_DEFENCES: &str =
    "Shows only the defences that parry the threat, those together that the same mates answer";

/// The option `--set-play` in one line.
pub const ABOUT_SET_PLAY: &str = "Shows what would follow were the defender to move first";

/// The option `--tries` in one line.
pub const ABOUT_TRIES: &str = "Shows the first moves that one reply alone refutes";

/// The option `--lines` of `tree` in one line.
pub const ABOUT_MOST_LINES: &str =
    "How many lines a tree has at most, 1 to 1000000; `..` stands for the others";

/// The option `--memo` of `solve` in one line.
pub const ABOUT_MEMO: &str =
    "How many positions the memo has room for, 1 to 65536 [default: 65536]";

/// The option `--memory` in one line.
pub const ABOUT_MEMORY: &str =
    "How much memory all memos take, 1K to 32G, as 512M; in place of --memo";

/// The option `--memo` of `serve` in one line.
pub const ABOUT_MEMOS: &str =
    "How many positions each worker's memo has room for, 1 to 65536 [default: 16384]";

/// The option `--limit` in one line.
pub const ABOUT_LIMIT: &str =
    "How many seconds the search of a record may take, 1 to 86400; one not decided by then is answered so";

/// The option `--workers` of `solve` in one line.
pub const ABOUT_SOLVE_WORKERS: &str =
    "How many threads solve each record, 1 to 16, each with a memo of its own";

/// The option `--workers` of `verify` and of `tree` in one line.
pub const ABOUT_RECORD_WORKERS: &str =
    "How many threads take the records side by side, 1 to 16, each with a memo of its own";

/// The option `--from` in one line.
pub const ABOUT_FROM: &str =
    "The number of the line of the first FILE that is the first to be answered, 1 to 1000000000";

/// The option `--progress` in one line.
pub const ABOUT_PROGRESS: &str =
    "Tell on standard error how far it is, and at the end what it came to";

/// The option `--record` in one line.
pub const ABOUT_RECORD: &str = "FILEs are no names, but the records themselves, each in quotes";

/// The option `--fen` of a command over records in one line.
pub const ABOUT_RECORD_FEN: &str = "The same of a FEN, which goes with --bound";

/// The argument FILE in one line.
pub const ABOUT_FILE: &str = "Files of records, each answered in its place; `-` is standard input";

/// `look` in one line.
pub const ABOUT_LOOK: &str =
    "Shows a FEN in canonical form, and whether the side to move is in check";

/// What stands below the arguments of `look`.
pub const AFTER_LOOK: &str =
    "FEN has six fields with a space between: placement, side, castling rights, en passant
target, halfmove clock, fullmove number. The quotes make ONE argument of them.

Example:
  $ matedesk look \"rnb1kbnr/pppp1ppp/8/4p3/6Pq/5P2/PPPPP2P/RNBQKBNR w KQkq - 1 3\"
  rnb1kbnr/pppp1ppp/8/4p3/6Pq/5P2/PPPPP2P/RNBQKBNR w KQkq - 1 3
  check
  $ matedesk look --board \"8/8/8/K2pP2r/8/8/8/7k w - d6 0 1\"
  8/8/8/K2pP2r/8/8/8/7k w - d6 0 1
  no check
  8  . . . . . . . .
  7  . . . . . . . .
  6  . . . . . . . .
  5  K . . p P . . r
  4  . . . . . . . .
  3  . . . . . . . .
  2  . . . . . . . .
  1  . . . . . . . k
     a b c d e f g h
  White to move

Options stand before FEN: --board or --svg, and --flip with one of them. A FEN that gives
no sound position is refused: the error output names its first fault, which `matedesk
explain CODE` explains, and the status is 1. For many positions there is `matedesk look
--lines`.";

/// The option `--board` in one line.
pub const ABOUT_BOARD: &str = "Draws the board too, and says who is to move";

/// The option `--flip` in one line.
pub const ABOUT_FLIP: &str = "Draws the board from Black's side";

/// `play` in one line.
pub const ABOUT_PLAY: &str = "Makes moves from a FEN, and shows the position reached";

/// What stands below the arguments of `play`.
pub const AFTER_PLAY: &str =
    "The FEN of the position reached stands on the first line, and `mate`, `stalemate`, `check` or
`no check` on the second. No move is needed: then that is the position given.

Example:
  $ matedesk play \"rnbqkbnr/pppppppp/8/8/8/8/PPPPPPPP/RNBQKBNR w KQkq - 0 1\" f3 e5 g4 Qh4
  rnb1kbnr/pppp1ppp/8/4p3/6Pq/5P2/PPPPP2P/RNBQKBNR w KQkq - 1 3
  mate

A MOVE is written in SAN, with or without a `+` or `#` at its end (`Qh4`, `exd6`, `O-O`,
`e8=Q`), or by its coordinates (`d8h4`, `e7e8q`). Where the K-th is no legal move of the
position before it, the error output says `move K: NoSuchMove`, and the status is 1.";

/// The argument MOVE in one line.
pub const ABOUT_MOVE: &str = "Moves, one after the other, in SAN or by their coordinates";

/// `moves` in one line.
pub const ABOUT_MOVES: &str = "Lists the legal moves of a FEN, or says `mate` or `stalemate`";

/// What stands below the arguments of `moves`.
pub const AFTER_MOVES: &str =
    "Each move stands on a line of its own, in Standard Algebraic Notation (SAN). They rise by the
square that they leave, the square that they go to, and what a pawn becomes.

Example:
  $ matedesk moves \"8/8/8/K2pP2r/8/8/8/7k w - d6 0 1\"
  Ka4
  Kb4
  Kb5
  Ka6
  Kb6
  e6
  $ matedesk moves --fen \"7k/8/5K2/8/8/8/8/6R1 b - - 0 1\"
  Kh7\t8/7k/5K2/8/8/8/8/6R1 w - - 1 2

The pawn on d5 can't be taken en passant: two pawns would leave the rank of the king.

With --coordinates a move stands there as `g2h1`, with a small letter for what a pawn
becomes. With --fen each line has SAN, a tab and the FEN after the move, and with both
SAN, coordinates and FEN. With --json a FEN that is refused has an object too, as
{\"error\":\"BadKings\"}. Options stand before FEN. For many positions there is `matedesk moves
--lines`.";

/// The option `--coordinates` in one line.
pub const ABOUT_COORDINATES: &str = "Writes moves by their coordinates, as `g2h1`";

/// The option `--fen` of `moves` in one line.
pub const ABOUT_FENS: &str = "Writes the FEN after each move behind it";

/// `perft` in one line.
pub const ABOUT_PERFT: &str = "Counts the lines of DEPTH legal moves from a FEN";

/// What stands below the arguments of `perft`.
pub const AFTER_PERFT: &str =
    "The count is the one by which chess programs compare their move generators. With --divide
the count behind each first move stands before it, so that two programs can be compared
move by move.

Example:
  $ matedesk perft \"rnbqkbnr/pppppppp/8/8/8/8/PPPPPPPP/RNBQKBNR w KQkq - 0 1\" 3
  8902
  $ matedesk perft --divide \"7k/8/5K2/8/8/8/8/7R b - - 0 1\" 2
  h8g8: 20
  20

For many positions there is `matedesk perft --lines`.";

/// The option `--divide` in one line.
pub const ABOUT_DIVIDE: &str = "Writes the count behind each first move too";

/// `look --lines` in one line.
pub const ABOUT_LOOK_LINES: &str = "Shows each position of files, as `look` shows a FEN";

/// What stands below the arguments of `look --lines`: what a line says, an example, how lines are answered, and the statuses.
pub const AFTER_LOOK_LINES: &str =
    "Each line is a FEN, or the first four fields of one with operations behind them or none, as
`solve` reads and writes records. It has counters where its fifth word begins with a
digit, and else 0 and 1 for them. What stands behind is not read, and a blank line is
passed over.

Example:
  $ cat positions.epd
  8/8/8/K2pP2r/8/8/8/7k w - d6 0 1
  8/8/8/8/8/8/8/K7 w - - 0 1
  7k/8/5K2/8/8/8/8/R7 w - - bm Kf7 Kg6; dm 2;
  $ matedesk look --lines positions.epd
  8/8/8/K2pP2r/8/8/8/7k w - d6 0 1
  no check
  # line 2: Fen BadKings
  7k/8/5K2/8/8/8/8/R7 w - - 0 1
  no check

Each line is answered before the next is waited for: a program that holds both ends open
can write a line and read its answer. One that says no sound position is answered
`# line K: CODE`: K is its number in its file, and CODE names its fault.

The FILE `-` is standard input; a file by that name is `./-`.

Status:
  0  every line was answered
  1  a line was refused; all others were answered
  2  the words ask for nothing
  3  no memory
  4  a FILE can't be read, or the output can't be written
At 3 and 4 the first of the answers may have been written.";

/// `moves --lines` in one line.
pub const ABOUT_MOVES_LINES: &str = "Lists the legal moves of each position of files, on one line";

/// What stands below the arguments of `moves --lines`.
pub const AFTER_MOVES_LINES: &str =
    "Each line of a FILE is a position, and answered by one line before the next is waited for: its
legal moves in SAN with a space between each two, `mate`, `stalemate`, or `# line K: CODE`.
`matedesk look --lines --help` says what a line is, and which status comes when.

Example:
  $ cat positions.epd
  8/8/8/K2pP2r/8/8/8/7k w - d6 0 1
  8/8/8/8/8/8/8/K7 w - - 0 1
  7k/8/5K2/8/8/8/8/6R1 b - - hmvc 3;
  $ matedesk moves --lines positions.epd
  Ka4 Kb4 Kb5 Ka6 Kb6 e6
  # line 2: Fen BadKings
  Kh7";

/// `perft --lines` in one line.
pub const ABOUT_PERFT_LINES: &str =
    "Counts the lines of DEPTH legal moves from each position of files";

/// What stands below the arguments of `perft --lines`.
pub const AFTER_PERFT_LINES: &str =
    "Each line of a FILE is a position, and answered by one line before the next is waited for: the
count, as `perft` gives it, or `# line K: CODE`. `matedesk look --lines --help` says what
a line is, and which status comes when.

Example:
  $ cat positions.epd
  rnbqkbnr/pppppppp/8/8/8/8/PPPPPPPP/RNBQKBNR w KQkq - 0 1
  8/8/8/8/8/8/8/K7 w - - 0 1
  8/8/8/K2pP2r/8/8/8/7k w - d6
  $ matedesk perft --lines 1 positions.epd
  20
  # line 2: Fen BadKings
  6";

/// The argument FILE of the commands over lines in one line.
pub const ABOUT_POSITIONS: &str =
    "Files of positions, each answered in its place; `-` is standard input";

/// `explain` in one line.
pub const ABOUT_EXPLAIN: &str =
    "Says what codes of faults and verdicts mean, or what is wrong with a FEN or a record";

/// What stands below the arguments of `explain`.
pub const AFTER_EXPLAIN: &str =
    "The words of a reply will do as they are printed, in any case; behind a `#` they stand in
quotes. Each that is a code is explained: by it a FEN or a move is refused (`matedesk:
CODE`), a line of records (`# line K: CODE`), a step of a script (`refused CODE`), a desk
or a room; or `verify` says so of a record. Told are what it means, where it comes, an
example that has it, and the same mended.

Example:
  $ matedesk explain OpponentInCheck
  OpponentInCheck: the king of the side not to move is attacked.
  That king could be taken, which the Laws of Chess don't allow. Mostly the wrong side is to
  move: see the second field.

  Example:
  4k3/8/8/8/8/8/8/4RK2 w - - 0 1

  Mended:
  4k3/8/8/8/8/8/8/4RK2 b - - 0 1

Without a WORD all are listed, with a sentence for each. Where no word is a code the error
output says NoSuchFault, and the status is 1.

Where a WORD begins with a placement, with three strokes `/` or more, the words are a FEN or
a record, in quotes or without. Each thing that is wrong with it has a line, and the status
is 1 then; else one says that nothing is, behind what can't come about by play, as nine
pawns, which isn't refused. Four fields are a record: behind them `look`, `moves` and
`perft` want counters, which is said, too.

Example:
  $ matedesk explain \"8/8/3k4/1R1S4/8/8/8/4K3 w - - 0 1\"
  \"S\" at d5 is no man: knights are N";

/// The argument WORD in one line.
pub const ABOUT_WORD: &str =
    "Words of a reply, as `Fen BadKings` or `cooked`; or a FEN, or a record";

/// The argument DEPTH in one line.
pub const ABOUT_DEPTH: &str = "How many moves a line has, 0 to 6";

/// The argument FEN in one line.
pub const ABOUT_FEN: &str = "A position in Forsyth-Edwards Notation, in quotes";
