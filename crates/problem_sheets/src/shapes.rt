//! The shapes that diagrams are made of, drawn for this program: the board with its coordinates, the mark of a side that moves, and six kinds
//! of men, which `diagrams` puts together with their names. They want no font but for the coordinates and the words of the mark. Together they
//! are definitions of Scalable Vector Graphics.

/// The board up to its coordinates: 64 squares of 45 by 45, which look the same from either side.
pub(crate) const BOARD: &str = "<defs>
<path id='dark' d='M45 0h45v45h-45zM135 0h45v45h-45zM225 0h45v45h-45zM315 0h45v45h-45zM0 45h45v45h-45zM90
45h45v45h-45zM180 45h45v45h-45zM270 45h45v45h-45z'/>
<g id='board'>
<path class='l' fill='#fff' d='M0 0h360v360H0z'/>
<g class='d' fill='#c9c9c9'><use href='#dark'/><use href='#dark' y='90'/><use href='#dark' y='180'/><use href='#dark'
y='270'/></g>
<path fill='none' stroke='currentColor' stroke-width='2' d='M0 0h360v360H0z'/>
<g fill='currentColor' font-family='sans-serif' font-size='13' text-anchor='middle'>
";

/// The coordinates of a board as White sees it: files from left to right, ranks from above.
pub(crate) const WHITE_COORDINATES: &str =
    "<text x='22.5 67.5 112.5 157.5 202.5 247.5 292.5 337.5' y='377'>abcdefgh</text>
<text x='-11 -11 -11 -11 -11 -11 -11 -11' y='27 72 117 162 207 252 297 342'>87654321</text>
";

/// Those of a board as Black sees it.
pub(crate) const BLACK_COORDINATES: &str =
    "<text x='22.5 67.5 112.5 157.5 202.5 247.5 292.5 337.5' y='377'>hgfedcba</text>
<text x='-11 -11 -11 -11 -11 -11 -11 -11' y='27 72 117 162 207 252 297 342'>12345678</text>
";

/// What follows: the board's end, and the mark.
pub(crate) const MARK: &str = "</g>
</g>
<g id='mark' fill='currentColor'>
<path d='M361 0h11v11h-11z'/>
<text font-family='sans-serif' font-size='11' transform='rotate(90)' x='16' y='-362.5'>Black to move</text>
</g>
";

/// The drawing of a pawn, on a square. Lines within it have the colour that the other side is filled with.
pub(crate) const PAWN: &str =
    "<path d='M22.5 9a5.5 5.5 0 0 1 3.6 9.6q4 1.2 4 3.4H27q.5 5.8 5.3 9.6q2.7 2.2 2.7 5.4v2H10v-2q0-3.2 2.7-5.4Q17.5 27.8
18 22h-3.1q0-2.2 4-3.4A5.5 5.5 0 0 1 22.5 9z'/>
";

/// That of a knight.
pub(crate) const KNIGHT: &str =
    "<path d='M14 39h22q1.5-11-2.5-19.5Q30 12 23 10.5L21.5 6l-3.5 4-3-2.5-.5 5q-5 4.5-6.5 11-1 3.5 1.5 5 2 1 3.5-1 1.5-2
5.5-2.2 1.5 3.7-1.5 6.7-3.5 3-3 7z'/>
<path fill='none' stroke='currentColor' d='M24.5 14.5q6 5 6.5 20.5M15.8 16.5v1.5M10.8 24.3v.8'/>
";

/// That of a bishop.
pub(crate) const BISHOP: &str = "<circle cx='22.5' cy='8.5' r='2.8'/>
<path d='M22.5 11q8.5 6 8.5 13 0 4-3 6.5H17q-3-2.5-3-6.5 0-7 8.5-13z'/>
<path d='M16 30.5h13l1 3.5q6.5.5 7.5 5h-30q1-4.5 7.5-5z'/>
<path fill='none' stroke='currentColor' d='M22.5 17v8M18.5 21h8'/>
";

/// That of a rook.
pub(crate) const ROOK: &str =
    "<path d='M11 9h5v4h4V9h5v4h4V9h5v8l-3.5 3v11l3.5 3v1h2v4H9v-4h2v-1l3.5-3V20L11 17z'/>
<path fill='none' stroke='currentColor' d='M15 20h15M15 31h15M11.5 35h22'/>
";

/// That of a queen.
pub(crate) const QUEEN: &str =
    "<path d='M8 14l5.5 12.5L15 10.5 19.8 25 22.5 9l2.7 16L30 10.5l1.5 16L37 14l-3.5 16q-1 3 .5
5.5V39H11v-3.5q1.5-2.5.5-5.5z'/>
<circle cx='8' cy='13' r='2'/>
<circle cx='15' cy='9.5' r='2'/>
<circle cx='22.5' cy='8' r='2'/>
<circle cx='30' cy='9.5' r='2'/>
<circle cx='37' cy='13' r='2'/>
<path fill='none' stroke='currentColor' d='M12 30.5q10.5-3 21 0M12 35q10.5-2.5 21 0'/>
";

/// That of a king.
pub(crate) const KING: &str = "<path d='M21 4.5h3v3h3v3h-3V19h-3v-8.5h-3v-3h3z'/>
<path d='M22.5 20c0-4 4-6 8-6 5 0 8 3.5 8 8 0 4-3 7-5.5 9.5V39H12v-7.5C9.5 29 6.5 26 6.5 22c0-4.5 3-8 8-8 4 0 8 2 8
6z'/>
<path fill='none' stroke='currentColor' d='M22.5 20v8.5M12.5 32q10-3 20 0M12.5 36q10-2.5 20 0'/>
";
