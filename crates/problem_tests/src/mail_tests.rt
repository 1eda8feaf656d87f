//! Inputs as mails and lists have them, and the lines as which they are answered.

use byte_streams::NoMemory;
use mail_lines::answer_mails;
use move_words::Letters;
use std::alloc::{AllocError, Global};
use std::process::Abort;
use text_lines::{LineHandler, LinesFrom, Output};

/// Answers a line with its number and its text, and refuses one that is too long.
struct Echo;

fn numbered(alloc: Global, number: usize, line: &[u8]) -> Result<Vec<u8>, AllocError> {
    let mut text = Vec::new(alloc);
    text.extend_from_slice(number.to_string(alloc)?.as_bytes())?;
    text.extend_from_slice(b": ")?;
    text.extend_from_slice(line)?;
    text.push(b'\n')?;
    Ok(text)
}

impl LineHandler for Echo {
    type Memory = ();

    ghost replies = { λ _ _ _ _ _. Unit {0} };

    ghost room = { λ memory. 0 };

    fn answer(
        &self,
        alloc: Global,
        number: usize,
        line: &[u8],
        _memory: &mut (),
    ) -> Result<Output, NoMemory> {
        Ok(Output {
            text: numbered(alloc, number, line)?,
            refused: 0,
        })
    }

    fn refuse_long(&self, alloc: Global, number: usize) -> Result<Output, NoMemory> {
        Ok(Output {
            text: numbered(alloc, number, b"too long")?,
            refused: 1,
        })
    }

    ghost skips = { λ _ _ _ _. tt };

    ghost unmarked = { λ _ _ _ _. tt };

    ghost passes = { λ _ _ _ _ _ _. tt };

    ghost skips_behind = { λ _ _ _ _ _. tt };
}

/// Refuses where an input is answered otherwise, from a line on.
fn check(rt: &impl Abort, alloc: Global, from: usize, input: &str, wanted: &str) {
    let mut text = Vec::new(alloc);
    let lines = LinesFrom {
        by: &Echo,
        from: from.max(1),
        progress: &(),
    };
    let english = Letters::ENGLISH;
    let answered = answer_mails(
        alloc,
        &english,
        &lines,
        input.as_bytes(),
        &mut (),
        &mut text,
    );
    if answered.is_err() || text.as_slice() != wanted.as_bytes() {
        rt.panic(input);
    }
}

#[test]
fn joins_the_lines_of_a_problem(rt: HostRuntime) {
    static TABLE: [(usize, &str, &str); 17] = [
        (
            1,
            "7k/8/5K2/8/8/8/8/R7 w - -\nWhite mates in two.\nKey: 1.Kf7!\n\n7k/8/5K2/8/8/8/8/R7 w - -",
            "1: 7k/8/5K2/8/8/8/8/R7 w - - ; White mates in two. ; Key: 1.Kf7!\n5: 7k/8/5K2/8/8/8/8/R7 w - -\n",
        ),
        (
            1,
            "7k/8/5K2/8/8/8/8/R7 w - -\r\n#2\r\n \t\r\nx\r\n",
            "1: 7k/8/5K2/8/8/8/8/R7 w - - ; #2\n3:  \t\n4: x\n",
        ),
        (
            1,
            "[1] 7k/8/5K2/8/8/8/8/R7 w - -\n#2 7k/8/5K2/8/8/8/8/R7 w - -",
            "1: 7k/8/5K2/8/8/8/8/R7 w - -\n2: 7k/8/5K2/8/8/8/8/R7 w - -\n",
        ),
        (
            1,
            "FEN: 7k/8/5K2/8/8/8/8/R7 w - -\n",
            "1: 7k/8/5K2/8/8/8/8/R7 w - -\n",
        ),
        (
            1,
            " 12.  fen   7k/8/5K2/8/8/8/8/R7 b - -\n1.Ra2",
            "1: 7k/8/5K2/8/8/8/8/R7 b - - ; 1.Ra2\n",
        ),
        (
            1,
            "\u{2022} 7k/8/5K2/8/8/8/8/R7 w - -",
            "1: 7k/8/5K2/8/8/8/8/R7 w - -\n",
        ),
        (
            1,
            "No. 7k/8/5K2/8/8/8/8/R7 w - -\nx",
            "1: No. 7k/8/5K2/8/8/8/8/R7 w - -\n2: x\n",
        ),
        (
            1,
            "7k/8/5K2/8/8/8/8/R7 w - - dm 2;\nx",
            "1: 7k/8/5K2/8/8/8/8/R7 w - - dm 2;\n2: x\n",
        ),
        (
            1,
            "7k/8/5K2/8/8/8/8/R7 w - -\nx\n[Event \"x\"]\ny",
            "1: 7k/8/5K2/8/8/8/8/R7 w - - ; x\n3: [Event \"x\"]\n4: y\n",
        ),
        (
            1,
            "7k/8/5K2/8/8/8/8/R7 w - -\n---\nx",
            "1: 7k/8/5K2/8/8/8/8/R7 w - -\n2: ---\n3: x\n",
        ),
        (
            1,
            "7k/8/5K2/8/8/8/8/R7 w - -\n#2 dm\n# x\ny",
            "1: 7k/8/5K2/8/8/8/8/R7 w - - ; #2 dm\n3: # x\n4: y\n",
        ),
        (
            1,
            "7k/8/5K2/8/8/8/8/R7 w - -\nBEGINPROBLEM",
            "1: 7k/8/5K2/8/8/8/8/R7 w - -\n2: BEGINPROBLEM\n",
        ),
        (
            1,
            "7k/8/5K2/8/8/8/8/R7 w - -\nx\nA 7k/8/5K2/8/8/8/8/R7 w",
            "1: 7k/8/5K2/8/8/8/8/R7 w - - ; x\n3: A 7k/8/5K2/8/8/8/8/R7 w\n",
        ),
        (
            1,
            "7k/8/5K2/8/8/8/R7 w - -\nx",
            "1: 7k/8/5K2/8/8/8/R7 w - -\n2: x\n",
        ),
        (
            2,
            "7k/8/5K2/8/8/8/8/R7 w - -\nx\n\n7k/8/5K2/8/8/8/8/R7 w - -\ny",
            "4: 7k/8/5K2/8/8/8/8/R7 w - - ; y\n",
        ),
        (
            1,
            "7k/8/5K2/8/8/8/8/R7 w - -\nx\r\r\ny",
            "1: 7k/8/5K2/8/8/8/8/R7 w - - ; x\r ; y\n",
        ),
        (1, "", ""),
    ];
    for (from, input, wanted) in &TABLE {
        check(&rt, rt.alloc(), *from, input, wanted);
    }
}

#[test]
fn keeps_no_more_than_a_record(rt: HostRuntime) {
    // The position has 25 bytes, and 3 stand before what it takes on.
    static TABLE: [(usize, usize, &str); 3] = [
        (994, 1, "1: 7k/8/5K2/8/8/8/8/R7 w - - ; "),
        (995, 1, "1: too long\n4: x\n"),
        (500, 2, "1: too long\n5: x\n"),
    ];
    for (spaces, times, wanted) in &TABLE {
        let spaces = *spaces;
        let line = format!(in rt.alloc(); "{:<spaces$}.\n", "").expect(&rt, wanted);
        let input = if *times == 1 {
            format!(in rt.alloc(); "7k/8/5K2/8/8/8/8/R7 w - -\n{line}\nx")
        } else {
            format!(in rt.alloc(); "7k/8/5K2/8/8/8/8/R7 w - -\n{line}{line}\nx")
        };
        let whole = format!(in rt.alloc(); "{wanted}{:<spaces$}.\n4: x\n", "").expect(&rt, wanted);
        let wanted = if spaces == 994 {
            whole.as_str()
        } else {
            wanted
        };
        check(
            &rt,
            rt.alloc(),
            1,
            input.expect(&rt, wanted).as_str(),
            wanted,
        );
    }
}
