//! Callers of `plain_commands`: how commands end, at work. Where the output and the files are known, that names every byte that is written.

ghost use Rattle.std.specs.Prelude.{◌≡◌, IfOk, IfSome, List, Some, ℕ, ◌∷◌, [], codes, map};
ghost use Rattle.std.specs.String.{string_bytes};
ghost use Rattle.plain_commands.specs.Command.{EndsBy};

use chess_board::spells_one;
use chess_notation::records_clear;
use file_answers::{Source, SourceFault, whole};
use plain_commands::plain_command;
use std::alloc::{AllocError, Global};
use text_lines::Progress;

/// Two files, `one` and `two`, and under every other name what `two` holds. None is refused, and none breaks off.
struct TwoFiles;

/// Nobody is told how far they are answered.
impl Progress for TwoFiles {}

impl Source for TwoFiles {
    ghost use Rattle.std.specs.Prelude.{Some, if◌then◌else◌};
    ghost use Rattle.std.specs.Str.{bytes_eq};

    type File = &'static [u8];

    ghost holds = { λ _ name. Some (if bytes_eq name (codes "one") then codes "8/8\n" else codes " \n8/8") };

    ghost refuses = { λ _ _. ⊥ };

    fn open(&self, _alloc: Global, name: &str) -> Result<&'static [u8], SourceFault> {
        if name == "one" {
            Ok("8/8\n".as_bytes())
        } else {
            Ok(" \n8/8".as_bytes())
        }
    }

    fn read(&self, alloc: Global, name: &str) -> Result<Vec<u8>, SourceFault> {
        whole(alloc, self.open(alloc, name)?)
    }
}

/// The words of `look` for two kings.
fn look_words(alloc: Global) -> Result<[String; 3], AllocError>
    ensures { IfOk result (λ words. map string_bytes words ≡ codes "matedesk" ∷ codes "look" ∷ codes "k7/8/8/8/8/8/8/7K w - - 0 1" ∷ []) }
{
    Ok([
        String::from_str(alloc, "matedesk")?,
        String::from_str(alloc, "look")?,
        String::from_str(alloc, "k7/8/8/8/8/8/8/7K w - - 0 1")?,
    ])
}

/// The words of `solve` for two files.
fn solve_words(alloc: Global) -> Result<[String; 4], AllocError>
    ensures { IfOk result (λ words. map string_bytes words ≡ codes "matedesk" ∷ codes "solve" ∷ codes "one" ∷ codes "two" ∷ []) }
{
    Ok([
        String::from_str(alloc, "matedesk")?,
        String::from_str(alloc, "solve")?,
        String::from_str(alloc, "one")?,
        String::from_str(alloc, "two")?,
    ])
}

/// What `look` writes of two kings, where it answers.
pub fn look_written(alloc: Global) -> Option<Vec<u8>>
    ensures { IfSome result (λ out. out.items ≡ codes "k7/8/8/8/8/8/8/7K w - - 0 1\nno check\n") }
{
    spells_one();
    let Ok(words) = look_words(alloc) else {
        return None;
    };
    let mut out = Vec::new(alloc);
    let mut err = Vec::new(alloc);
    match plain_command(alloc, words.as_slice(), &TwoFiles, &mut out, &mut err) {
        Some(0) => Some(out),
        _ => None,
    }
}

/// What `solve` writes of two files with a line of two fields each, where it answers.
pub fn solve_written(alloc: Global) -> Option<Vec<u8>>
    ensures { IfSome result (λ out. out.items ≡ codes "# line 1: Fen FieldCount\n# line 2: Fen FieldCount\n") }
{
    records_clear();
    let Ok(words) = solve_words(alloc) else {
        return None;
    };
    let mut out = Vec::new(alloc);
    let mut err = Vec::new(alloc);
    match plain_command(alloc, words.as_slice(), &TwoFiles, &mut out, &mut err) {
        Some(1) => Some(out),
        _ => None,
    }
}

/// What `serve` has written of such files by two workers, where it ends with 1. It does nothing: its contract is the law.
pub fn serve_written<S: Source>(source: &S)
    ensures { (out : List ℕ) → S.holds source.now (codes "one") ≡ Some (codes "8/8\n") → S.holds source.now (codes "two") ≡ Some (codes " \n8/8")
        → EndsBy (S.holds source.now) (S.refuses source.now)
        (codes "matedesk" ∷ codes "serve" ∷ codes "--workers" ∷ codes "2" ∷ codes "one" ∷ codes "two" ∷ []) 1 (Some []) (Some out)
        → out ≡ codes "# line 1: Fen FieldCount\n# line 2: Fen FieldCount\n" }
{
    records_clear();
}
