//! Scripts: a desk and what is done with it, line by line.

ghost use Rattle.std.specs.Prelude.{◌≡◌, ◌≢◌, IfErr, IfOk, Some, map};
ghost use Rattle.desk_scripts.specs.Scripts.{AreRefused, IsRefused, IsScript, ScriptValue, SpellEach, script_fault_name, script_value, step_value};
ghost use Rattle.desk_scripts.specs.inside.ScriptReading.{IsStepFault, line_value, step_of};

use crate::script_desk::read_desk;
use crate::script_lines::{Line, Lines};
use crate::script_steps::read_step;
use chess_problems::Bound;
use mate_desk::Step;
use std::alloc::{AllocError, AllocFailed, Global};

/// A desk, and what is done with it.
#[derive(Drop)]
pub struct Script {
    /// How many submitters the desk has.
    pub submitters: usize,
    /// For how many pending records each of them has room.
    pub room: usize,
    /// Within how many moves mate is asked for where a record doesn't say.
    pub bound: Bound,
    pub steps: Vec<Step>,
}

/// Why a text is not read as a script.
#[derive(Clone, Copy, Debug, PartialEq, Eq)]
pub enum ScriptFault {
    /// The line of this number, counted from 1, is not what it should be there; 0 where all lines are blank.
    Line(usize),
    /// Memory was refused.
    NoMemory,
}

impl ScriptFault {
    /// The fault's name.
    pub fn code(&self) -> &'static str
        ensures { result.now ≡ script_fault_name self.now }
    {
        match self {
            ScriptFault::Line(_) => "Line",
            ScriptFault::NoMemory => "NoMemory",
        }
    }
}

impl From<AllocError> for ScriptFault {
    ghost use Rattle.std.specs.Prelude.{◌≡◌};
    ghost use Rattle.desk_scripts.specs.declared.scripts.ScriptFault.TheVariants.{NoMemory};

    ghost from_gives = { λ _ fault. fault ≡ NoMemory };

    fn from(_fault: AllocError) -> ScriptFault {
        ScriptFault::NoMemory
    }
}

impl From<AllocFailed<Step>> for ScriptFault {
    ghost use Rattle.std.specs.Prelude.{◌≡◌};
    ghost use Rattle.desk_scripts.specs.declared.scripts.ScriptFault.TheVariants.{NoMemory};

    ghost from_gives = { λ _ fault. fault ≡ NoMemory };

    fn from(_fault: AllocFailed<Step>) -> ScriptFault {
        ScriptFault::NoMemory
    }
}

/// The step that a line says, or why it is refused.
fn read_line(alloc: Global, line: Line) -> Result<Step, ScriptFault>
    ensures step { IfOk result (λ step. Some (step_value step) ≡ step_of line.entry.text.now) }
    ensures refused { IfErr result (λ fault. IsStepFault (line_value line.entry) fault) }
{
    match read_step(alloc, line.text)? {
        Some(step) => Ok(step),
        None => Err(ScriptFault::Line(line.number)),
    }
}

/// Reads lines of steps to their end, or to the first that is none.
fn read_steps(alloc: Global, lines: &mut Lines) -> Result<Vec<Step>, ScriptFault>
    ensures steps { IfOk result (λ steps. SpellEach lines.old (map step_value steps.items)) }
    ensures refused { IfErr result (λ fault. AreRefused lines.old fault) }
{
    let mut steps = Vec::new(alloc);
    while let Some(line) = lines.next() {
        let step = read_line(alloc, line)?;
        steps.push(step)?;
    }
    Ok(steps)
}

/// Reads a script. A line that is at fault is named by its number, the first of them where there are more; lines behind it are
/// not looked at, and neither are lines behind a step for which memory is refused.
pub fn read_script(alloc: Global, text: &[u8]) -> Result<Script, ScriptFault>
    ensures script { IfOk result (λ script. IsScript text.now (script_value script)) }
    ensures only { IfOk result (λ script. (v : ScriptValue) → IsScript text.now v → v ≡ script_value script) }
    ensures refused { IfErr result (λ fault. IsRefused text.now fault) }
    ensures no_script { IfErr result (λ fault. fault ≢ ScriptFault.NoMemory → (v : ScriptValue) → ¬ IsScript text.now v) }
{
    let mut lines = Lines::new(text);
    let Some(opening) = lines.next() else {
        return Err(ScriptFault::Line(0));
    };
    let Some(desk) = read_desk(opening.text) else {
        return Err(ScriptFault::Line(opening.number));
    };
    Ok(Script {
        submitters: desk.submitters,
        room: desk.room,
        bound: desk.bound,
        steps: read_steps(alloc, &mut lines)?,
    })
}
