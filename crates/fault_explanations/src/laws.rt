//! A law about the definitions. The function here does nothing: its contract is the law.

ghost use Rattle.fault_explanations.specs.Laws.{NoCodeRefused};

/// No code is refused: where replies are, none of their words is a code of a fault or a verdict, in any case.
pub fn no_code_refused()
    ensures { NoCodeRefused }
{}
