// What a script's text says is determined.
ghost use Rattle.df_lines.specs.Laws.{OneLineMeaning, OneListOfLines, OneScript, WholeScript};

/// A line says one thing at most, a text has one list of lines at most, and within a bound on a line and a budget of bytes
/// one script: the lines before the first that is refused. Where none is, these are the text's list of lines.
pub fn one_meaning()
    ensures line { OneLineMeaning }
    ensures text { OneListOfLines }
    ensures script { OneScript }
    ensures whole { WholeScript }
{}
