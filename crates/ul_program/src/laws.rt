//! Laws of what the program answers.
ghost use Rattle.ul_program.specs.Headline.{ReadAnswer, ToldAnswer, ToldOutput};

/// Where the files tell their contents, the sink tells its bytes and neither count of faults rises, the answer was appended,
/// or the status is 7 and nothing was appended.
pub fn told_answer()
    ensures { ToldAnswer }
{}

/// Over any files and any sink, where neither count of faults rises: over each map of files that agrees with what was read, the
/// answer was given in one piece, or the status is 7.
pub fn read_answer()
    ensures { ReadAnswer }
{}

/// Where the files tell their contents, each output of a call says of them what it says of what was read.
pub fn told_output()
    ensures { ToldOutput }
{}
