//! Laws of derivation files. None of these functions does anything; one rests on a law of samples.
ghost use Rattle.ul_report_read.specs.Laws.{OneFault, OneTextOneProof, PrintedIsRead};

use ul_tree::laws::sample_holds;

/// Different proofs have different texts.
pub fn one_text()
    ensures { OneTextOneProof }
{
    sample_holds();
}

/// What `refusal` and `steps` print of right steps of a problem is read as what was printed.
pub fn printed_is_read()
    ensures { PrintedIsRead }
{}

/// A text has at most one wrong line that is the first, and none where it is a derivation file.
pub fn one_fault()
    ensures { OneFault }
{}
