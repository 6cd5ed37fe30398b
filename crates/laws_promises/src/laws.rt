//! The promises of `lock`, `relock`, `why`, `check`, `verify`, `env`, `export` and `marker`, as they end with a status
//! and print bytes, and of the calls of `run` that do so. None of these functions does anything but name the laws that it
//! rests on.
ghost use Rattle.laws_promises.specs.Comparisons.{LocksAskTheirs};
ghost use Rattle.laws_promises.specs.Endings.{DeepRefusesNoFork, LocksEnd, ReasonsEnd, RelocksEnd};
ghost use Rattle.laws_promises.specs.Exports.{ExportsAreRequirements, ExportsAreRight, VerifiedExportsAreRight};
ghost use Rattle.laws_promises.specs.Markers.{MarkersAreCanonical};
ghost use Rattle.laws_promises.specs.Relocked.{OldLocksDoNoHarm, OneForkIsLockedAgain, RefusalsAreOfNone};
ghost use Rattle.laws_promises.specs.Relocked.{RelocksAreRight, RelocksAreVerified, RightLocksStay};
ghost use Rattle.laws_promises.specs.Repeated.{ReasonsPrintTheSame, RunsPrintTheSame};
ghost use Rattle.laws_promises.specs.Runs.{RunsGiveAnswers, RunsOfLockAreRight};
ghost use Rattle.laws_promises.specs.Promises.{AcceptedAreRight, EnvironmentsAreRight, LocksAreRight};
ghost use Rattle.laws_promises.specs.Promises.{PrintedAreAccepted, PrintedAreVerified, QuestionsAreAnswered};
ghost use Rattle.laws_promises.specs.Promises.{ReasonsAreRight, RefusalsAreRight, RegionsAreDecided};
ghost use Rattle.laws_promises.specs.Promises.{VerifiedAreRight, VerifiedEnvironmentsAreRight, WorkersChangeNothing};

/// What `lock` prints with status 0 is the text of a lock that is right in every world.
pub fn locks_are_right()
    ensures { LocksAreRight }
{
    laws_commands::laws::locks_within_limits();
    laws_given::laws::given_is_resolution();
    laws_given::laws::given_has_texts();
    laws_commands::laws::locks_are_well_formed();
    ul_commands::laws::locks_are_sound();
}

/// `verify` accepts it.
pub fn printed_are_verified()
    ensures { PrintedAreVerified }
{
    laws_commands::laws::locks_within_limits();
    laws_commands::laws::locks_are_verified();
}

/// With names of the project's extras `env` of it ends with status 0 exactly where the project supports the machine's
/// world, and then lists exactly what is required there.
pub fn environments_are_right()
    ensures { EnvironmentsAreRight }
{
    laws_comparisons::laws::machines_have_worlds();
    laws_comparisons::laws::locks_have_atoms();
    laws_given::laws::given_is_resolution();
    laws_given::laws::given_has_texts();
    laws_commands::laws::locks_are_well_formed();
    laws_commands::laws::locks_within_limits();
    laws_commands::laws::environments_of_files();
    laws_commands::laws::locks_are_verified();
}

/// It asks no opaque comparisons but those that its project and its documents ask.
pub fn locks_ask_theirs()
    ensures { LocksAskTheirs }
{
    laws_comparisons::laws::merged_ask_theirs();
    laws_commands::laws::inputs_are_answered();
    laws_commands::laws::locks_within_limits();
}

/// What `lock` prints with status 1 is a fork that no selection serves, with its core.
pub fn refusals_are_right()
    ensures { RefusalsAreRight }
{
    ul_forks::laws::fork_laws();
    laws_given::laws::given_is_resolution();
    ul_commands::laws::refused_are_unserved();
}

/// What `why` prints with status 1 is such a fork, with a derivation.
pub fn reasons_are_right()
    ensures { ReasonsAreRight }
{
    ul_forks::laws::fork_laws();
    laws_commands::laws::refusals_of_files();
}

/// `check` accepts it.
pub fn printed_are_accepted()
    ensures { PrintedAreAccepted }
{
    ul_forks::laws::fork_laws();
    laws_commands::laws::reasons_are_accepted();
}

/// A lock that `verify` accepts is right in every world, and what `env` answers of it is right too.
pub fn verified_are_right()
    ensures locks { VerifiedAreRight }
    ensures environments { VerifiedEnvironmentsAreRight }
{
    laws_comparisons::laws::machines_have_worlds();
    laws_comparisons::laws::locks_have_atoms();
    laws_commands::laws::verified_files();
}

/// What `export` prints of a lock that `lock` printed or `verify` accepted is, in each world, exactly what is required;
/// and its lines, of any lock, are read as requirements that ask for what the lock gives. Of a lock that `lock` printed
/// each line has a reading.
pub fn exports_are_right()
    ensures printed { ExportsAreRight }
    ensures verified { VerifiedExportsAreRight }
    ensures requirements { ExportsAreRequirements }
{
    laws_commands::laws::inputs_are_answered();
    laws_commands::laws::locks_within_limits();
    laws_commands::laws::printed_laws();
    laws_commands::laws::exports_are_right();
    laws_comparisons::laws::merged_ask_theirs();
    laws_comparisons::laws::walks_ask_theirs();
    laws_comparisons::laws::asked_have_no_extras();
    laws_existence::laws::given_has_no_extras();
    laws_exports::laws::lines_are_read();
}

/// What `lock` or `relock` printed with status 0, put into a file, is printed by `relock` with that file, byte for byte;
/// and what `relock` prints is verified, and right in every world.
pub fn right_locks_stay()
    ensures stay { RightLocksStay }
    ensures verified { RelocksAreVerified }
    ensures right { RelocksAreRight }
{
    laws_relock::laws::printed_are_settled();
    laws_relock::laws::settled_texts();
    laws_relock::laws::settled_locks();
}

/// An old lock does no harm: with one that is read `relock` has status 0 where `lock` without it has, and what it
/// refuses, `lock` refuses without it by the same bytes.
pub fn old_locks_do_no_harm()
    ensures zero { OldLocksDoNoHarm }
    ensures one { RefusalsAreOfNone }
{
    laws_relock::laws::old_locks_are_harmless();
}

/// A lock of one fork that `lock` printed is printed again by `lock` with it as the old lock.
pub fn one_fork_is_locked_again()
    ensures { OneForkIsLockedAgain }
{
    laws_relock::laws::one_fork_printed();
    laws_relock::laws::level_versions();
    laws_existence::laws::given_is_askable();
}

/// What `marker` prints of a file with status 0 has a line for each line of it, which says the same in each world; and
/// two of its lines are equal exactly where theirs are true in the same worlds.
pub fn markers_are_canonical()
    ensures { MarkersAreCanonical }
{
    ul_canonical::laws::canonical_markers();
}

/// No selection serves the region of a derivation that `check` accepts.
pub fn accepted_are_right()
    ensures { AcceptedAreRight }
{
    laws_commands::laws::accepted_are_unserved();
}

/// Another number of workers changes neither the status nor the bytes.
pub fn workers_change_nothing()
    ensures { WorkersChangeNothing }
{
    laws_commands::laws::workers_dont_matter();
}

/// So two runs print the same, but for the steps that `why` tells.
pub fn runs_print_the_same()
    ensures runs { RunsPrintTheSame }
    ensures reasons { ReasonsPrintTheSame }
{
    ul_forks::laws::fork_laws();
    laws_commands::laws::answers_are_one();
    laws_commands::laws::answers_are_equal();
    workers_change_nothing();
}

/// By its headline a call of `run` gives its sink an answer, unless its status tells a fault of the system; so what a call
/// of `lock` with status 0 gives is a lock that is right in every world.
pub fn runs_give_answers()
    ensures answers { RunsGiveAnswers }
    ensures locks { RunsOfLockAreRight }
{
    locks_are_right();
}

/// Where their inputs are read, `lock`, `why` and `relock` end with status 0, 1 or 4, and 4 tells one of three limits.
pub fn endings()
    ensures locks { LocksEnd }
    ensures reasons { ReasonsEnd }
    ensures relocks { RelocksEnd }
{
    laws_commands::laws::inputs_are_answered();
}

/// Under `deep` no fork is refused where each world that the project supports has a selection.
pub fn deep_refuses_no_fork()
    ensures { DeepRefusesNoFork }
{
    laws_commands::laws::inputs_are_answered();
    laws_given::laws::given_is_resolution();
    ul_forks::laws::fork_laws();
    ul_commands::laws::refused_are_unserved();
}

/// Each list of words has an answer on every map of files.
pub fn questions_are_answered()
    ensures { QuestionsAreAnswered }
{
    laws_existence::laws::answers_exist();
}

/// Of what files give each region is decided: it has a best selection exactly where some selection serves it, an
/// outcome, and a fork answer.
pub fn regions_are_decided()
    ensures { RegionsAreDecided }
{
    laws_existence::laws::given_is_askable();
    laws_forks::laws::best_where_served();
    laws_forks::laws::outcome_exists();
    laws_forks::laws::fork_answer_exists();
}
