//! What holds of the answers of the commands. None of these functions does anything but name the laws that it rests on.
ghost use Rattle.laws_commands.specs.Answers.{AnswersAreEqual, AnswersAreOne, WhyFollowsLock};
ghost use Rattle.laws_commands.specs.Complete.{InputsAreAnswered, LocksWithinLimits};
ghost use Rattle.laws_commands.specs.Environments.{EnvironmentsOfFiles, EnvironmentsOfLocks};
ghost use Rattle.laws_commands.specs.Exports.{ExportsOfFiles, ExportsOfVerifiedFiles};
ghost use Rattle.laws_commands.specs.Lower.{LowerLaws};
ghost use Rattle.laws_commands.specs.Printed.{PrintedLaws};
ghost use Rattle.laws_commands.specs.Reads.{AnswersByWhatIsRead};
ghost use Rattle.laws_commands.specs.Reasons.{AcceptedAreUnserved, FilesAreAccepted, ReasonsAreAccepted};
ghost use Rattle.laws_commands.specs.Refusals.{ReasonsOfFiles, RefusalsOfFiles};
ghost use Rattle.laws_commands.specs.Statuses.{StatusesOfFiles, StatusesOfVerifiedFiles};
ghost use Rattle.laws_commands.specs.Verified.{EnvironmentsOfVerified, EnvironmentsOfVerifiedFiles};
ghost use Rattle.laws_commands.specs.Verified.{LocksAreVerified, VerifiedAreSound, VerifiedFilesAreSound};
ghost use Rattle.laws_commands.specs.WellFormed.{ForksMerge, GivenAreWellFormed, LocksAreWellFormed};
ghost use Rattle.laws_commands.specs.Workers.{OneAnswerForAll, WorkersDontMatter};
ghost use Rattle.ul_lock_read.specs.Laws.{OneFault};

// A lock's text has at most one fault: the law by a name of its own.
fn lock_faults()
    ensures { OneFault }
{
    ul_lock_read::laws::one_fault();
}

// Each input, each outcome and each verdict is one.
fn lower_laws()
    ensures { LowerLaws }
{
    ul_project::laws::one_project();
    ul_load::laws::turns_agree();
    ul_lock_read::laws::text_laws();
    lock_faults();
    ul_report_read::laws::one_text();
    ul_report_read::laws::one_fault();
    ul_forks::laws::fork_laws();
    ul_sound::laws::merge_laws();
    ul_reach::laws::row_promises();
    ul_blame::laws::core_laws();
    ul_placing::laws::equal_problems();
    ul_report_judge::laws::faults();
}

/// Each question has at most one answer on the same files, but for the steps that `why` tells.
pub fn answers_are_one()
    ensures { AnswersAreOne }
{
    lower_laws();
}

/// All answers to another question than why there is no lock are equal.
pub fn answers_are_equal()
    ensures { AnswersAreEqual }
{
    lower_laws();
}

/// Where each input is read, a command answers what the inputs say.
pub fn inputs_are_answered()
    ensures { InputsAreAnswered }
{
    lower_laws();
}

/// `lock` ends with status 0 exactly where no fork is refused and the lock is within its limits.
pub fn locks_within_limits()
    ensures { LocksWithinLimits }
{}

/// On the same files `why` tells the fork that `lock` tells, or that there is none.
pub fn why_follows_lock()
    ensures { WhyFollowsLock }
{
    ul_project::laws::one_project();
    ul_load::laws::turns_agree();
    ul_lock_read::laws::text_laws();
    lock_faults();
    ul_forks::laws::fork_laws();
}

/// Another number of workers changes neither the answers nor the paths that are read.
pub fn workers_dont_matter()
    ensures { WorkersDontMatter }
{}

/// Of files that have the same at each path which is read for it, a question has the same answers, and the same paths are read.
pub fn answers_by_what_is_read()
    ensures { AnswersByWhatIsRead }
{
    laws_frames::laws::inputs_by_what_is_read();
}

/// So there is one answer for all numbers of workers.
pub fn one_answer_for_all()
    ensures { OneAnswerForAll }
{
    answers_are_one();
    workers_dont_matter();
}

/// What `why` prints of a refused fork is a derivation file that `check` accepts.
pub fn reasons_are_accepted()
    ensures texts { ReasonsAreAccepted }
    ensures files { FilesAreAccepted }
{
    laws_frames::laws::inputs_by_what_is_read();
    ul_commands::laws::refused_are_unserved();
    ul_tree::laws::no_extra();
    ul_report_read::laws::printed_is_read();
    ul_report_judge::laws::printed_is_accepted();
    laws_given::laws::given_is_resolution();
    laws_given::laws::given_has_texts();
}

/// No selection serves the region of a derivation that `check` accepts.
pub fn accepted_are_unserved()
    ensures { AcceptedAreUnserved }
{
    ul_derivation::laws::accepted_law();
    ul_region::laws::nothing_serves();
}

/// No selection serves the fork that `lock` or `why` tells of files, under `deep` at none of its worlds.
pub fn refusals_of_files()
    ensures locks { RefusalsOfFiles }
    ensures reasons { ReasonsOfFiles }
{
    inputs_are_answered();
    laws_given::laws::given_is_resolution();
    ul_commands::laws::refused_are_unserved();
}

/// The leaves of a fork answer can be merged.
pub fn forks_merge()
    ensures { ForksMerge }
{
    ul_forks::laws::fork_laws();
    ul_tree::laws::has_world();
    ul_tree::laws::no_extra();
}

/// A lock that is answered is well formed, so that what is printed of it is read as the lock.
pub fn locks_are_well_formed()
    ensures { LocksAreWellFormed }
{
    forks_merge();
    ul_sound::laws::merge_laws();
}

/// So is each lock that `lock` gives of files.
pub fn given_are_well_formed()
    ensures { GivenAreWellFormed }
{
    locks_are_well_formed();
    laws_given::laws::given_is_resolution();
    laws_given::laws::given_has_texts();
}

/// What is printed of a lock rests on these laws.
pub fn printed_laws()
    ensures { PrintedLaws }
{
    laws_given::laws::given_is_resolution();
    laws_given::laws::given_has_texts();
    ul_commands::laws::locks_are_sound();
    locks_are_well_formed();
    ul_lock_read::laws::text_laws();
    ul_verified::laws::verified_laws();
}

/// What `env` prints of a lock that `lock` gives lists exactly what is required in the machine's world.
pub fn environments_of_locks()
    ensures { EnvironmentsOfLocks }
{
    ul_commands::laws::locks_are_sound();
    locks_are_well_formed();
    ul_sound::laws::merge_laws();
    ul_version::laws::text_reads_back();
    ul_lock::laws::walk_laws();
    ul_filter::laws::more_comparisons();
}

/// So it is where the lock was printed into a file.
pub fn environments_of_files()
    ensures { EnvironmentsOfFiles }
{
    environments_of_locks();
    ul_commands::laws::locks_are_sound();
    given_are_well_formed();
    laws_given::laws::given_is_resolution();
    laws_given::laws::given_has_texts();
    ul_project::laws::one_project();
    ul_load::laws::turns_agree();
    ul_lock_read::laws::text_laws();
    lock_faults();
}

/// A lock that `verify` accepts is right in every world that the project supports.
pub fn verified_are_sound()
    ensures { VerifiedAreSound }
{
    ul_verified::laws::verified_laws();
}

/// What `env` prints of a lock that `verify` accepts lists exactly what is required in the machine's world.
pub fn environments_of_verified()
    ensures { EnvironmentsOfVerified }
{
    verified_are_sound();
    ul_version::laws::text_reads_back();
    ul_lock::laws::walk_laws();
    ul_filter::laws::more_comparisons();
}

/// So it is of the lock of a lock file; and with extras of the project `env` of it ends with status 0 exactly where the
/// project supports the machine's world and each word is a name.
pub fn verified_files()
    ensures sound { VerifiedFilesAreSound }
    ensures environments { EnvironmentsOfVerifiedFiles }
    ensures statuses { StatusesOfVerifiedFiles }
{
    inputs_are_answered();
    verified_are_sound();
    environments_of_verified();
    ul_filter::laws::more_comparisons();
}

/// `verify` accepts what `lock` printed, put into a file beside the same ones; and with extras of the project `env` of it
/// ends with status 0 exactly where the project supports the machine's world and each word is a name.
pub fn locks_are_verified()
    ensures verified { LocksAreVerified }
    ensures statuses { StatusesOfFiles }
{
    laws_frames::laws::inputs_by_what_is_read();
    inputs_are_answered();
    ul_filter::laws::more_comparisons();
    printed_laws();
}

/// What `export` prints of a lock that `lock` printed or `verify` accepted is, in each world that the project supports, exactly
/// what is required there.
pub fn exports_are_right()
    ensures printed { ExportsOfFiles }
    ensures verified { ExportsOfVerifiedFiles }
{
    inputs_are_answered();
    ul_lock_commands::laws::exports_are_exact();
    ul_commands::laws::locks_are_sound();
    printed_laws();
    verified_files();
}
