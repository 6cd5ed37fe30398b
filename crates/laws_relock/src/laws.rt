//! A lock that is answered has the files of today, and each extra of its root is asked for; what a lock keeps that is
//! given the files of today; a lock that is printed stays, an old lock does no harm, and a lock of one fork is answered
//! again where its versions come first. None of these functions does anything but name the laws that it rests on.
ghost use Rattle.laws_relock.specs.Again.{LevelVersionsAreEqual, OneForkStays};
ghost use Rattle.laws_relock.specs.Harmless.{OldLocksAreHarmless, RefusalsAreAnew};
ghost use Rattle.laws_relock.specs.LockedAgain.{LocksAreLockedAgain};
ghost use Rattle.laws_relock.specs.Settled.{LocksAreSettled, RelocksAreSettled, SettledPromises};
ghost use Rattle.laws_relock.specs.Texts.{OneForkIsPrintedAgain, PrintedLocksAreSettled, PrintedRelocksAreSettled};
ghost use Rattle.laws_relock.specs.Texts.{SettledTextPromises};
ghost use Rattle.laws_relock.specs.Answered.{FilesAreDocuments, RefreshedPromises, RootsListNoOther};

/// The packages of a lock that is answered have the files of the documents.
pub fn files_are_documents()
    ensures { FilesAreDocuments }
{}

/// Each extra of its root is one of the project's, or some edge leads to it.
pub fn roots_list_no_other()
    ensures { RootsListNoOther }
{
    ul_forks::laws::fork_laws();
}

/// A lock that is given the files of today is verified and well formed where it was.
pub fn refreshed_locks()
    ensures { RefreshedPromises }
{}

/// Eligible versions that are level are equal, where the versions of each package's releases differ.
pub fn level_versions()
    ensures { LevelVersionsAreEqual }
{
    ul_index::laws::eligible_same();
}

/// A lock of one fork is answered again where its versions come first.
pub fn one_fork_stays()
    ensures { OneForkStays }
{
    ul_forks::laws::fork_laws();
    ul_tree::laws::one_truth();
    ul_tree::laws::has_world();
    ul_tree::laws::no_extra();
    ul_index::laws::eligible_same();
    ul_index::laws::preference_same();
    ul_commands::laws::locks_are_sound();
}

/// A lock that `lock` or `relock` gives of files is settled.
pub fn locks_are_settled()
    ensures locks { LocksAreSettled }
    ensures relocks { RelocksAreSettled }
{
    files_are_documents();
    roots_list_no_other();
    laws_commands::laws::printed_laws();
}

/// A settled lock is given again by `relock`, accepted by `verify`, and right in every world; and it is settled
/// beside other files too that have the same for the project and the index.
pub fn settled_locks()
    ensures { SettledPromises }
{
    laws_frames::laws::inputs_by_what_is_read();
    ul_verified::laws::verified_laws();
    ul_lock_read::laws::text_laws();
}

/// An old lock does no harm.
pub fn old_locks_are_harmless()
    ensures zero { OldLocksAreHarmless }
    ensures one { RefusalsAreAnew }
{
    laws_commands::laws::answers_are_equal();
    ul_lock_read::laws::text_laws();
    ul_lock_read::laws::one_fault();
}

/// So `lock` with it as the old lock gives it again.
pub fn locks_are_locked_again()
    ensures { LocksAreLockedAgain }
{
    laws_frames::laws::inputs_by_what_is_read();
    one_fork_stays();
    files_are_documents();
    roots_list_no_other();
    laws_commands::laws::printed_laws();
}

/// What `lock` or `relock` prints with status 0 is the text of a settled lock.
pub fn printed_are_settled()
    ensures locks { PrintedLocksAreSettled }
    ensures relocks { PrintedRelocksAreSettled }
{
    laws_commands::laws::locks_within_limits();
    locks_are_settled();
}

/// Such a text, put into a file, is printed by `relock` with it and accepted by `verify`.
pub fn settled_texts()
    ensures { SettledTextPromises }
{
    settled_locks();
}

/// A lock of one fork that `lock` printed is printed again by `lock` with it as the old lock.
pub fn one_fork_printed()
    ensures { OneForkIsPrintedAgain }
{
    laws_commands::laws::locks_within_limits();
    locks_are_settled();
    locks_are_locked_again();
    ul_lock_read::laws::text_laws();
}
