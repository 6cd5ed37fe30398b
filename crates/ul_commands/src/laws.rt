//! Laws of what the commands answer. None of these functions does anything but name the laws that they rest on.
ghost use Rattle.ul_commands.specs.Laws.{DeepRefusesNone, ForksAreUnserved, LocksAreOfLeaves, LocksArePrintable, LocksAreSound, RefusedAreUnserved};

/// A lock that is answered is right in every world that the project supports: it is what leaves merge into that serve it. Each
/// of its markers is printable.
pub fn locks_are_sound()
    ensures sound { LocksAreSound }
    ensures leaves { LocksAreOfLeaves }
    ensures printable { LocksArePrintable }
{
    ul_forks::laws::fork_laws();
    ul_sound::laws::merge_laws();
}

/// A fork that is answered in place of a lock, or that is refused, has a world, and no selection serves it; under `deep` none
/// serves a single world of it.
pub fn refused_are_unserved()
    ensures answers { RefusedAreUnserved }
    ensures forks { ForksAreUnserved }
{
    ul_forks::laws::fork_laws();
    ul_tree::laws::has_world();
    ul_tree::laws::no_extra();
}

/// Where each world that the project supports has a selection that serves it, no fork is answered under `deep`.
pub fn deep_refuses_none()
    ensures { DeepRefusesNone }
{
    ul_forks::laws::fork_laws();
    ul_tree::laws::has_world();
    ul_tree::laws::no_extra();
}
