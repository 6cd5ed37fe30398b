//! Laws of what is answered of locks. None of these functions does anything but name the laws that they rest on.
ghost use Rattle.ul_lock_commands.specs.Exports.{ExportsAreExact};

/// What `export` answers of a lock says what the lock gives in each world that it supports.
pub fn exports_are_exact()
    ensures { ExportsAreExact }
{
    ul_reach::laws::row_promises();
}
