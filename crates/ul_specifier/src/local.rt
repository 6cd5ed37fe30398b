//! Whether a version has a local part.

ghost use Rattle.std.specs.Prelude.{◌≡◌};
ghost use Rattle.ul_specifier.specs.Clauses;

use ul_version::Version;

// Whether a version has a local part.
pub(crate) fn has_local(version: &Version) -> bool
    ensures { result ≡ Clauses.has_local version.now }
{
    !version.local.as_slice().is_empty()
}
