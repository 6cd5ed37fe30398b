//! Rows of pieces: the result of one, the first and the last of several, and what stands after branches.
ghost use Rattle.std.specs.Prelude.{◌≡◌};
ghost use Rattle.ul_nodes.specs.Rows.{own_or, first_result, last_result, earliest, latest, last_part, standing_part};

use crate::level::Key;

/// A piece's own result, or another where it has none.
pub fn own_or<'a, T>(own: &'a Option<T>, otherwise: &'a T) -> &'a T
    ensures { result.now ≡ own_or own.now otherwise.now }
{
    match own {
        Some(result) => result,
        None => otherwise,
    }
}

/// The first result of pieces in order, or another where there is none.
pub fn first_result<'a, T>(results: &'a [(Key<'_>, Option<T>)], otherwise: &'a T) -> &'a T
    ensures { result.now ≡ first_result results.now otherwise.now }
{
    for entry in results {
        if let Some(result) = &entry.1 {
            return result;
        }
    }
    otherwise
}

/// The last result of pieces in order, or another where there is none.
pub fn last_result<'a, T>(results: &'a [(Key<'_>, Option<T>)], otherwise: &'a T) -> &'a T
    ensures { result.now ≡ last_result results.now otherwise.now }
{
    let mut found = otherwise;
    for entry in results {
        found = own_or(&entry.1, found);
    }
    found
}

/// The first result of all pieces, of which the one without a key is the first where branches are carried, else
/// the last.
pub fn earliest<'a, T>(
    carried: bool,
    results: &'a [(Key<'_>, Option<T>)],
    rest: &'a Option<T>,
    otherwise: &'a T,
) -> &'a T
    ensures { result.now ≡ earliest carried results.now rest.now otherwise.now }
{
    if carried {
        return own_or(rest, first_result(results, otherwise));
    }
    first_result(results, own_or(rest, otherwise))
}

/// The nearest result before the piece without a key, or the first of all.
pub fn latest<'a, T>(carried: bool, results: &'a [(Key<'_>, Option<T>)], first: &'a T) -> &'a T
    ensures { result.now ≡ latest carried results.now first.now }
{
    if carried {
        return first;
    }
    last_result(results, first)
}

/// The last part, or another where there is none.
pub fn last_part<'a, T>(parts: &'a [(Key<'_>, T)], otherwise: &'a T) -> &'a T
    ensures { result.now ≡ last_part parts.now otherwise.now }
{
    match parts.last() {
        Some(entry) => &entry.1,
        None => otherwise,
    }
}

/// The part that stands after branches: at the interpreter that of the last, elsewhere the other part.
pub fn standing<'a, T>(made: &'a [(Key<'_>, T)], other: &'a T, carried: bool) -> &'a T
    ensures { result.now ≡ standing_part carried made.now other.now }
{
    if carried {
        return last_part(made, other);
    }
    other
}
