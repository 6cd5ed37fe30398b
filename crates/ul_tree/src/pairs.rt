//! Two values, of which both are made, or one is kept.
ghost use Rattle.std.specs.Prelude.{◌≡◌, IfOk, Ok};

use std::alloc::AllocError;

/// What two calls made; the one is let go where the other found no memory.
pub fn made_both<T: Drop, S: Drop>(
    first: Result<T, AllocError>,
    second: Result<S, AllocError>,
) -> Result<(T, S), AllocError>
    ensures { IfOk result (λ made. (first ≡ Ok made.0) × (second ≡ Ok made.1)) }
{
    match first {
        Ok(one) => match second {
            Ok(other) => Ok((one, other)),
            Err(fault) => Err(fault),
        },
        Err(fault) => Err(fault),
    }
}

/// A value that is kept; the other is let go.
pub fn kept<T: Drop, S: Drop>(value: T, _other: S) -> T
    ensures { result ≡ value }
{
    value
}
