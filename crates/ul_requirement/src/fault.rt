//! Why a text gives no requirement.

use std::alloc::{AllocError, AllocFailed};
use ul_base::NameFault;
use ul_marker::MarkerFault;
use ul_specifier::SpecFault;

/// Why a text gives no requirement.
#[derive(Clone, Copy, PartialEq, Eq, Debug)]
pub enum ReqFault {
    /// The text is a requirement by a URL: a name with extras, if any, is followed by `@`.
    Url,
    /// The text is no requirement.
    NoReading,
    /// Memory ran out, which says nothing of the text.
    NoMemory,
}

impl From<PartFault> for ReqFault {
    ghost use Rattle.std.specs.Prelude.{◌≡◌};
    ghost use Rattle.ul_requirement.specs.Answers.{fault_of_part};

    ghost from_gives = { λ f e. e ≡ fault_of_part f };

    fn from(fault: PartFault) -> ReqFault {
        match fault {
            PartFault::NoReading => ReqFault::NoReading,
            PartFault::NoMemory => ReqFault::NoMemory,
        }
    }
}

/// Why a part of a requirement's text has no reading.
#[derive(Clone, Copy, PartialEq, Eq, Debug)]
pub(crate) enum PartFault {
    /// The text isn't such a part.
    NoReading,
    /// Memory ran out.
    NoMemory,
}

impl From<AllocError> for PartFault {
    ghost use Rattle.std.specs.Prelude.{◌≡◌};
    ghost use Rattle.ul_requirement.specs.declared.fault.PartFault.TheVariants.{NoMemory};

    ghost from_gives = { λ _ e. e ≡ NoMemory };

    fn from(_: AllocError) -> PartFault {
        PartFault::NoMemory
    }
}

impl<T: Drop> From<AllocFailed<T>> for PartFault {
    ghost use Rattle.std.specs.Prelude.{◌≡◌};
    ghost use Rattle.ul_requirement.specs.declared.fault.PartFault.TheVariants.{NoMemory};

    ghost from_gives = { λ _ e. e ≡ NoMemory };

    fn from(_: AllocFailed<T>) -> PartFault {
        PartFault::NoMemory
    }
}

impl From<NameFault> for PartFault {
    ghost use Rattle.std.specs.Prelude.{◌≡◌};
    ghost use Rattle.ul_requirement.specs.Answers.{part_of_name};

    ghost from_gives = { λ f e. e ≡ part_of_name f };

    fn from(fault: NameFault) -> PartFault {
        match fault {
            NameFault::NoReading => PartFault::NoReading,
            NameFault::NoMemory => PartFault::NoMemory,
        }
    }
}

impl From<SpecFault> for PartFault {
    ghost use Rattle.std.specs.Prelude.{◌≡◌};
    ghost use Rattle.ul_requirement.specs.Answers.{part_of_spec};

    ghost from_gives = { λ f e. e ≡ part_of_spec f };

    fn from(fault: SpecFault) -> PartFault {
        match fault {
            SpecFault::NoReading => PartFault::NoReading,
            SpecFault::NoMemory => PartFault::NoMemory,
        }
    }
}

impl From<MarkerFault> for PartFault {
    ghost use Rattle.std.specs.Prelude.{◌≡◌};
    ghost use Rattle.ul_requirement.specs.Answers.{part_of_marker};

    ghost from_gives = { λ f e. e ≡ part_of_marker f };

    fn from(fault: MarkerFault) -> PartFault {
        match fault {
            MarkerFault::NoReading => PartFault::NoReading,
            MarkerFault::NoMemory => PartFault::NoMemory,
        }
    }
}
