//! What becomes of a refusal at a `?`.
use super::{BadCapacity, NoMemory, Refusal};
use crate::name::NotAName;
use std::alloc::{AllocError, AllocFailed};

impl From<AllocError> for NoMemory {
    fn from(_refused: AllocError) -> NoMemory {
        NoMemory
    }
}

impl<T: Drop> From<AllocFailed<T>> for NoMemory {
    fn from(_refused: AllocFailed<T>) -> NoMemory {
        NoMemory
    }
}

impl From<NoMemory> for Refusal {
    ghost use Rattle.std.specs.Prelude.{◌≡◌};
    ghost use Rattle.flow_rules.specs.declared.refusal.Refusal.TheVariants.{NoMemory};

    ghost from_gives = { λ _ refusal. refusal ≡ NoMemory };

    fn from(_refused: NoMemory) -> Refusal {
        Refusal::NoMemory
    }
}

impl From<BadCapacity> for Refusal {
    ghost use Rattle.std.specs.Prelude.{◌≡◌};
    ghost use Rattle.flow_rules.specs.declared.refusal.Refusal.TheVariants.{BadCapacity};

    ghost from_gives = { λ _ refusal. refusal ≡ BadCapacity };

    fn from(_refused: BadCapacity) -> Refusal {
        Refusal::BadCapacity
    }
}

impl From<NotAName> for Refusal {
    ghost use Rattle.std.specs.Prelude.{◌≡◌};
    ghost use Rattle.flow_rules.specs.declared.refusal.Refusal.TheVariants.{BadCommand};

    ghost from_gives = { λ _ refusal. refusal ≡ BadCommand };

    fn from(_reason: NotAName) -> Refusal {
        Refusal::BadCommand
    }
}

impl From<AllocError> for Refusal {
    ghost use Rattle.std.specs.Prelude.{◌≡◌};
    ghost use Rattle.flow_rules.specs.declared.refusal.Refusal.TheVariants.{NoMemory};

    ghost from_gives = { λ _ refusal. refusal ≡ NoMemory };

    fn from(_refused: AllocError) -> Refusal {
        Refusal::NoMemory
    }
}

/// Drops what found no place.
impl<T: Drop> From<AllocFailed<T>> for Refusal {
    ghost use Rattle.std.specs.Prelude.{◌≡◌};
    ghost use Rattle.flow_rules.specs.declared.refusal.Refusal.TheVariants.{NoMemory};

    ghost from_gives = { λ _ refusal. refusal ≡ NoMemory };

    fn from(_refused: AllocFailed<T>) -> Refusal {
        Refusal::NoMemory
    }
}

/// Drops what was handed in and came back with the refusal.
impl<B: Drop> From<(Refusal, B)> for Refusal {
    ghost use Rattle.std.specs.Prelude.{◌≡◌};

    ghost from_gives = { λ refused refusal. refusal ≡ refused.0 };

    fn from(refused: (Refusal, B)) -> Refusal {
        refused.0
    }
}

/// Drops what was handed in and came back.
impl<B: Drop> From<(NoMemory, B)> for NoMemory {
    fn from(_refused: (NoMemory, B)) -> NoMemory {
        NoMemory
    }
}
