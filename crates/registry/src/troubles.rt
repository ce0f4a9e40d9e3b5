// Why a command could not be carried out.
ghost use Rattle.std.specs.Prelude.{◌≡◌, Some};
ghost use Rattle.registry.specs.Reasons.{reason};
ghost use Rattle.registry.specs.declared.troubles.Trouble.TheVariants.{Memory};

use std::alloc::{AllocError, AllocFailed};
use std::fmt;

#[derive(Clone, Copy, PartialEq, Eq)]
pub enum Trouble {
    DeclaredTwice,
    NotDeclared,
    // A row before any host.
    NoHostBegun,
    // A row where the host begun last takes none.
    NoSuchTable,
    NotOpen,
    Memory,
}

impl fmt::Display for Trouble {
    ghost output = { λ trouble. Some (reason trouble) };

    fn fmt<W: fmt::Write>(&self, f: &mut fmt::Formatter<W>) -> fmt::Result {
        match *self {
            Trouble::DeclaredTwice => write!(f, "the identifier is declared already"),
            Trouble::NotDeclared => write!(f, "the identifier is not declared"),
            Trouble::NoHostBegun => write!(f, "no host is begun"),
            Trouble::NoSuchTable => write!(f, "the host begun last has no such table"),
            Trouble::NotOpen => write!(f, "the host is not open"),
            Trouble::Memory => write!(f, "no memory is left"),
        }
    }
}

impl From<AllocError> for Trouble {
    ghost from_gives = { λ _ trouble. trouble ≡ Memory };

    fn from(_e: AllocError) -> Trouble {
        Trouble::Memory
    }
}

impl<T: Drop> From<AllocFailed<T>> for Trouble {
    ghost from_gives = { λ _ trouble. trouble ≡ Memory };

    fn from(_e: AllocFailed<T>) -> Trouble {
        Trouble::Memory
    }
}
