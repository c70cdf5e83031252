// Where and why the analysis of a tree of files stops.
use crate::Oom;
use thiserror::Error;

/// A place in a tree of files. Files are numbered from 0 in the order in which they were found, lines from 1
/// by LF, and columns from 1 in bytes.
#[derive(Clone, Copy, Debug, PartialEq, Eq)]
pub struct Place {
    pub file: u32,
    pub line: u32,
    pub column: u32,
}

/// An error by its number, or a limit that was passed by its own. `docs/COMMANDS.md` names them.
#[derive(Clone, Copy, Debug, PartialEq, Eq)]
pub enum StopKind {
    Error(u16),
    Limit(u16),
}

/// The first thing in a tree of files that keeps it from being built.
#[derive(Clone, Copy, Debug, PartialEq, Eq)]
pub struct Stop {
    pub kind: StopKind,
    pub place: Place,
}

/// The answer of an analysis that gives nothing: a stop, or want of memory.
#[derive(Clone, Copy, Debug, PartialEq, Eq, Error)]
pub enum Refused {
    #[error("the analysis stops")]
    Stop(Stop),
    #[error("out of memory")]
    Oom,
}

impl From<Oom> for Refused {
    ghost use Rattle.std.specs.Prelude.{◌≡◌};
    ghost use Rattle.zw_base.specs.declared.stop.Refused.TheVariants.{Oom};

    ghost from_gives = { λ _ e. e ≡ Oom };

    fn from(_: Oom) -> Refused {
        Refused::Oom
    }
}
