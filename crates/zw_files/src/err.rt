// Why the files of a tree weren't gathered.
use thiserror::Error;
use zw_base::{Oom, Stop, Word};

/// Why the files of a tree weren't gathered.
#[derive(Debug, Drop, Error)]
pub enum GatherErr {
    /// The first stop, and the path of the file in which its place is.
    #[error("the tree of files has a stop")]
    Stop(Stop, Word),
    /// The tree failed at the load of a file.
    #[error("the tree failed")]
    Failed,
    #[error("out of memory")]
    Oom,
}

impl From<Oom> for GatherErr {
    ghost use Rattle.std.specs.Prelude.{◌≡◌};
    ghost use Rattle.zw_files.specs.declared.err.GatherErr.TheVariants.{Oom};

    ghost from_gives = { λ _ e. e ≡ Oom };

    fn from(_: Oom) -> GatherErr {
        GatherErr::Oom
    }
}
