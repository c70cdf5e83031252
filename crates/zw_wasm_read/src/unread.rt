// Why nothing was read.
use zw_base::Oom;

/// What is to be read doesn't stand there, or memory ran out.
#[derive(Clone, Copy, Debug, PartialEq, Eq)]
pub(crate) enum Unread {
    Unfit,
    Oom,
}

impl From<Oom> for Unread {
    ghost use Rattle.std.specs.Prelude.{◌≡◌};
    ghost use Rattle.zw_wasm_read.specs.declared.unread.Unread.TheVariants as unread;

    ghost from_gives = { λ _ e. e ≡ unread.Oom };

    fn from(_: Oom) -> Unread {
        Unread::Oom
    }
}
