// The input of a session, read before it runs.
ghost use Rattle.std.specs.Prelude.{length, IfOk, OnErr};
ghost use Rattle.zw_base.specs.Faults.{Counts};
ghost use Rattle.zw_calls.specs.Input.{IsFront, IsInput, TakesPiece, input_failed};

use crate::replies::MOST_INPUT;
use std::alloc::Global;
use thiserror::Error;
use zw_base::{Failed, Oom, Source};

/// Why an input wasn't read.
#[derive(Clone, Copy, Debug, PartialEq, Eq, Error)]
pub enum InputErr {
    #[error("the source failed")]
    Failed,
    #[error("out of memory")]
    Oom,
}

impl From<Failed> for InputErr {
    ghost use Rattle.std.specs.Prelude.{◌≡◌};
    ghost use Rattle.zw_calls.specs.declared.input.InputErr.TheVariants.{Failed};

    ghost from_gives = { λ _ e. e ≡ Failed };

    fn from(_: Failed) -> InputErr {
        InputErr::Failed
    }
}

impl From<Oom> for InputErr {
    ghost use Rattle.std.specs.Prelude.{◌≡◌};
    ghost use Rattle.zw_calls.specs.declared.input.InputErr.TheVariants.{Oom};

    ghost from_gives = { λ _ e. e ≡ Oom };

    fn from(_: Oom) -> InputErr {
        InputErr::Oom
    }
}

/// How many bytes are asked for at once.
const PIECE: usize = 4096;

/// The bytes of a source until its end, or its first 16,777,217 where there are more than 16,777,216.
pub fn read_input<S: Source>(alloc: Global, input: &mut S) -> Result<Vec<u8>, InputErr>
    ensures ok { IfOk result (λ bytes. IsInput (S.left input.old) (S.left input.new) bytes.items) }
    ensures err { OnErr result (IsFront (S.left input.old) (S.left input.new) 16777217) }
    ensures cause { Counts (S.faults input.old) (S.faults input.new) (input_failed result) }
{
    let mut bytes = Vec::new(alloc);
    let mut piece = [0; PIECE];
    while bytes.len() <= MOST_INPUT {
        let room = PIECE.min(MOST_INPUT + 1 - bytes.len());
        let count = read_piece(input, &mut piece[..room], &mut bytes)?;
        if count == 0 {
            return Ok(bytes);
        }
    }
    Ok(bytes)
}

/// Reads the next bytes behind others, and says how many.
fn read_piece<S: Source>(
    input: &mut S,
    piece: &mut [u8],
    bytes: &mut Vec<u8>,
) -> Result<usize, InputErr>
    ensures ok { IfOk result (λ n. TakesPiece (S.left input.old) (S.left input.new) bytes.old.items bytes.new.items (length piece.old) n) }
    ensures err { OnErr result (IsFront (S.left input.old) (S.left input.new) (length piece.old)) }
    ensures cause { Counts (S.faults input.old) (S.faults input.new) (input_failed result) }
{
    let count = input.read(piece)?;
    bytes.extend_from_slice(&piece[..count])?;
    Ok(count)
}
