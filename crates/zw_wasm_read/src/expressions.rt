// Expressions (5.4.6): instructions up to their own end.
ghost use Rattle.std.specs.Prelude.{◌≡◌, IfOk, reverse};
ghost use Rattle.zw_wasm.specs.ModuleBytes.{IsExpression};
ghost use Rattle.zw_wasm_read.specs.Nesting.{GoesOn};
ghost use Rattle.zw_wasm_read.specs.Reads.{Reads};

use crate::instructions::read_instruction;
use crate::room::with_room;
use crate::unread::Unread;
use sqlite_items::Items;
use std::alloc::Global;
use zw_base::Oom;
use zw_wasm::{Instr, PlaceCode};

/// How many instructions a list has that keeps the room that it grew to.
const MANY: usize = 65_536;

/// An expression. What is open is kept in a list, so no recursion follows the nesting.
pub(crate) fn read_expression(alloc: Global, b: &[u8]) -> Result<(Items<Instr>, &[u8]), Unread>
    ensures { Reads IsExpression b.now result }
{
    let mut instrs = Items::new(alloc);
    let mut opened = Items::new(alloc);
    let mut rest = b;
    loop {
        let (instr, behind) = read_instruction(alloc, rest)?;
        rest = behind;
        let ended = go_on(&mut opened, &instr)?;
        instrs.push(instr)?;
        if ended {
            return Ok((fitted(alloc, instrs)?, rest));
        }
    }
}

/// The code of a segment's place.
pub(crate) fn read_place(alloc: Global, b: &[u8]) -> Result<(PlaceCode, &[u8]), Unread>
    ensures { Reads IsExpression b.now result }
{
    match read_expression(alloc, b) {
        Ok((code, rest)) => Ok((PlaceCode::new(code), rest)),
        Err(e) => Err(e),
    }
}

/// The same instructions in a list without room for more, since a module may have millions of short lists. A long list
/// stays as it is, so that it isn't there twice.
fn fitted(alloc: Global, instrs: Items<Instr>) -> Result<Items<Instr>, Oom>
    ensures { IfOk result (λ fit. fit ≡ instrs) }
{
    if instrs.len() >= MANY {
        return Ok(instrs);
    }
    let mut fit = with_room(alloc, instrs.len(), instrs.len(), 1)?;
    fit.append(instrs)?;
    Ok(fit)
}

/// Goes past an instruction, and tells whether it ends the expression. For each sequence that is open there is whether its
/// `else` may come, the innermost last.
fn go_on(opened: &mut Items<bool>, instr: &Instr) -> Result<bool, Unread>
    ensures { GoesOn (reverse opened.old) instr.now (reverse opened.new) result }
{
    match instr {
        Instr::Block(_) | Instr::Loop(_) => opened.push(false)?,
        Instr::If(_) => opened.push(true)?,
        Instr::Else => {
            let Some(true) = opened.pop() else {
                return Err(Unread::Unfit);
            };
            opened.push(false)?;
        }
        Instr::End => return Ok(opened.pop().is_none()),
        _ => {}
    }
    Ok(false)
}
