// One instruction (3.3).
ghost use Rattle.std.specs.Prelude.{IfOk};
ghost use Rattle.zw_wasm.specs.Typing.{check_instr};
ghost use Rattle.zw_wasm_check.specs.Stacks.{ComesTo, context_of};

use crate::locals::Locals;
use crate::stacks::{Stacks, Step};
use std::alloc::{AllocError, Global};
use zw_wasm::{FuncType, Instr, Module, ValType};

impl Stacks {
    /// Checks an instruction of a function of this type with these locals, and goes on behind it.
    pub fn step(
        &mut self,
        alloc: Global,
        m: &Module,
        ty: &FuncType,
        locals: &Locals,
        instr: &Instr,
    ) -> Result<Step, AllocError>
        ensures { IfOk result (λ step. ComesTo (check_instr (context_of m.now ty.now locals.now) instr.now) self.old step self.new) }
    {
        match instr {
            Instr::Unreachable => Ok(self.jump(alloc, &[])),
            Instr::Nop => Ok(Step::Goes),
            Instr::Block(gives) => self.block(alloc, *gives),
            Instr::Loop(gives) => self.repeat(alloc, *gives),
            Instr::If(gives) => self.choose(alloc, *gives),
            Instr::Else => Ok(self.turn()),
            Instr::End => self.end(),
            Instr::Br(label) => Ok(self.branch_always(alloc, *label)),
            Instr::BrIf(label) => self.branch_if(*label),
            Instr::BrTable { default, labels } => {
                Ok(self.branch_by(alloc, labels.get().as_slice(), *default))
            }
            Instr::Return => Ok(self.jump(alloc, ty.result.as_slice())),
            Instr::Call(func) => self.call(m, *func),
            Instr::CallIndirect(ty) => self.call_indirect(m, *ty),
            Instr::Drop => Ok(self.drop_one()),
            Instr::Select => self.select(),
            Instr::LocalGet(local) => self.local_get(ty, locals, *local),
            Instr::LocalSet(local) => self.local_set(ty, locals, *local),
            Instr::LocalTee(local) => self.local_tee(ty, locals, *local),
            Instr::GlobalGet(global) => self.global_get(m, *global),
            Instr::GlobalSet(global) => self.global_set(m, *global),
            Instr::Load(kind, place) => self.load(m, *kind, *place),
            Instr::Store(kind, place) => self.store(m, *kind, *place),
            Instr::MemorySize => self.sized(m, &[]),
            Instr::MemoryGrow => self.sized(m, &[ValType::I32]),
            Instr::I32Const(_) => self.replace(&[], Some(ValType::I32)),
            Instr::I64Const(_) => self.replace(&[], Some(ValType::I64)),
            Instr::IsZero(ty) => self.replace(&[*ty], Some(ValType::I32)),
            Instr::Compare(ty, _) => self.replace(&[*ty, *ty], Some(ValType::I32)),
            Instr::Unary(ty, _) => self.replace(&[*ty], Some(*ty)),
            Instr::Binary(ty, _) => self.replace(&[*ty, *ty], Some(*ty)),
            Instr::Convert(conversion) => self.convert(*conversion),
        }
    }
}
