// Instructions on values: what they take and give.
ghost use Rattle.std.specs.Prelude.{◌≡◌, ℕ, [], ◌∷◌, ◌++◌, List, slice_get, IfOk};
ghost use Rattle.std.specs.Int.{Width};
ghost use Rattle.std.specs.Option.{option_map, option_to_list};
ghost use Rattle.zw_wasm.specs.Accesses.{natural_alignment};
ghost use Rattle.zw_wasm.specs.Typing.{Context, accesses, check_instr, joined, replaces, with_index};
ghost use Rattle.zw_wasm_check.specs.Operands.{operand_of};
ghost use Rattle.zw_wasm_check.specs.Stacks.{ComesTo, context_of};

use crate::accesses::{load_alignment, load_type, store_alignment, store_type};
use crate::context::local_type;
use crate::locals::Locals;
use crate::operands::{put, take, take_all, take_one};
use crate::stacks::{Fault, Stacks, Step};
use sqlite_items::at;
use std::alloc::AllocError;
use zw_wasm::{
    Conversion, FuncType, Instr, LoadKind, MemoryArgument, Module, StoreKind, ValType, func_type,
    same_type,
};

impl Stacks {
    /// A call of a function.
    pub fn call(&mut self, m: &Module, func: u32) -> Result<Step, AllocError>
        ensures { (t : FuncType) (runs : List (ℕ × ValType)) → IfOk result (λ step. ComesTo (check_instr (context_of m.now t runs) (Instr.Call func)) self.old step self.new) }
    {
        match func_type(m, func as usize) {
            Some(ty) => self.replace(ty.params.as_slice(), ty.result),
            None => Ok(Step::Refused(Fault::Index)),
        }
    }

    /// A call of a function of this type, by its place in the table.
    pub fn call_indirect(&mut self, m: &Module, ty: u32) -> Result<Step, AllocError>
        ensures { (t : FuncType) (runs : List (ℕ × ValType)) → IfOk result (λ step. ComesTo (check_instr (context_of m.now t runs) (Instr.CallIndirect ty)) self.old step self.new) }
    {
        if at(m.tables.as_slice(), 0).is_none() {
            return Ok(Step::Refused(Fault::Index));
        }
        let Some(ty) = at(m.types.as_slice(), ty as usize) else {
            return Ok(Step::Refused(Fault::Index));
        };
        self.call_by_place(ty)
    }

    /// A call of a function of this type, whose place in the table is the last operand.
    fn call_by_place(&mut self, ty: &FuncType) -> Result<Step, AllocError>
        ensures { IfOk result (λ step. ComesTo (replaces (ty.now.params ++ ValType.I32 ∷ []) (option_to_list ty.now.result)) self.old step self.new) }
    {
        if !take(&mut self.operands, ValType::I32, self.control.unreachable) {
            return Ok(Step::Refused(Fault::Type));
        }
        self.replace(ty.params.as_slice(), ty.result)
    }

    /// Takes an operand.
    pub fn drop_one(&mut self) -> Step
        ensures { (x : Context) → ComesTo (check_instr x Instr.Drop) self.old result self.new }
    {
        match take_one(&mut self.operands, self.control.unreachable) {
            Some(_) => Step::Goes,
            None => Step::Refused(Fault::Type),
        }
    }

    /// Takes an `i32` and two operands of one type, and gives one of that type.
    pub fn select(&mut self) -> Result<Step, AllocError>
        ensures { (x : Context) → IfOk result (λ step. ComesTo (check_instr x Instr.Select) self.old step self.new) }
    {
        let unreachable = self.control.unreachable;
        if !take(&mut self.operands, ValType::I32, unreachable) {
            return Ok(Step::Refused(Fault::Type));
        }
        let Some(first) = take_one(&mut self.operands, unreachable) else {
            return Ok(Step::Refused(Fault::Type));
        };
        let Some(second) = take_one(&mut self.operands, unreachable) else {
            return Ok(Step::Refused(Fault::Type));
        };
        let Some(either) = join(first, second) else {
            return Ok(Step::Refused(Fault::Type));
        };
        self.operands.push(either)?;
        Ok(Step::Goes)
    }

    /// The value of a local.
    pub fn local_get(
        &mut self,
        ty: &FuncType,
        locals: &Locals,
        local: u32,
    ) -> Result<Step, AllocError>
        ensures { (m : Module) → IfOk result (λ step. ComesTo (check_instr (context_of m ty.now locals.now) (Instr.LocalGet local)) self.old step self.new) }
    {
        match local_type(ty, locals, local) {
            Some(ty) => self.replace(&[], Some(ty)),
            None => Ok(Step::Refused(Fault::Index)),
        }
    }

    /// A value for a local.
    pub fn local_set(
        &mut self,
        ty: &FuncType,
        locals: &Locals,
        local: u32,
    ) -> Result<Step, AllocError>
        ensures { (m : Module) → IfOk result (λ step. ComesTo (check_instr (context_of m ty.now locals.now) (Instr.LocalSet local)) self.old step self.new) }
    {
        match local_type(ty, locals, local) {
            Some(ty) => self.replace(&[ty], None),
            None => Ok(Step::Refused(Fault::Index)),
        }
    }

    /// A value for a local, which stays.
    pub fn local_tee(
        &mut self,
        ty: &FuncType,
        locals: &Locals,
        local: u32,
    ) -> Result<Step, AllocError>
        ensures { (m : Module) → IfOk result (λ step. ComesTo (check_instr (context_of m ty.now locals.now) (Instr.LocalTee local)) self.old step self.new) }
    {
        match local_type(ty, locals, local) {
            Some(ty) => self.replace(&[ty], Some(ty)),
            None => Ok(Step::Refused(Fault::Index)),
        }
    }

    /// The value of a global.
    pub fn global_get(&mut self, m: &Module, global: u32) -> Result<Step, AllocError>
        ensures { (t : FuncType) (runs : List (ℕ × ValType)) → IfOk result (λ step. ComesTo (check_instr (context_of m.now t runs) (Instr.GlobalGet global)) self.old step self.new) }
    {
        match at(m.globals.as_slice(), global as usize) {
            Some(global) => self.replace(&[], Some(global.ty)),
            None => Ok(Step::Refused(Fault::Index)),
        }
    }

    /// A value for a global, which has to be mutable.
    pub fn global_set(&mut self, m: &Module, global: u32) -> Result<Step, AllocError>
        ensures { (t : FuncType) (runs : List (ℕ × ValType)) → IfOk result (λ step. ComesTo (check_instr (context_of m.now t runs) (Instr.GlobalSet global)) self.old step self.new) }
    {
        let Some(global) = at(m.globals.as_slice(), global as usize) else {
            return Ok(Step::Refused(Fault::Index));
        };
        if !global.mutable {
            return Ok(Step::Refused(Fault::Type));
        }
        self.replace(&[global.ty], None)
    }

    /// The size of the memory, which it has to have; or its growth, which takes an `i32`.
    pub fn sized(&mut self, m: &Module, takes: &[ValType]) -> Result<Step, AllocError>
        ensures { IfOk result (λ step. ComesTo (λ os c outer. with_index (slice_get m.now.memories 0) (λ memory. replaces takes.now (ValType.I32 ∷ []) os c outer)) self.old step self.new) }
    {
        if at(m.memories.as_slice(), 0).is_none() {
            return Ok(Step::Refused(Fault::Index));
        }
        self.replace(takes, Some(ValType::I32))
    }

    /// From one width to the other.
    pub fn convert(&mut self, conversion: Conversion) -> Result<Step, AllocError>
        ensures { (x : Context) → IfOk result (λ step. ComesTo (check_instr x (Instr.Convert conversion)) self.old step self.new) }
    {
        match conversion {
            Conversion::Wrap => self.replace(&[ValType::I64], Some(ValType::I32)),
            Conversion::ExtendS => self.replace(&[ValType::I32], Some(ValType::I64)),
            Conversion::ExtendU => self.replace(&[ValType::I32], Some(ValType::I64)),
        }
    }

    /// A load.
    pub fn load(
        &mut self,
        m: &Module,
        kind: LoadKind,
        place: MemoryArgument,
    ) -> Result<Step, AllocError>
        ensures { (t : FuncType) (runs : List (ℕ × ValType)) → IfOk result (λ step. ComesTo (check_instr (context_of m.now t runs) (Instr.Load kind place)) self.old step self.new) }
    {
        let natural = load_alignment(kind);
        self.access(m, natural, place, &[ValType::I32], Some(load_type(kind)))
    }

    /// A store.
    pub fn store(
        &mut self,
        m: &Module,
        kind: StoreKind,
        place: MemoryArgument,
    ) -> Result<Step, AllocError>
        ensures { (t : FuncType) (runs : List (ℕ × ValType)) → IfOk result (λ step. ComesTo (check_instr (context_of m.now t runs) (Instr.Store kind place)) self.old step self.new) }
    {
        let natural = store_alignment(kind);
        self.access(m, natural, place, &[ValType::I32, store_type(kind)], None)
    }

    /// A load or a store, at an alignment of at most the natural one.
    pub fn access(
        &mut self,
        m: &Module,
        natural: u32,
        place: MemoryArgument,
        takes: &[ValType],
        gives: Option<ValType>,
    ) -> Result<Step, AllocError>
        ensures { (t : FuncType) (runs : List (ℕ × ValType)) (w : Width) → natural ≡ natural_alignment w → IfOk result (λ step. ComesTo (accesses (context_of m.now t runs) w place takes.now (option_to_list gives)) self.old step self.new) }
    {
        if at(m.memories.as_slice(), 0).is_none() {
            return Ok(Step::Refused(Fault::Index));
        }
        if !take_all(&mut self.operands, takes, self.control.unreachable) {
            return Ok(Step::Refused(Fault::Type));
        }
        if natural < place.align {
            return Ok(Step::Refused(Fault::Alignment));
        }
        put(&mut self.operands, gives)?;
        Ok(Step::Goes)
    }
}

/// The one type that two operands have.
fn join(first: Option<ValType>, second: Option<ValType>) -> Option<Option<ValType>>
    ensures { joined (operand_of first) (operand_of second) ≡ option_map operand_of result }
{
    match (first, second) {
        (None, other) => Some(other),
        (Some(_), None) => Some(first),
        (Some(left), Some(right)) => same_type(left, right).then_some(first),
    }
}
