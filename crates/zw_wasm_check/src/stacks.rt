// The operand stack and the control stack, and what instructions do to them.
ghost use Rattle.std.specs.Prelude.{◌≡◌, List, [], ◌∷◌, ◌++◌, true, false, slice_get, IfOk, OnOk, if◌then◌else◌};
ghost use Rattle.std.specs.Option.{option_map, option_to_list};
ghost use Rattle.zw_wasm.specs.declared.module.Instr.{Instr};
ghost use Rattle.zw_wasm.specs.Typing.{Checked, Context, Control, Refused, at_end, check_instr, closed, closed_at_end, never_goes_on, replaces, turned, wrong_type};
ghost use Rattle.zw_wasm_check.specs.Operands.{operands_of};
ghost use Rattle.zw_wasm_check.specs.Stacks.{ComesTo, checked_of, control_of, outer_of};

use crate::operands::{put, take_all};
use sqlite_items::Items;
use std::alloc::{AllocError, Global};
use std::mem;
use zw_wasm::ValType;

/// Why an instruction is refused.
#[derive(Clone, Copy)]
pub enum Fault {
    /// An index isn't there.
    Index = 1,
    /// An operand has another type, or a global isn't mutable.
    Type = 2,
    /// An alignment is past the natural one.
    Alignment = 3,
}

impl Fault {
    ghost use Rattle.std.specs.Prelude.{◌≡◌};
    ghost use Rattle.zw_wasm_check.specs.Stacks.{number_of};

    /// Its number.
    pub fn number(self) -> u8
        ensures { result ≡ number_of self }
    {
        match self {
            Fault::Index => 1,
            Fault::Type => 2,
            Fault::Alignment => 3,
        }
    }
}

/// What comes of an instruction: the code goes on, its outermost sequence ends, or the instruction is refused.
#[derive(Drop)]
pub enum Step {
    Goes,
    Closes,
    Refused(Fault),
}

/// An entry of the control stack: the types at the end of its code and at a branch to it, the operands below it, whether the
/// code is out of reach, and whether it is what an `if` began, up to its `else`.
#[derive(Drop)]
pub struct Entry {
    pub result_type: Option<ValType>,
    pub branch_type: Option<ValType>,
    pub unreachable: bool,
    pub is_if: bool,
    pub below: Items<Option<ValType>>,
}

/// The operands of the innermost entry, the last at the end; that entry; and the others, the outermost first.
#[derive(Drop)]
pub struct Stacks {
    pub operands: Items<Option<ValType>>,
    pub control: Entry,
    pub outer: Items<Entry>,
}

impl Stacks {
    /// Before the first instruction of code with this result.
    pub fn new(alloc: Global, ty: Option<ValType>) -> Stacks
        ensures { result ≡ record { operands = []; control = record { result_type = ty; branch_type = ty; below = []; unreachable = false; is_if = false }; outer = [] } }
    {
        Stacks {
            operands: Items::new(alloc),
            control: Entry {
                result_type: ty,
                branch_type: ty,
                unreachable: false,
                is_if: false,
                below: Items::new(alloc),
            },
            outer: Items::new(alloc),
        }
    }

    /// An instruction that takes operands, of which the last is taken first, and gives one where there is a type.
    pub fn replace(&mut self, takes: &[ValType], gives: Option<ValType>) -> Result<Step, AllocError>
        ensures { IfOk result (λ step. ComesTo (replaces takes.now (option_to_list gives)) self.old step self.new) }
    {
        if !take_all(&mut self.operands, takes, self.control.unreachable) {
            return Ok(Step::Refused(Fault::Type));
        }
        put(&mut self.operands, gives)?;
        Ok(Step::Goes)
    }

    /// An instruction that takes operands, and behind which code is out of reach.
    pub fn jump(&mut self, alloc: Global, takes: &[ValType]) -> Step
        ensures { ComesTo (never_goes_on takes.now) self.old result self.new }
    {
        if !take_all(&mut self.operands, takes, self.control.unreachable) {
            return Step::Refused(Fault::Type);
        }
        self.operands = Items::new(alloc);
        self.control.unreachable = true;
        Step::Goes
    }

    /// What a branch to a label takes, where the label is there. The innermost is 0.
    pub fn branch(&self, label: u32) -> Option<Option<ValType>>
        ensures { option_map (λ (c : Control). c.branch) (slice_get (control_of self.now.control ∷ outer_of self.now.outer) label) ≡ option_map option_to_list result }
    {
        let label = label as usize;
        if label == 0 {
            return Some(self.control.branch_type);
        }
        if self.outer.len() < label {
            return None;
        }
        let place = self.outer.len() - label;
        Some(self.outer.as_slice()[place].branch_type)
    }

    /// Begins code over the operands.
    pub fn open(
        &mut self,
        alloc: Global,
        result_type: Option<ValType>,
        branch_type: Option<ValType>,
        is_if: bool,
    ) -> Result<Step, AllocError>
        ensures goes { IfOk result (λ step. step ≡ Step.Goes) }
        ensures opened { OnOk result (self.new ≡ record { operands = []; control = record { result_type = result_type; branch_type = branch_type; below = self.old.operands; unreachable = false; is_if = is_if }; outer = self.old.outer ++ self.old.control ∷ [] }) }
    {
        let below = mem::replace(&mut self.operands, Items::new(alloc));
        let inner = Entry {
            result_type,
            branch_type,
            unreachable: false,
            is_if,
            below,
        };
        let outer = mem::replace(&mut self.control, inner);
        self.outer.push(outer)?;
        Ok(Step::Goes)
    }

    /// Begins the code of a block.
    pub fn block(&mut self, alloc: Global, ty: Option<ValType>) -> Result<Step, AllocError>
        ensures { (x : Context) → IfOk result (λ step. ComesTo (check_instr x (Instr.Block ty)) self.old step self.new) }
    {
        self.open(alloc, ty, ty, false)
    }

    /// Begins the code of a loop, to whose begin a branch goes.
    pub fn repeat(&mut self, alloc: Global, ty: Option<ValType>) -> Result<Step, AllocError>
        ensures { (x : Context) → IfOk result (λ step. ComesTo (check_instr x (Instr.Loop ty)) self.old step self.new) }
    {
        self.open(alloc, ty, None, false)
    }

    /// Begins the code of an `if`.
    pub fn choose(&mut self, alloc: Global, ty: Option<ValType>) -> Result<Step, AllocError>
        ensures { (x : Context) → IfOk result (λ step. ComesTo (check_instr x (Instr.If ty)) self.old step self.new) }
    {
        if !take_all(
            &mut self.operands,
            &[ValType::I32],
            self.control.unreachable,
        ) {
            return Ok(Step::Refused(Fault::Type));
        }
        self.open(alloc, ty, ty, true)
    }

    /// Takes the results of the innermost entry, and tells whether they were there, and nothing else.
    fn results_stand(&mut self) -> bool
        ensures rule { (go : Checked) → at_end (control_of self.old.control) (operands_of self.old.operands) go ≡ (if result then go else Refused wrong_type) }
        ensures empty { result ≡ true → self.new.operands ≡ [] }
        ensures control { self.new.control ≡ self.old.control }
        ensures outer { self.new.outer ≡ self.old.outer }
    {
        let results = self.control.result_type;
        if !take_all(
            &mut self.operands,
            results.as_slice(),
            self.control.unreachable,
        ) {
            return false;
        }
        self.operands.is_empty()
    }

    /// Ends the code of an `if`, and begins the other.
    pub fn turn(&mut self) -> Step
        ensures { (x : Context) → ComesTo (check_instr x Instr.Else) self.old result self.new }
    {
        if !self.results_stand() {
            return Step::Refused(Fault::Type);
        }
        self.begin_else()
    }

    /// Begins the other code of an `if`, where no operand is left.
    fn begin_else(&mut self) -> Step
        requires { self.old.operands ≡ [] }
        ensures { turned (control_of self.old.control) (outer_of self.old.outer) ≡ checked_of result self.new }
    {
        if !self.control.is_if {
            return Step::Refused(Fault::Type);
        }
        self.control.unreachable = false;
        self.control.is_if = false;
        Step::Goes
    }

    /// Ends the innermost code.
    pub fn end(&mut self) -> Result<Step, AllocError>
        ensures { (x : Context) → IfOk result (λ step. ComesTo (check_instr x Instr.End) self.old step self.new) }
    {
        if !self.results_stand() {
            return Ok(Step::Refused(Fault::Type));
        }
        if self.lacks_else() {
            return Ok(Step::Refused(Fault::Type));
        }
        self.close()
    }

    /// Whether the innermost code is that of an `if` which has a result, and so has to have an `else`.
    fn lacks_else(&self) -> bool
        ensures { (outer : List Control) → closed_at_end (control_of self.now.control) outer ≡ (if result then Refused wrong_type else closed (control_of self.now.control) outer) }
    {
        match self.control.result_type {
            Some(_) => self.control.is_if,
            None => false,
        }
    }

    /// Goes back to the code round the innermost one, whose result stands on the operands below it.
    fn close(&mut self) -> Result<Step, AllocError>
        ensures { IfOk result (λ step. closed (control_of self.old.control) (outer_of self.old.outer) ≡ checked_of step self.new) }
    {
        let Some(outer) = self.outer.pop() else {
            return Ok(Step::Closes);
        };
        let inner = mem::replace(&mut self.control, outer);
        self.operands = inner.below;
        put(&mut self.operands, inner.result_type)?;
        Ok(Step::Goes)
    }
}
