// Machines: how they are made, what they are asked, and their calls.
ghost use Rattle.std.specs.Prelude.{◌≡◌, ◌+◌, ◌*◌, ◌^◌, ◌<◌, ◌≤◌, length, map, Option, Some, None, true, IfErr, IfOk, MatchOption, OnOk};
ghost use Rattle.zw_wasm.specs.Functions.{func_type};
ghost use Rattle.zw_wasm.specs.ModuleMachine.{export_in, exported_global, first_sizes, first_values, param_types};
ghost use Rattle.zw_wasm_reach.specs.Counts as counts;
ghost use Rattle.zw_wasm_run.specs.MachineCalls.{CallEnds, SameButStacks, SameCode};
ghost use Rattle.zw_wasm_run.specs.Machines.{ArePanicState, Begins, IsOutOfRange, NoPanicState, Remembers, Tabled, bytes_of_memory, store_of};
ghost use Rattle.zw_wasm_run.specs.Premises.{type_of};
ghost use Rattle.zw_wasm_run.specs.Reserves.{HasRoom, IsOutside, KeepsReserve};
ghost use Rattle.zw_wasm_run.specs.Rooms.{calling};
ghost use Rattle.zw_wasm_run.specs.Shows.{AreShows, IsExported};

use crate::code::Code;
use crate::entry::no_stacks;
use crate::event::{Event, Outcome};
use crate::function::call_function;
use crate::held::Machine;
use crate::replies::Replies;
use crate::store::Store;
use sqlite_items::{Items, at};
use std::alloc::{AllocError, Global};
use std::fmt;
use zw_wasm::{ExportDef, FuncType, Limits, Module, Num, first_globals, func_type};
use zw_wasm_check::Checked;
use zw_wasm_reach::deepest;
use zw_wasm_words::{place_datas, place_elements};

/// Of an imported function, by its number, this parameter is a pointer and the next one the length of the bytes that are
/// shown there.
#[derive(Clone, Copy, Debug, PartialEq, Eq)]
pub struct Show {
    pub import: u32,
    pub param: u32,
}

/// Why no machine was made.
#[derive(Clone, Copy, Debug, PartialEq, Eq)]
pub enum NewErr {
    /// A segment doesn't lie inside the table or the memory. Those of the table are counted first, from 0.
    OutOfRangeSegment(u32),
    /// Memory ran out.
    Oom,
}

impl From<AllocError> for NewErr {
    ghost use Rattle.std.specs.Prelude.{◌≡◌};
    ghost use Rattle.zw_wasm_run.specs.declared.machine.NewErr.TheVariants as error;

    ghost from_gives = { λ _ e. e ≡ error.Oom };

    fn from(_: AllocError) -> NewErr {
        NewErr::Oom
    }
}

impl fmt::Display for NewErr {
    ghost use Rattle.std.specs.Prelude.{Some};
    ghost use Rattle.zw_wasm_run.specs.Texts.{text_of};

    ghost output = { λ e. Some (text_of e) };

    fn fmt<W: fmt::Write>(&self, f: &mut fmt::Formatter<W>) -> fmt::Result {
        match self {
            NewErr::OutOfRangeSegment(segment) => write!(f, "segment {segment} out of range"),
            NewErr::Oom => write!(f, "out of memory"),
        }
    }
}

impl Machine {
    /// A module as it begins (4.5.4). Its memory is zero but for the segments.
    pub fn new(alloc: Global, m: Checked, shows: Items<Show>) -> Result<Machine, NewErr>
        requires no_start { m.start ≡ None }
        requires shown { AreShows m shows }
        ensures { Begins m shows result }
    {
        let module = m.module();
        let globals = first_globals(alloc, module)?;
        let table = match new_table(alloc, module, globals.as_slice()) {
            Ok(table) => table,
            Err(error) => return Err(error),
        };
        let memory = match new_memory(alloc, module, globals.as_slice()) {
            Ok(memory) => memory,
            Err(error) => return Err(error),
        };
        let store = Store {
            globals,
            memory,
            table,
        };
        Ok(Machine {
            code: Code::new(alloc, m)?,
            shows,
            store,
            stacks: no_stacks(alloc),
            over: false,
        })
    }

    /// The module.
    pub fn module(&self) -> &Module
        ensures { result.now ≡ self.now.code }
    {
        self.code.module()
    }

    /// The number of the function that is exported under a name.
    pub fn export(&self, name: &[u8]) -> Option<u32>
        ensures { result ≡ export_in ExportDef.FUNC name.now self.now.code.exports }
    {
        self.code.export(ExportDef::FUNC, name)
    }

    /// The type of an exported function, by its number.
    pub fn export_type(&self, export: u32) -> &FuncType
        requires { IsExported self.now.code export }
        ensures { func_type self.now.code export ≡ Some result.now }
    {
        let module = self.code.checked().module();
        match func_type(module, export as usize) {
            Some(ty) => ty,
            None => unreachable!(),
        }
    }

    /// Makes room for so many frames that are active, and for so many operands and locals over all frames. Memory doesn't run out in a call that
    /// stays within it, calls no function of the host, and leaves the memory as long as it is. No call makes the room less, and none is
    /// wanting where it was made before.
    pub fn reserve(&mut self, frames: u32, values: u32) -> Result<(), AllocError>
        ensures room { OnOk result (HasRoom self.new frames values) }
        ensures wants { IfErr result (λ e. HasRoom self.old frames values → ⊥) }
        ensures reserved { KeepsReserve self.old self.new }
        ensures kept { SameButStacks self.old self.new }
    {
        let labels = most_labels(self.code.module(), frames)?;
        let stacks = &mut self.stacks;
        stacks.frames.clear();
        stacks.labels.clear();
        stacks.words.clear();
        stacks.frames.reserve(frames as usize)?;
        stacks.labels.reserve(labels + 1)?;
        stacks.words.reserve(values as usize + 1)
    }

    /// Calls an exported function, by its number, with arguments of its types. `steps` falls by one for each instruction, and no call
    /// takes more. Once a call has ended by something else than a result, or memory ran out, the machine is over: nothing changes
    /// any more.
    pub fn call(
        &mut self,
        export: u32,
        args: &[Num],
        replies: &mut Replies,
        steps: &mut u64,
        log: &mut Vec<Event>,
    ) -> Result<Outcome, AllocError>
        requires exported { IsExported self.old.code export }
        requires typed { map type_of args.now ≡ param_types (func_type self.old.code export) }
        ensures ends { IfOk result (λ end. CallEnds self.old.over export args.now (record { machine = self.old; host = record { replies = replies.old; log = log.old.items }; steps = steps.old }) end (record { machine = self.new; host = record { replies = replies.new; log = log.new.items }; steps = steps.new })) }
        ensures wants_memory { IfErr result (λ e. self.new.over ≡ true) }
        ensures outside { IfErr result (λ e. IsOutside self.old export args.now (calling (store_of self.old) replies.old) steps.old) }
        ensures reserved { KeepsReserve self.old self.new }
        ensures kept { SameCode self.old self.new }
    {
        if self.over {
            return Ok(Outcome::Over);
        }
        self.over = true;
        let shows = self.shows.as_slice();
        let store = &mut self.store;
        let stacks = &mut self.stacks;
        let end = call_function(
            &self.code, shows, export, args, store, stacks, steps, replies, log,
        )?;
        if let Outcome::Result(_) = end {
            self.over = false;
        }
        Ok(end)
    }

    /// The values of the exports `panic_cause`, `panic_ptr` and `panic_len`, or none where one of them isn't an exported `i32`
    /// global.
    pub fn panic_state(&self) -> Option<(u32, u32, u32)>
        ensures { MatchOption result (NoPanicState self.now.code (store_of self.now)) (λ s. ArePanicState self.now.code (store_of self.now) s.0 s.1 s.2) }
    {
        let cause = self.exported_global(b"panic_cause")?;
        let place = self.exported_global(b"panic_ptr")?;
        let count = self.exported_global(b"panic_len")?;
        Some((cause, place, count))
    }

    /// The value of the `i32` global that is exported under a name.
    fn exported_global(&self, name: &[u8]) -> Option<u32>
        ensures { result ≡ exported_global self.now.code (store_of self.now) name.now }
    {
        let index = self.code.export(ExportDef::GLOBAL, name)?;
        match at(self.store.globals.as_slice(), index as usize) {
            Some(Num::I32(value)) => Some(*value),
            _ => None,
        }
    }

    /// So many bytes of the memory from a place on, or none where the module has no memory or they don't all lie inside.
    pub fn bytes(&self, at: u32, len: u32) -> Option<&[u8]>
        ensures { MatchOption result (bytes_of_memory self.now.code.memories self.now.store.memory.items at len ≡ None) (λ bytes. bytes_of_memory self.now.code.memories self.now.store.memory.items at len ≡ Some bytes.now) }
    {
        if self.code.module().memories.is_empty() {
            return None;
        }
        let end = at as usize + len as usize;
        self.store.memory.get(at as usize..end)
    }
}

/// How many labels there are at most in so many frames. Memory is wanting where a `usize` couldn't hold one more.
fn most_labels(m: &Module, frames: u32) -> Result<usize, AllocError>
    ensures most { IfOk result (λ labels. labels ≡ frames * counts.deepest m.now) }
    ensures bound { IfOk result (λ labels. labels < usize.MAX) }
    ensures wants { IfErr result (λ e. usize.MAX ≤ frames * counts.deepest m.now) }
{
    match (frames as usize).checked_mul(deepest(m)) {
        Some(labels) if labels < usize::MAX => Ok(labels),
        _ => Err(AllocError),
    }
}

/// How many pages, or places, the first has at least.
fn first_size(limits: &[Limits]) -> usize
    ensures value { result ≡ first_sizes limits.now }
    ensures bound { result < 2 ^ 32 }
{
    match limits {
        [first, ..] => first.least as usize,
        [] => 0,
    }
}

/// The table with its segments, which all lie inside.
fn new_table(alloc: Global, m: &Module, globals: &[Num]) -> Result<Vec<Option<u32>>, NewErr>
    requires values { globals.now ≡ first_values m.now }
    ensures { Tabled m.now result }
{
    let mut table = vec![in alloc; None; first_size(m.tables.as_slice())]?;
    match place_elements(alloc, globals, m.elements.as_slice(), &mut table)? {
        Some(outside) => Err(out_of_range(0, outside)),
        None => Ok(table),
    }
}

/// The memory with its segments, which all lie inside.
fn new_memory(alloc: Global, m: &Module, globals: &[Num]) -> Result<Vec<u8>, NewErr>
    requires values { globals.now ≡ first_values m.now }
    ensures value { Remembers m.now result }
    ensures small { IfOk result (λ memory. length memory.items < 2 ^ 48) }
{
    let mut memory = vec![in alloc; 0u8; first_size(m.memories.as_slice()) * 65_536]?;
    match place_datas(globals, m.datas.as_slice(), &mut memory) {
        Some(outside) => Err(out_of_range(m.elements.len(), outside)),
        None => Ok(memory),
    }
}

/// That the segment with this number, behind so many others, lies outside. From 2^32 on a number ends as want of memory.
fn out_of_range(before: usize, segment: usize) -> NewErr
    ensures { IsOutOfRange (before + segment) result }
{
    match u32::try_from(before.saturating_add(segment)) {
        Ok(number) => NewErr::OutOfRangeSegment(number),
        Err(_) => NewErr::Oom,
    }
}
