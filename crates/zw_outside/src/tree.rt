// Trees of files that lie in memory.
ghost use Rattle.std.specs.Prelude.{◌≡◌, ◌≢◌, ℕ, [], List, ◌≤◌, Some, None, vec_len, IfOk, OnOk, OnErr, option_copied, find, reverse};
ghost use Rattle.std.specs.Str.{bytes_eq};
ghost use Rattle.zw_base.specs.Faults.{Counts};
ghost use Rattle.zw_base.specs.Outside.{AddsPair, load_failed};

use crate::Failures;
use sqlite_items::Items;
use std::alloc::Global;
use zw_base::{Answer, Handed, LoadErr, Oom, Tree, Word, hand_over};

/// A file in memory.
#[derive(Debug, Drop)]
pub struct HeldFile {
    path: Word,
    bytes: Items<u8>,
}

/// A tree over memory that never fails.
#[derive(Debug, Drop)]
pub struct SureTree {
    alloc: Global,
    files: Items<HeldFile>,
    handed: Items<Handed>,
}

impl SureTree {
    ghost use Rattle.zw_outside.specs.Memory.{held_in, handed_by};

    /// A tree without files.
    pub fn new(alloc: Global) -> SureTree
        ensures held { (path : List ℕ) → held_in result path ≡ None }
        ensures loaded { handed_by result ≡ [] }
    {
        SureTree {
            alloc,
            files: Items::new(alloc),
            handed: Items::new(alloc),
        }
    }

    /// Sets one file. After want of memory nothing changed.
    pub fn add(&mut self, path: &Word, bytes: &[u8]) -> Result<(), Oom>
        ensures set { OnOk result (held_in self.new path.now ≡ Some bytes.now) }
        ensures others { (other : List ℕ) → other ≢ path.now → held_in self.new other ≡ held_in self.old other }
        ensures err { OnErr result (self.new ≡ self.old) }
        ensures loaded { handed_by self.new ≡ handed_by self.old }
    {
        let path = Word::copy(self.alloc, path.bytes())?;
        let bytes = Items::from_slice(self.alloc, bytes)?;
        self.files.push(HeldFile { path, bytes })?;
        Ok(())
    }

    /// The pairs of path and answer that it has handed over so far.
    pub fn handed(&self) -> &[Handed]
        ensures { result.now ≡ handed_by self.now }
    {
        self.handed.as_slice()
    }
}

impl Tree for SureTree {
    ghost use Rattle.zw_outside.specs.Memory.{held_in, handed_by, LoadsHeld};

    ghost loaded = { handed_by };

    ghost faults = { λ t. 0 };

    fn load(&mut self, alloc: Global, path: &Word, limit: u64) -> Result<Vec<u8>, LoadErr>
        ensures within { IfOk result (λ bytes. vec_len bytes ≤ limit) }
        ensures pair { AddsPair (handed_by self.old) (handed_by self.new) path.now limit result }
        ensures cause { Counts 0 0 (load_failed result) }

        // Each answer comes exactly where it is due, and no call fails.
        ensures exact { LoadsHeld self.old path.now limit result }
        ensures held { (other : List ℕ) → held_in self.new other ≡ held_in self.old other }
    {
        match find(self.files.as_slice(), path.bytes()) {
            None => {
                hand_over(self.alloc, &mut self.handed, path, Answer::Absent)?;
                Err(LoadErr::Absent)
            }
            Some(file) if file.bytes.len() as u64 > limit => {
                hand_over(self.alloc, &mut self.handed, path, Answer::TooLong(limit))?;
                Err(LoadErr::TooLong)
            }
            Some(file) => {
                let bytes = Vec::from_slice(alloc, file.bytes.as_slice())?;
                let told = Items::from_slice(self.alloc, file.bytes.as_slice())?;
                hand_over(self.alloc, &mut self.handed, path, Answer::Bytes(told))?;
                Ok(bytes)
            }
        }
    }
}

/// A tree over memory, which fails at the calls whose numbers it was made with.
#[derive(Debug, Drop)]
pub struct MemTree {
    tree: SureTree,
    failures: Failures,
}

impl MemTree {
    ghost use Rattle.zw_outside.specs.Memory.{held, handed_of, tree_failures};

    /// A tree without files. The load calls with the numbers in `fail`, from 0, fail.
    pub fn new(alloc: Global, fail: Vec<u32>) -> MemTree
        ensures held { (path : List ℕ) → held result path ≡ None }
        ensures loaded { handed_of result ≡ [] }
        ensures numbers { (tree_failures result).numbers ≡ fail.items }
        ensures next { (tree_failures result).next ≡ 0 }
        ensures faults { (tree_failures result).faults ≡ 0 }
    {
        MemTree {
            tree: SureTree::new(alloc),
            failures: Failures::new(fail),
        }
    }

    /// Sets one file. After want of memory nothing changed.
    pub fn add(&mut self, path: &Word, bytes: &[u8]) -> Result<(), Oom>
        ensures set { OnOk result (held self.new path.now ≡ Some bytes.now) }
        ensures others { (other : List ℕ) → other ≢ path.now → held self.new other ≡ held self.old other }
        ensures err { OnErr result (self.new ≡ self.old) }
        ensures loaded { handed_of self.new ≡ handed_of self.old }
        ensures failures { tree_failures self.new ≡ tree_failures self.old }
    {
        self.tree.add(path, bytes)
    }

    /// The pairs of path and answer that it has handed over so far.
    pub fn handed(&self) -> &[Handed]
        ensures { result.now ≡ handed_of self.now }
    {
        self.tree.handed()
    }
}

impl Tree for MemTree {
    ghost use Rattle.zw_outside.specs.Memory.{held, handed_of, tree_failures, after_call, LoadsFromMemory};

    ghost loaded = { handed_of };

    ghost faults = { λ t. (tree_failures t).faults };

    fn load(&mut self, alloc: Global, path: &Word, limit: u64) -> Result<Vec<u8>, LoadErr>
        ensures within { IfOk result (λ bytes. vec_len bytes ≤ limit) }
        ensures pair { AddsPair (handed_of self.old) (handed_of self.new) path.now limit result }
        ensures cause { Counts ((tree_failures self.old).faults) ((tree_failures self.new).faults) (load_failed result) }

        // Each answer comes exactly where it is due.
        ensures exact { LoadsFromMemory self.old path.now limit result }
        ensures next { (tree_failures self.new).next ≡ (after_call (tree_failures self.old)).next }
        ensures numbers { (tree_failures self.new).numbers ≡ (tree_failures self.old).numbers }
        ensures held { (other : List ℕ) → held self.new other ≡ held self.old other }
    {
        if self.failures.begin() {
            return Err(LoadErr::Failed);
        }
        match self.tree.load(alloc, path, limit) {
            Ok(bytes) => Ok(bytes),
            Err(LoadErr::Absent) => Err(LoadErr::Absent),
            Err(LoadErr::TooLong) => Err(LoadErr::TooLong),
            Err(_) => Err(LoadErr::Oom),
        }
    }
}

/// The file that was set last at this path.
fn find<'a>(files: &'a [HeldFile], path: &[u8]) -> Option<&'a HeldFile>
    ensures { option_copied result ≡ find (λ f. bytes_eq f.path path.now) (reverse files.now) }
{
    files.iter().rev().find(|file| file.path.bytes() == path)
}
