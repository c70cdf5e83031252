// The commands on a tree of files: one checks it, and one builds it and writes the module.
ghost use Rattle.std.specs.Prelude.{◌≡◌, ◌≤◌, [], false, length, slice_index_or};
ghost use Rattle.zw_base.specs.Faults.{Counts};
ghost use Rattle.zw_drive.specs.Due.{IsBuildDue};
ghost use Rattle.zw_drive.specs.Ends.{ChecksTree, IsInRoot, TextChecks, WritesText, WritesTree, tree_failed, out_failed, ungathered};

use crate::compile::compile;
use std::alloc::Global;
use thiserror::Error;
use zw_base::{Oom, PutErr, Refused, Sink, Stop, Tree, Word};
use zw_files::{FileSet, GatherErr, gather};
use zw_form::read_form;
use zw_wasm::write;

/// Why a tree of files doesn't pass, or why nothing, or not all, was written.
#[derive(Debug, Drop, Error)]
pub enum BuildErr {
    /// The first stop, and the path of the file in which it stands.
    #[error("the tree has a stop")]
    Stop(Stop, Word),
    #[error("the tree failed")]
    TreeFault,
    #[error("the output failed")]
    OutFault,
    #[error("out of memory")]
    Oom,
}

/// Checks the tree of files below this root.
pub fn check<T: Tree>(alloc: Global, root: &Word, tree: &mut T) -> Result<(), BuildErr>
    ensures ends { ChecksTree root.now (T.loaded tree.old) (T.loaded tree.new) result }
    ensures cause { Counts (T.faults tree.old) (T.faults tree.new) (tree_failed result) }
    ensures unwritten { out_failed result ≡ false }
{
    match gather(alloc, tree, root) {
        Ok(files) => check_text(alloc, root, root_text(&files)),
        Err(e) => Err(ungathered(e)),
    }
}

/// Builds the tree of files below this root and writes the module to `out`.
pub fn build<T: Tree, O: Sink>(
    alloc: Global,
    root: &Word,
    tree: &mut T,
    out: &mut O,
) -> Result<(), BuildErr>
    ensures ends { WritesTree IsBuildDue root.now (T.loaded tree.old) (T.loaded tree.new) (O.taken out.old) (O.taken out.new) result }
    ensures tree_cause { Counts (T.faults tree.old) (T.faults tree.new) (tree_failed result) }
    ensures out_cause { Counts (O.faults out.old) (O.faults out.new) (out_failed result) }
{
    match gather(alloc, tree, root) {
        Ok(files) => build_text(alloc, root, root_text(&files), out),
        Err(e) => Err(ungathered(e)),
    }
}

/// How a command ends where the files of its tree weren't gathered.
fn ungathered(e: GatherErr) -> BuildErr
    ensures { result ≡ ungathered e }
{
    match e {
        GatherErr::Stop(stop, path) => BuildErr::Stop(stop, path),
        GatherErr::Failed => BuildErr::TreeFault,
        GatherErr::Oom => BuildErr::Oom,
    }
}

/// The text of the root, which is the first file.
fn root_text(files: &FileSet) -> &[u8]
    ensures { result.now ≡ slice_index_or files.now.texts 0 [] }
{
    match files.texts.get(0) {
        Some(text) => text.as_slice(),
        None => &[],
    }
}

/// A stop in the root.
fn stop_in_root(alloc: Global, root: &Word, stop: Stop) -> BuildErr
    ensures { IsInRoot root.now stop result }
{
    match Word::copy(alloc, root.bytes()) {
        Ok(path) => BuildErr::Stop(stop, path),
        Err(Oom) => BuildErr::Oom,
    }
}

/// Checks the text of the root.
fn check_text(alloc: Global, root: &Word, text: &[u8]) -> Result<(), BuildErr>
    requires { length text.now ≤ 4194304 }
    ensures { TextChecks root.now text.now result }
{
    let _program = match read_form(alloc, text) {
        Ok(program) => program,
        Err(Refused::Stop(stop)) => return Err(stop_in_root(alloc, root, stop)),
        Err(Refused::Oom) => return Err(BuildErr::Oom),
    };
    Ok(())
}

/// Builds the text of the root and writes its module to `out`.
fn build_text<O: Sink>(alloc: Global, root: &Word, text: &[u8], out: &mut O) -> Result<(), BuildErr>
    requires { length text.now ≤ 4194304 }
    ensures ends { WritesText root.now text.now (O.taken out.old) (O.taken out.new) result }
    ensures cause { Counts (O.faults out.old) (O.faults out.new) (out_failed result) }
{
    let module = match compile(alloc, text) {
        Ok(module) => module,
        Err(Refused::Stop(stop)) => return Err(stop_in_root(alloc, root, stop)),
        Err(Refused::Oom) => return Err(BuildErr::Oom),
    };
    match write(alloc, &module, out) {
        Ok(()) => Ok(()),
        Err(PutErr::Failed) => Err(BuildErr::OutFault),
        Err(PutErr::Oom) => Err(BuildErr::Oom),
    }
}
