// The files of a tree, from its root on.
ghost use Rattle.std.specs.Prelude.{◌≡◌, IfErr, IfOk, OnOk};
ghost use Rattle.zw_base.specs.Faults.{Counts};
ghost use Rattle.zw_files.specs.Discovery.{root_place};
ghost use Rattle.zw_files.specs.Gathering.{Gathers, IsFileSet, IsLocated, IsWithin, PassesAll, PassesUpTo, failed, found_in, names_in};

use crate::err::GatherErr;
use crate::file_set::FileSet;
use crate::stops::IMPORT_PATH;
use crate::turn::{Gathering, begin, next, path_in, stop_at, take};
use indexmap::IndexMap;
use sqlite_items::Items;
use std::alloc::Global;
use zw_base::{Oom, Place, Stop, Tree, Word};

/// The stop of a root that can't be one.
fn refused(alloc: Global, root: &Word) -> GatherErr
    ensures { IsLocated (record { kind = IMPORT_PATH; place = root_place }, root.now) result }
{
    let place = Place {
        file: 0,
        line: 1,
        column: 1,
    };
    stop_at(
        alloc,
        root.bytes(),
        Stop {
            kind: IMPORT_PATH,
            place,
        },
    )
}

/// The paths as words.
fn words(alloc: Global, paths: &IndexMap<Vec<u8>, Place>) -> Result<Items<Word>, Oom>
    ensures { IfOk result (λ words. words ≡ names_in paths.now) }
{
    let mut words = Items::new(alloc);
    for number in 0..paths.len() {
        words.push(Word::copy(alloc, path_in(paths, number))?)?;
    }
    Ok(words)
}

/// The set of the files whose turn is past.
fn file_set(alloc: Global, files: Gathering) -> Result<FileSet, Oom>
    ensures { IfOk result (IsFileSet (found_in files)) }
{
    let paths = words(alloc, &files.paths)?;
    Ok(FileSet {
        paths,
        texts: files.texts,
        asts: files.asts,
        sizes: files.sizes,
        imports: files.imports,
    })
}

/// The turns of all files that were found, and that are found behind them.
fn discover<T: Tree>(
    alloc: Global,
    tree: &mut T,
    root: &[u8],
    files: &mut Gathering,
) -> Result<(), GatherErr>
    requires { IsWithin files.old }
    ensures passes { OnOk result (PassesAll root.now (found_in files.old) (T.loaded tree.old) (T.loaded tree.new) (found_in files.new)) }
    ensures stops { IfErr result (PassesUpTo root.now (found_in files.old) (T.loaded tree.old) (T.loaded tree.new)) }
    ensures cause { Counts (T.faults tree.old) (T.faults tree.new) (failed result) }
{
    loop {
        let (path, place) = match next(alloc, files) {
            Ok(Some(file)) => file,
            Ok(None) => return Ok(()),
            Err(Oom) => return Err(GatherErr::Oom),
        };
        match take(alloc, tree, root, files, &path, place) {
            Ok(()) => {}
            Err(e) => return Err(e),
        }
    }
}

/// The files of the tree below this root, in the order in which they are found: the root, then the files that its imports name, in
/// the order of its text, and so on through the list; each is loaded once, with at most 4,194,304 bytes.
///
/// A stop is the first one in the order in which the files have their turns, with the path of the file in which its place is. At its
/// turn a file is absent (error 1) or too long (limit 1), or the files are too long together (limit 14), at the place that first named
/// it; else its text has no tokens (errors 3, 4, 5 and 7) or no tree (error 6, limit 3); else its tree breaks a rule on names, labels and
/// jumps (errors 8 to 13, the first by place, and at one place by number); else one of its imports names no file below the root folder
/// (error 2), or one too many (limit 2). A root whose name doesn't end with `.zig` is error 2, and nothing is loaded. `Failed` comes only
/// where a load failed.
pub fn gather<T: Tree>(alloc: Global, tree: &mut T, root: &Word) -> Result<FileSet, GatherErr>
    ensures gathers { Gathers root.now (T.loaded tree.old) (T.loaded tree.new) result }
    ensures cause { Counts (T.faults tree.old) (T.faults tree.new) (failed result) }
{
    if !root.bytes().ends_with(b".zig") {
        return Err(refused(alloc, root));
    }
    let mut files = match begin(alloc, root.bytes()) {
        Ok(files) => files,
        Err(Oom) => return Err(GatherErr::Oom),
    };
    match discover(alloc, tree, root.bytes(), &mut files) {
        Ok(()) => {}
        Err(e) => return Err(e),
    }
    match file_set(alloc, files) {
        Ok(set) => Ok(set),
        Err(Oom) => Err(GatherErr::Oom),
    }
}
