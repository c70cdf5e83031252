// The turn of a file: it is loaded and read, and its imports are followed.
ghost use Rattle.std.specs.Prelude.{◌≡◌, ◌<◌, ◌≤◌, length, IfOk, IfErr, OnOk, MatchOption, ◌+◌, sum, slice_index_or, []};
ghost use Rattle.zw_base.specs.Faults.{Counts};
ghost use Rattle.zw_files.specs.Discovery.{IsNext, Takes, joined, located, start};
ghost use Rattle.zw_files.specs.Gathering.{FilePasses, FileStops, IsLocated, IsWithin, TurnStops, failed, found_in, names_in, paths_in};
ghost use Rattle.zw_base.specs.declared.files.Answer.{Answer};

use crate::err::GatherErr;
use crate::follow::{first_paths, follow_all};
use crate::read::read;
use crate::stops::{FILE_ABSENT, FILE_LENGTH, FILE_LIMIT, TREE_LENGTH, TREE_LIMIT};
use indexmap::IndexMap;
use sqlite_items::Items;
use std::alloc::Global;
use zw_base::{LoadErr, Oom, Place, Refused, Stop, StopKind, Tree, Word};
use zw_tree::Ast;

/// The paths that were found, and what is known of the files whose turn is past, which are the first ones.
#[derive(Debug, Drop)]
pub(crate) struct Gathering {
    pub(crate) paths: IndexMap<Vec<u8>, Place>,
    pub(crate) texts: Items<Items<u8>>,
    pub(crate) asts: Items<Ast>,
    pub(crate) sizes: Items<u32>,
    pub(crate) imports: Items<Items<(u32, u32)>>,
    /// The sum of the sizes.
    pub(crate) total: u64,
}

/// The root alone, before its turn.
pub(crate) fn begin(alloc: Global, root: &[u8]) -> Result<Gathering, Oom>
    ensures found { IfOk result (λ files. found_in files ≡ start root.now) }
    ensures within { IfOk result IsWithin }
{
    Ok(Gathering {
        paths: first_paths(alloc, root)?,
        texts: Items::new(alloc),
        asts: Items::new(alloc),
        sizes: Items::new(alloc),
        imports: Items::new(alloc),
        total: 0,
    })
}

/// The next file whose turn it is, with the place that first named it. None where each file that was found had its turn.
pub(crate) fn next(alloc: Global, files: &Gathering) -> Result<Option<(Word, Place)>, Oom>
    ensures { IfOk result (λ found. MatchOption found
        (length (names_in files.now.paths) ≤ length files.now.asts)
        (λ file. IsNext (found_in files.now) file.0 file.1)) }
{
    let number = files.asts.len();
    match files.paths.get_index(number) {
        Some((path, place)) => Ok(Some((Word::copy(alloc, path)?, *place))),
        None => Ok(None),
    }
}

/// The path of the file with this number, or none of its bytes where there is no such file.
pub(crate) fn path_in(paths: &IndexMap<Vec<u8>, Place>, number: usize) -> &[u8]
    ensures { result.now ≡ slice_index_or (names_in paths.now) number [] }
{
    match paths.get_index(number) {
        Some((path, _)) => path.as_slice(),
        None => &[],
    }
}

/// The stop, with the path of the file in which its place is.
fn stop_in(alloc: Global, paths: &IndexMap<Vec<u8>, Place>, stop: Stop) -> GatherErr
    ensures { IsLocated (located (names_in paths.now) stop) result }
{
    stop_at(alloc, path_in(paths, stop.place.file as usize), stop)
}

/// The stop, in the file at this path.
pub(crate) fn stop_at(alloc: Global, path: &[u8], stop: Stop) -> GatherErr
    ensures { IsLocated (stop, path.now) result }
{
    match Word::copy(alloc, path) {
        Ok(path) => GatherErr::Stop(stop, path),
        Err(Oom) => GatherErr::Oom,
    }
}

/// The stop of this kind at a place.
fn refuse(alloc: Global, files: &Gathering, kind: StopKind, place: Place) -> GatherErr
    ensures { IsLocated (located (names_in files.now.paths) (record { kind = kind; place = place })) result }
{
    stop_in(alloc, &files.paths, Stop { kind, place })
}

/// The turn of the file at a path, which this place first named, with its text.
fn take_text(
    alloc: Global,
    root: &[u8],
    files: &mut Gathering,
    path: &[u8],
    place: Place,
    text: Items<u8>,
) -> Result<(), GatherErr>
    requires short { length text ≤ 4194304 }
    requires within { IsWithin files.old }
    requires one_left { length files.old.asts < length (names_in files.old.paths) }
    ensures passes { OnOk result (Takes root.now (found_in files.old) path.now place (Answer.Bytes text) (Ok (found_in files.new))) }
    ensures stops { IfErr result (TurnStops root.now (found_in files.old) path.now place (Answer.Bytes text)) }
    ensures within { OnOk result (IsWithin files.new) }
{
    let size = text.len() as u32;
    let total = files.total + size as u64;
    if TREE_LIMIT < total {
        return Err(refuse(alloc, files, TREE_LENGTH, place));
    }
    let ast = match read(alloc, files.asts.len() as u32, text.as_slice()) {
        Ok(ast) => ast,
        Err(Refused::Stop(stop)) => return Err(stop_in(alloc, &files.paths, stop)),
        Err(Refused::Oom) => return Err(GatherErr::Oom),
    };
    match follow_all(alloc, root, path, &mut files.paths, &ast) {
        Ok(imports) => match join(files, text, ast, size, imports) {
            Ok(()) => Ok(()),
            Err(Oom) => Err(GatherErr::Oom),
        },
        Err(Refused::Stop(stop)) => Err(stop_at(alloc, path, stop)),
        Err(Refused::Oom) => Err(GatherErr::Oom),
    }
}

/// A file's turn is past.
fn join(
    files: &mut Gathering,
    text: Items<u8>,
    ast: Ast,
    size: u32,
    imports: Items<(u32, u32)>,
) -> Result<(), Oom>
    requires size { size ≡ length text }
    requires fits { files.old.total + size ≤ TREE_LIMIT }
    requires counted { files.old.total ≡ sum files.old.sizes }
    ensures found { OnOk result (found_in files.new ≡ joined (found_in files.old) text ast (paths_in files.old.paths, imports)) }
    ensures counted { OnOk result (files.new.total ≡ sum files.new.sizes) }
    ensures total { OnOk result (files.new.total ≡ files.old.total + size) }
    ensures paths { OnOk result (files.new.paths ≡ files.old.paths) }
{
    files.texts.push(text)?;
    files.asts.push(ast)?;
    files.sizes.push(size)?;
    files.imports.push(imports)?;
    files.total += size as u64;
    Ok(())
}

/// The load and the turn of the file at a path, which this place first named.
pub(crate) fn take<T: Tree>(
    alloc: Global,
    tree: &mut T,
    root: &[u8],
    files: &mut Gathering,
    path: &Word,
    place: Place,
) -> Result<(), GatherErr>
    requires within { IsWithin files.old }
    requires one_left { length files.old.asts < length (names_in files.old.paths) }
    ensures passes { OnOk result (FilePasses root.now (found_in files.old) path.now place (T.loaded tree.old) (T.loaded tree.new) (found_in files.new)) }
    ensures stops { IfErr result (FileStops root.now (found_in files.old) path.now place (T.loaded tree.old) (T.loaded tree.new)) }
    ensures within { OnOk result (IsWithin files.new) }
    ensures cause { Counts (T.faults tree.old) (T.faults tree.new) (failed result) }
{
    match tree.load(alloc, path, FILE_LIMIT) {
        Ok(text) => take_text(
            alloc,
            root,
            files,
            path.bytes(),
            place,
            Items::from_vec(text),
        ),
        Err(LoadErr::Absent) => Err(refuse(alloc, files, FILE_ABSENT, place)),
        Err(LoadErr::TooLong) => Err(refuse(alloc, files, FILE_LENGTH, place)),
        Err(LoadErr::Failed) => Err(GatherErr::Failed),
        Err(LoadErr::Oom) => Err(GatherErr::Oom),
    }
}
