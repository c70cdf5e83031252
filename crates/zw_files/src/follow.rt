// The imports of a file: the files that they name, by number.
ghost use Rattle.std.specs.Prelude.{◌≡◌, ◌-◌, ◌<◌, ◌≤◌, length, drop, false, [], Some, OnOk, IfOk};
ghost use Rattle.std.specs.List.{list_any};
ghost use Rattle.std.specs.Option.{option_map};
ghost use Rattle.std.specs.Str.{bytes_eq};
ghost use Rattle.zw_files.specs.Discovery.{with_path, first_paths, follow, follow_all, name_path};
ghost use Rattle.zw_files.specs.Gathering.{Follows, LeadsOn, names_in, paths_in};
ghost use Rattle.zw_files.specs.Imports.{imports, imports_from, is_builtin, is_import};
ghost use Rattle.zw_tree.specs.Numbering.{node_at};
ghost use Rattle.zw_tree.specs.Trees.{count, preorder};

use crate::paths::resolved;
use crate::stops::{FILES, FILES_LIMIT, IMPORT_PATH};
use indexmap::IndexMap;
use sqlite_items::Items;
use std::alloc::Global;
use zw_base::{Oom, Place, Refused, Stop};
use zw_tree::{Ast, NodeKind};

/// Puts a new path behind the others.
fn put(paths: &mut IndexMap<Vec<u8>, Place>, path: Vec<u8>, place: Place) -> Result<(), Oom>
    requires { list_any (bytes_eq path.items) (names_in paths.old) ≡ false }
    ensures { OnOk result (paths_in paths.new ≡ with_path (paths_in paths.old) place path.items) }
{
    paths.insert(path, place)?;
    Ok(())
}

/// The path of the root alone, named at its first byte.
pub(crate) fn first_paths(alloc: Global, root: &[u8]) -> Result<IndexMap<Vec<u8>, Place>, Oom>
    ensures { IfOk result (λ paths. paths_in paths ≡ first_paths root.now) }
{
    let mut paths = IndexMap::new(alloc);
    let place = Place {
        file: 0,
        line: 1,
        column: 1,
    };
    put(&mut paths, Vec::from_slice(alloc, root)?, place)?;
    Ok(paths)
}

/// The number of a new file, at a path that a place names. Limit 2 where there would be too many files.
fn add_path(
    paths: &mut IndexMap<Vec<u8>, Place>,
    place: Place,
    path: Vec<u8>,
) -> Result<u32, Refused>
    requires few { length (names_in paths.old) ≤ FILES_LIMIT }
    requires is_new { list_any (bytes_eq path.items) (names_in paths.old) ≡ false }
    ensures named { Follows (name_path (paths_in paths.old) place path.items) (paths_in paths.new) result }
    ensures few { OnOk result (length (names_in paths.new) ≤ FILES_LIMIT) }
{
    let number = paths.len();
    if number >= FILES_LIMIT {
        return Err(Refused::Stop(Stop { kind: FILES, place }));
    }
    put(paths, path, place)?;
    Ok(number as u32)
}

/// The number of the file at a path that a place names, which is a new one where the path is new. Limit 2 where there would be too
/// many files.
fn name_path(
    paths: &mut IndexMap<Vec<u8>, Place>,
    place: Place,
    path: Vec<u8>,
) -> Result<u32, Refused>
    requires { length (names_in paths.old) ≤ FILES_LIMIT }
    ensures named { Follows (name_path (paths_in paths.old) place path.items) (paths_in paths.new) result }
    ensures few { OnOk result (length (names_in paths.new) ≤ FILES_LIMIT) }
{
    match paths.get_index_of(path.as_slice()) {
        Some(number) => Ok(number as u32),
        None => add_path(paths, place, path),
    }
}

/// The number of the file that a literal names in the file at a path. Error 2 where it names none, and limit 2 where there would be
/// too many files.
fn follow(
    alloc: Global,
    root: &[u8],
    path: &[u8],
    paths: &mut IndexMap<Vec<u8>, Place>,
    place: Place,
    literal: &[u8],
) -> Result<u32, Refused>
    requires { length (names_in paths.old) ≤ FILES_LIMIT }
    ensures named { Follows (follow root.now path.now (paths_in paths.old) place literal.now) (paths_in paths.new) result }
    ensures few { OnOk result (length (names_in paths.new) ≤ FILES_LIMIT) }
{
    match resolved(alloc, root, path, literal)? {
        Some(named) => name_path(paths, place, named),
        None => Err(Refused::Stop(Stop {
            kind: IMPORT_PATH,
            place,
        })),
    }
}

/// Whether nodes of this kind are builtins.
fn is_builtin(kind: NodeKind) -> bool
    ensures { result ≡ is_builtin kind }
{
    match kind {
        NodeKind::Builtin => true,
        _ => false,
    }
}

/// Whether a node is an import.
fn is_import(ast: &Ast, n: u32) -> bool
    requires { n < count ast.now }
    ensures { option_map is_import (node_at ast.now n) ≡ Some result }
{
    is_builtin(ast.node(n).kind) && ast.name(n) == b"import".as_slice()
}

/// Follows the node before the one with this number, if it is an import.
fn follow_before(
    alloc: Global,
    root: &[u8],
    path: &[u8],
    paths: &mut IndexMap<Vec<u8>, Place>,
    numbers: &mut Items<(u32, u32)>,
    ast: &Ast,
    literal: u32,
) -> Result<(), Refused>
    requires few { length (names_in paths.old) ≤ FILES_LIMIT }
    requires some { 0 < literal }
    requires within { literal < count ast.now }
    ensures named { LeadsOn
        (follow_all root.now path.now (paths_in paths.old) numbers.old (imports_from (literal - 1) (drop (literal - 1) (preorder ast.now))))
        (follow_all root.now path.now (paths_in paths.new) numbers.new (imports_from literal (drop literal (preorder ast.now))))
        result }
    ensures few { OnOk result (length (names_in paths.new) ≤ FILES_LIMIT) }
{
    let node = literal - 1;
    if !is_import(ast, node) {
        return Ok(());
    }
    let place = ast.node(literal).place;
    let number = match follow(alloc, root, path, paths, place, ast.name(literal)) {
        Ok(number) => number,
        Err(refused) => return Err(refused),
    };
    numbers.push((node, number))?;
    Ok(())
}

/// The imports of the file at a path, in the order of the text, each by its node and by the number of the file that it names. Stops
/// at the first one that names none, or one too many.
pub(crate) fn follow_all(
    alloc: Global,
    root: &[u8],
    path: &[u8],
    paths: &mut IndexMap<Vec<u8>, Place>,
    ast: &Ast,
) -> Result<Items<(u32, u32)>, Refused>
    requires { length (names_in paths.old) ≤ FILES_LIMIT }
    ensures named { Follows (follow_all root.now path.now (paths_in paths.old) [] (imports ast.now)) (paths_in paths.new) result }
    ensures few { OnOk result (length (names_in paths.new) ≤ FILES_LIMIT) }
{
    let mut numbers = Items::new(alloc);
    for literal in 1..ast.count() {
        match follow_before(alloc, root, path, paths, &mut numbers, ast, literal) {
            Ok(()) => {}
            Err(refused) => return Err(refused),
        }
    }
    Ok(numbers)
}
