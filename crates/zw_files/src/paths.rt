// Paths below the root folder, and where an import literal leads.
ghost use Rattle.std.specs.Prelude.{◌≡◌, ◌<◌, ◌≤◌, length, map, [], ◌∷◌, drop, MatchBool, MatchOption, ◌++◌, IfOk, OnOk, Some, None};
ghost use Rattle.std.specs.List.{position_or_len};
ghost use Rattle.std.specs.Str.{is_utf8};
ghost use Rattle.zw_files.specs.Paths.{all_but_last, is_slash, may_be_path, path_below, resolved, root_folder, segments, step, up, walk};

use std::alloc::Global;
use zw_base::Oom;

/// Where the first slash of a path stands, or the path's length.
fn first_slash(path: &[u8]) -> usize
    ensures within { result ≤ length path.now }
    ensures at { result ≡ position_or_len is_slash path.now }
{
    for (at, byte) in path.iter().enumerate() {
        if *byte == b'/' {
            return at;
        }
    }
    path.len()
}

/// The first segment of a path, and what stands behind the slash behind it, where there is one.
fn first_segment(path: &[u8]) -> (&[u8], Option<&[u8]>)
    ensures { MatchOption result.1
        (segments path.now ≡ result.0.now ∷ [])
        (λ behind. (segments path.now ≡ result.0.now ∷ segments behind.now) × (length behind.now < length path.now)) }
{
    let end = first_slash(path);
    if end == path.len() {
        return (path, None);
    }
    (&path[..end], Some(&path[end + 1..]))
}

/// The root folder's path.
pub(crate) fn root_folder(root: &[u8]) -> &[u8]
    ensures { result.now ≡ root_folder root.now }
{
    let mut end = root.len();
    while end > 0 {
        if root[end - 1] == b'/' {
            return &root[..end];
        }
        end -= 1;
    }
    &[]
}

/// The folders in which the file at a path lies, from the outermost on. The path is below the root folder.
fn folders<'p>(alloc: Global, below: &'p [u8]) -> Result<Vec<&'p [u8]>, Oom>
    ensures { IfOk result (λ folders. map (λ folder. folder.now) folders.items ≡ all_but_last (segments below.now)) }
{
    let mut folders = Vec::new(alloc);
    let mut rest = below;
    loop {
        let (folder, behind) = first_segment(rest);
        let Some(behind) = behind else {
            return Ok(folders);
        };
        folders.push(folder)?;
        rest = behind;
    }
}

/// Goes one folder up. Answers false where no way leads up.
fn go_up<'p>(folders: &mut Vec<&'p [u8]>) -> bool
    ensures { MatchBool result
        (up (map (λ folder. folder.now) folders.old.items) ≡ Some (map (λ folder. folder.now) folders.new.items))
        (up (map (λ folder. folder.now) folders.old.items) ≡ None) }
{
    match folders.pop() {
        Some(_) => true,
        None => false,
    }
}

/// Goes from folders to where a segment leads. Answers false where it leads nowhere.
fn step<'p>(folders: &mut Vec<&'p [u8]>, segment: &'p [u8]) -> Result<bool, Oom>
    ensures { IfOk result (λ leads. MatchBool leads
        (step (map (λ folder. folder.now) folders.old.items) segment.now ≡ Some (map (λ folder. folder.now) folders.new.items))
        (step (map (λ folder. folder.now) folders.old.items) segment.now ≡ None)) }
{
    if segment.is_empty() {
        return Ok(false);
    }
    if segment == b".".as_slice() {
        return Ok(true);
    }
    if segment == b"..".as_slice() {
        return Ok(go_up(folders));
    }
    folders.push(segment)?;
    Ok(true)
}

/// Goes from folders to where a literal leads. Answers false where it leads nowhere.
fn walk<'p>(folders: &mut Vec<&'p [u8]>, literal: &'p [u8]) -> Result<bool, Oom>
    ensures { IfOk result (λ leads. MatchBool leads
        (walk (map (λ folder. folder.now) folders.old.items) (segments literal.now) ≡ Some (map (λ folder. folder.now) folders.new.items))
        (walk (map (λ folder. folder.now) folders.old.items) (segments literal.now) ≡ None)) }
{
    let mut rest = literal;
    loop {
        let (segment, behind) = first_segment(rest);
        if !step(folders, segment)? {
            return Ok(false);
        }
        let Some(behind) = behind else {
            return Ok(true);
        };
        rest = behind;
    }
}

/// Whether bytes are UTF-8.
fn is_utf8(bytes: &[u8]) -> bool
    ensures { result ≡ is_utf8 bytes.now }
{
    match str::from_utf8(bytes) {
        Ok(_) => true,
        Err(_) => false,
    }
}

/// Whether a literal may be a path: it is UTF-8 without a zero byte, and ends with `.zig`.
fn may_be_path(literal: &[u8]) -> bool
    ensures { result ≡ may_be_path literal.now }
{
    is_utf8(literal) && !literal.contains(&0) && literal.ends_with(b".zig")
}

/// Puts the segment of this number behind a path.
fn push_segment(path: &mut Vec<u8>, number: usize, segment: &[u8]) -> Result<(), Oom>
    ensures first { OnOk result (number ≡ 0 → path.new.items ≡ path.old.items ++ segment.now) }
    ensures later { OnOk result (0 < number → path.new.items ≡ path.old.items ++ (47 ∷ segment.now)) }
{
    if number > 0 {
        path.push(b'/')?;
    }
    path.extend_from_slice(segment)?;
    Ok(())
}

/// A path below the root folder, from its segments.
fn path_below(alloc: Global, root: &[u8], below: &[&[u8]]) -> Result<Vec<u8>, Oom>
    ensures { IfOk result (λ path. path.items ≡ path_below root.now (map (λ segment. segment.now) below.now)) }
{
    let mut path = Vec::from_slice(alloc, root_folder(root))?;
    for (at, segment) in below.iter().enumerate() {
        push_segment(&mut path, at, segment)?;
    }
    Ok(path)
}

/// What a path has below the root folder.
fn below_root<'p>(root: &[u8], path: &'p [u8]) -> &'p [u8]
    ensures { result.now ≡ drop (length (root_folder root.now)) path.now }
{
    let from = root_folder(root).len();
    if from <= path.len() {
        &path[from..]
    } else {
        &[]
    }
}

/// The path of the file that a literal names in the file at a path. None where it names none: it isn't UTF-8, has a zero byte or
/// an empty segment, doesn't end with `.zig`, or leaves the root folder.
pub(crate) fn resolved(
    alloc: Global,
    root: &[u8],
    path: &[u8],
    literal: &[u8],
) -> Result<Option<Vec<u8>>, Oom>
    ensures { IfOk result (λ named. MatchOption named
        (resolved root.now path.now literal.now ≡ None)
        (λ path_named. resolved root.now path.now literal.now ≡ Some path_named.items)) }
{
    if !may_be_path(literal) {
        return Ok(None);
    }
    let mut way = folders(alloc, below_root(root, path))?;
    if !walk(&mut way, literal)? {
        return Ok(None);
    }
    Ok(Some(path_below(alloc, root, &way)?))
}
