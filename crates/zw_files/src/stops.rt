// The stops of a tree of files that no file's own text tells, and their limits.
use zw_base::StopKind;

/// The file isn't there.
pub const FILE_ABSENT: StopKind = StopKind::Error(1);

/// The root's name doesn't end with `.zig`, or an import names no file below the root folder.
pub const IMPORT_PATH: StopKind = StopKind::Error(2);

/// The file is too long.
pub const FILE_LENGTH: StopKind = StopKind::Limit(1);

/// There are more files than there may be.
pub const FILES: StopKind = StopKind::Limit(2);

/// The files are too long together.
pub const TREE_LENGTH: StopKind = StopKind::Limit(14);

/// The greatest number of bytes in a file.
pub const FILE_LIMIT: u64 = 4_194_304;

/// The greatest number of files.
pub const FILES_LIMIT: usize = 1_024;

/// The greatest number of bytes in all files together.
pub const TREE_LIMIT: u64 = 33_554_432;
