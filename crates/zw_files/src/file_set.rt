// The files of a tree.
use sqlite_items::Items;
use zw_base::Word;
use zw_tree::Ast;

/// The files of a tree, in the order in which they were found, the root first: five lists of one length.
#[derive(Debug, Drop)]
pub struct FileSet {
    /// The path of each file: the root's is as it was given, and another's is the root folder's path with the way down from there.
    pub paths: Items<Word>,
    /// The bytes of each file.
    pub texts: Items<Items<u8>>,
    /// The tree of each file, whose places have the file's number.
    pub asts: Items<Ast>,
    /// The number of bytes of each file.
    pub sizes: Items<u32>,
    /// For each file its imports in the order of the text: the number of the node, and that of the file that it names.
    pub imports: Items<Items<(u32, u32)>>,
}
