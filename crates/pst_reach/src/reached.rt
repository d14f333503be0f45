//! A folder that is reached from the root folder.

/// A folder or search folder that the root folder reaches, by rows of hierarchy tables ([MS-PST] 2.4.4.4).
#[derive(Clone, Copy, Debug, PartialEq, Eq)]
pub struct Reach {
    /// Its node.
    pub nid: u32,
    /// The folder whose hierarchy table names it: of those that are one row nearer to the root folder, the one with the least
    /// identifier. 0 for the root folder.
    pub parent: u32,
    /// The least number of rows that lead to it from the root folder.
    pub depth: u32,
}
