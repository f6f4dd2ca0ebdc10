// The calls of a store of files.

/// What a call of a store of files does.
#[derive(Clone, Copy, PartialEq, Eq)]
pub enum FileAction {
    Read,
    Write,
    Size,
    ReadAt,
    Append,
}

/// A call of a store of files: what it does, and the path that it names.
#[derive(Drop)]
pub struct FileCall {
    pub action: FileAction,
    pub path: String,
}
