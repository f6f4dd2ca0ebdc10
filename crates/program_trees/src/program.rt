use crate::function::Function;
use crate::statement::Identifier;
use sc_text::Span;

/// A part of a program.
pub enum Item {
    /// `import NAME;`
    Import(Identifier),
    /// `kind NAME;`
    Kind(Identifier),
    /// `domain NAME KIND;`
    Domain(Identifier, Identifier),
    Function(Function),
}

impl Drop for Item {
    fn drop(self) {
        match self {
            Item::Import(_) | Item::Kind(_) | Item::Domain(_, _) | Item::Function(_) => {}
        }
    }
}

/// A program, with the place where its text ends.
pub struct Program {
    pub items: Vec<Item>,
    pub end: Span,
}

// Written out, so that an early exit calls this once.
impl Drop for Program {
    fn drop(self) {
        let Program { items: _, end: _ } = self;
    }
}
