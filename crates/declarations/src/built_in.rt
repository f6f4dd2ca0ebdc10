/// A function that is there without a declaration.
#[derive(Clone, Copy)]
pub enum BuiltIn {
    Size,
    Cat,
    Sum,
    BitExtract,
    Lookup,
}
