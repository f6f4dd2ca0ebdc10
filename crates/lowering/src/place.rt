use lowered_expressions::Around;

/// Where a statement stands: what an expression there has around it, and whether the function gives back a private value.
#[derive(Clone, Copy)]
pub struct LoweringContext<'a> {
    pub around: Around<'a>,
    pub secret_result: bool,
}
