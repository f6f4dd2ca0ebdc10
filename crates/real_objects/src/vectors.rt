use std::alloc::AllocError;

/// Puts one more item at the end. Without memory the item is gone.
pub(crate) fn push<T: Drop>(items: &mut Vec<T>, item: T) -> Result<(), AllocError> {
    items.push(item)?;
    Ok(())
}
