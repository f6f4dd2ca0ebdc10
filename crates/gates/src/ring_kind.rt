/// The ring in which a value is shared.
#[derive(Clone, Copy, Debug)]
pub enum RingKind {
    /// The integers modulo 2^64, for numbers.
    Arithmetic,
    /// The 64-bit words with xor as sum and `and` as product, for truth values and bits.
    Boolean,
}
