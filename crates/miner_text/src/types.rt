// The types of shared values, as words.
ghost use Rattle.std.specs.Prelude.{◌≡◌};
ghost use Rattle.miner_text.specs.Lines.{type_word};
ghost use Rattle.miner_text.specs.Reading.{type_in};

use program_trees::DataType;
use view_reader::is_word;

/// The word for a type: `uint64`, `int64` or `bool`.
pub fn type_word(element: DataType) -> &'static str
    ensures { result.now ≡ type_word element }
{
    match element {
        DataType::Uint64 => "uint64",
        DataType::Int64 => "int64",
        DataType::Bool => "bool",
    }
}

/// The type of which this is the word.
pub fn type_in(word: &[u8]) -> Option<DataType>
    ensures { result ≡ type_in word.now }
{
    if is_word(word, "uint64") {
        Some(DataType::Uint64)
    } else if is_word(word, "int64") {
        Some(DataType::Int64)
    } else if is_word(word, "bool") {
        Some(DataType::Bool)
    } else {
        None
    }
}
