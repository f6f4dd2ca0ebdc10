// Which gates suit the sizes of the values before them.
ghost use Rattle.std.specs.Prelude.{◌≡◌, ◌<◌, ◌↔◌, length, IsTrue};
ghost use Rattle.protocol_model.specs.Gates.{sizes_of};
ghost use Rattle.gates.specs.Bits.{words_for};
ghost use Rattle.gates.specs.Counts.{size_of};
ghost use Rattle.shared_gates.specs.Model.{PairOf, SizesSuit};

use gates::{Gate, Values, words_for};

/// Whether there is a value of this number.
#[tactic(auto, using(crate::proofs::Sizes::size_steps))]
fn is_there(values: &Values, number: u64) -> bool
    ensures { IsTrue result ↔ (number < length (sizes_of values.now)) }
{
    number < values.len() as u64
}

/// How many words the value of a number has.
#[tactic(auto, using(crate::proofs::Sizes::size_steps))]
fn size(values: &Values, number: u64) -> usize
    ensures { result ≡ size_of (sizes_of values.now) number }
{
    values.value(number).len()
}

/// Whether both values are there and have equally many words.
fn are_pair(values: &Values, left: u64, right: u64) -> bool
    ensures { IsTrue result ↔ PairOf (sizes_of values.now) left right }
{
    is_there(values, left) && is_there(values, right) && size(values, left) == size(values, right)
}

/// Whether the value is there and has one word.
fn is_single(values: &Values, number: u64) -> bool
    ensures { IsTrue result ↔ ((number < length (sizes_of values.now)) × (size_of (sizes_of values.now) number ≡ 1)) }
{
    is_there(values, number) && size(values, number) == 1
}

/// Whether the value is there and has as many words as hold so many bits.
fn holds_bits(values: &Values, number: u64, count: u64) -> bool
    ensures { IsTrue result ↔ ((number < length (sizes_of values.now)) × (size_of (sizes_of values.now) number ≡ words_for count)) }
{
    is_there(values, number) && size(values, number) as u64 == words_for(count)
}

/// Whether the gate's operands are there and have the sizes that it takes, by what was dealt and the values before it.
pub fn suits(gate: &Gate, dealt: &Values, values: &Values) -> bool
    ensures { IsTrue result ↔ SizesSuit (sizes_of dealt.now) (sizes_of values.now) gate.now }
{
    match gate {
        Gate::Input { number } => is_there(dealt, *number),
        Gate::Const { .. } => true,
        Gate::Add { left, right }
        | Gate::Sub { left, right }
        | Gate::Mul { left, right }
        | Gate::Xor { left, right }
        | Gate::And { left, right } => are_pair(values, *left, *right),
        Gate::MulPub { operand, list, .. } => {
            is_there(values, *operand) && size(values, *operand) == list.as_slice().len()
        }
        Gate::Cat { left, right } => is_there(values, *left) && is_there(values, *right),
        Gate::Part {
            operand,
            from,
            count,
        } => {
            let len = size(values, *operand) as u64;
            is_there(values, *operand) && *from <= len && *count <= len - *from
        }
        Gate::Put {
            operand,
            index,
            element,
        } => {
            is_there(values, *operand)
                && *index < size(values, *operand) as u64
                && is_single(values, *element)
        }
        Gate::Rep { operand, .. } | Gate::RepBit { operand, .. } => is_single(values, *operand),
        Gate::Unpack { operand, count } => holds_bits(values, *operand, *count),
        Gate::PartBit { operand, index } => {
            is_there(values, *operand) && *index / 64 < size(values, *operand) as u64
        }
        Gate::PutBit {
            operand,
            index,
            element,
        } => {
            is_there(values, *operand)
                && *index / 64 < size(values, *operand) as u64
                && is_single(values, *element)
        }
        Gate::CatBit {
            left,
            left_count,
            right,
            right_count,
        } => holds_bits(values, *left, *left_count) && holds_bits(values, *right, *right_count),
        Gate::SumEach {
            operand,
            size: parts,
            count,
        } => {
            let len = size(values, *operand) as u128;
            is_there(values, *operand) && len == u128::from(*parts) * u128::from(*count)
        }
        Gate::Not { operand }
        | Gate::Shl { operand, .. }
        | Gate::Shr { operand, .. }
        | Gate::Low { operand }
        | Gate::Pack { operand }
        | Gate::Sum { operand }
        | Gate::Stretch { operand, .. }
        | Gate::Tile { operand, .. }
        | Gate::Split { operand, .. }
        | Gate::Conv { operand }
        | Gate::Open { operand, .. }
        | Gate::Result { operand, .. } => is_there(values, *operand),
    }
}

/// Whether two lists of values have the same sizes.
#[tactic(auto, using(crate::proofs::Sizes::size_steps))]
pub fn same_sizes(xs: &Values, ys: &Values) -> bool
    ensures { IsTrue result ↔ (sizes_of xs.now ≡ sizes_of ys.now) }
{
    if xs.len() != ys.len() {
        return false;
    }
    for k in 0..xs.len() as u64 {
        if xs.value(k).len() != ys.value(k).len() {
            return false;
        }
    }
    true
}
