ghost use Rattle.std.specs.Prelude.{◌≡◌, false};
ghost use Rattle.program_trees.specs.Shapes.{shape_of};

use crate::expression::DataType;

/// What a value is made of, whoever may see it: the type of its elements, and whether it is an array.
#[derive(Clone, Copy, PartialEq, Eq)]
pub struct Shape {
    pub element: DataType,
    pub array: bool,
}

impl Shape {
    /// The shape of a scalar.
    pub fn scalar(element: DataType) -> Shape
        ensures { result ≡ shape_of element false }
    {
        Shape {
            element,
            array: false,
        }
    }
}

/// Who may see what stands in a slot.
#[derive(Clone, Copy)]
pub enum SlotDomain {
    /// Everybody.
    Public,
    /// The private domain of this number, counted from 0 in the order in which the program declares them.
    Private(usize),
    /// What a call binds the function's domain variable of this number to, counted from 0.
    Variable(usize),
}

/// A variable or a parameter of a function, or what it gives back.
#[derive(Clone, Copy)]
pub struct Slot {
    pub domain: SlotDomain,
    pub shape: Shape,
}
