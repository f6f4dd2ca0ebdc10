// Both rings, by their bound.
use crate::lines::line;
use proto_core::{AddRing, ShareRing, XorRing};
use row_files::Lines;

const TOP: u64 = 18_446_744_073_709_551_615;

// a - b + b * c, through the bound alone.
fn mixed<R: ShareRing>(a: u64, b: u64, c: u64) -> u64 {
    R::add(R::add(R::sub(a, b), R::mul(b, c)), R::zero())
}

const NUMBERS: [[u64; 3]; 4] = [[0, 0, 0], [3, 5, 7], [0, 1, 0], [TOP, TOP, TOP]];

/// A line of each three numbers a, b and c, with a - b + b * c in both rings.
pub fn tell(lines: &mut Lines) {
    for [a, b, c] in NUMBERS {
        let sum = mixed::<AddRing>(a, b, c);
        let xor = mixed::<XorRing>(a, b, c);
        line(lines, "rings", &[a, b, c, sum, xor]);
    }
}
