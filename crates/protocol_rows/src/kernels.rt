// Lists of words by kernels, and truth values packed into words.
ghost use Rattle.std.specs.Prelude.{◌≤◌};

use bit_words::{bit_put, bit_taken, bits_joined, bits_repeated, packed, unpacked, words_for};
use lane_kernel::LaneRing;
use proto_core::{AddRing, XorRing};
use row_files::Lines;
use std::alloc::{AllocError, Global};

const TOP: u64 = 18_446_744_073_709_551_615;

// Lengths about those of one and of two lists of lanes.
const LENGTHS: [usize; 5] = [0, 1, 8, 9, 17];

fn add_words(lines: &mut Lines, words: &[u64]) {
    write!(lines, " {words:?}");
}

// The sums of `count` words a and as many b.
fn add_sums<R: LaneRing>(lines: &mut Lines, count: usize, a: u64, b: u64)
    requires { count ≤ 17 }
{
    let mut made = [a; 17];
    R::add_into(&mut made[..count], &[b; 17][..count]);
    add_words(lines, &made[..count]);
}

// The differences and the products of `count` words 5 and as many 3.
fn add_others<R: LaneRing>(lines: &mut Lines, count: usize)
    requires { count ≤ 17 }
{
    let others = [3; 17];
    let (mut differences, mut products) = ([5; 17], [5; 17]);
    R::sub_into(&mut differences[..count], &others[..count]);
    R::mul_into(&mut products[..count], &others[..count]);
    add_words(lines, &differences[..count]);
    add_words(lines, &products[..count]);
}

// What u v + u v' + u' v is of 2, 3, 5 and 7, so many times.
fn add_cross<R: LaneRing>(lines: &mut Lines, count: usize)
    requires { count ≤ 17 }
{
    let mut made = [9; 17];
    R::cross_into(
        &mut made[..count],
        &[2; 17][..count],
        &[3; 17][..count],
        &[5; 17][..count],
        &[7; 17][..count],
    );
    add_words(lines, &made[..count]);
}

fn tell_lanes(lines: &mut Lines, count: usize)
    requires { count ≤ 17 }
{
    write!(lines, "by sum, {count}:");
    add_sums::<AddRing>(lines, count, TOP, 1);
    add_others::<AddRing>(lines, count);
    add_cross::<AddRing>(lines, count);
    write!(lines, "\nby xor, {count}:");
    add_sums::<XorRing>(lines, count, 5, 3);
    add_others::<XorRing>(lines, count);
    add_cross::<XorRing>(lines, count);
    lines.add("\n");
}

fn add_made(lines: &mut Lines, made: Result<Vec<u64>, AllocError>) {
    match made {
        Ok(words) => add_words(lines, &words),
        Err(AllocError) => lines.run_short(),
    }
}

// 65 truth values, of which the first, third and last are set.
fn tell_packed(alloc: Global, lines: &mut Lines) {
    let mut elements = [0; 65];
    elements[0] = 1;
    elements[1] = 2;
    elements[2] = 7;
    elements[64] = 3;
    lines.add("packed");
    add_made(lines, packed(alloc, &elements));
    add_made(lines, packed(alloc, &[]));
    add_made(lines, unpacked(alloc, &[10, 1], 5));
    add_made(lines, unpacked(alloc, &[10, 1], 0));
    lines.add("\n");
}

fn tell_taken(alloc: Global, lines: &mut Lines) {
    lines.add("taken");
    add_made(lines, bit_taken(alloc, &[5, 1], 64));
    add_made(lines, bit_taken(alloc, &[5, 1], 65));
    add_made(lines, bit_taken(alloc, &[5, 1], 200));
    lines.add("\nrepeated");
    add_made(lines, bits_repeated(alloc, &[3], 65));
    add_made(lines, bits_repeated(alloc, &[2], 65));
    lines.add("\n");
}

fn tell_changed(alloc: Global, lines: &mut Lines) {
    lines.add("joined");
    add_made(lines, bits_joined(alloc, &[5], 3, &[1], 1));
    add_made(lines, bits_joined(alloc, &[1 << 63], 64, &[7], 2));
    lines.add("\nput");
    add_made(lines, bit_put(alloc, &[5], 1, &[1]));
    add_made(lines, bit_put(alloc, &[5, 1], 64, &[2]));
    add_made(lines, bit_put(alloc, &[5], 64, &[1]));
    lines.add("\n");
}

/// The lines of kernels at some lengths, and of packed truth values.
pub fn tell(alloc: Global, lines: &mut Lines) {
    for count in LENGTHS {
        tell_lanes(lines, count);
    }
    let counts = [
        words_for(0),
        words_for(1),
        words_for(64),
        words_for(65),
        words_for(TOP),
    ];
    write!(lines, "words for {counts:?}\n");
    tell_packed(alloc, lines);
    tell_taken(alloc, lines);
    tell_changed(alloc, lines);
}
