// Which link is delivered next, where no schedule says it.
ghost use Rattle.std.specs.Prelude.{◌≡◌, filter, length, slice_get};
ghost use Rattle.protocol_model.specs.Network.{all_links, chosen};
ghost use Rattle.counted_net.specs.Nets.{full_links, is_marked};

use crate::net::Net;
use crate::tally::place;
use proto_core::Link;

/// All links, in order.
const LINKS: [Link; 6] = [
    Link::Link12,
    Link::Link13,
    Link::Link21,
    Link::Link23,
    Link::Link31,
    Link::Link32,
];

/// Whether this link is one of those that are marked.
fn is_marked(marks: &[bool; 6], link: Link) -> bool
    ensures { result ≡ is_marked marks.now link }
{
    marks[place(link)]
}

/// How many links are marked.
fn marked_count(marks: &[bool; 6]) -> usize
    ensures { result ≡ length (filter (is_marked marks.now) all_links) }
{
    let mut count = 0;
    for link in &LINKS {
        if is_marked(marks, *link) {
            count += 1;
        }
    }
    count
}

/// Of the marked links, in order, the one of this number, from 0.
fn marked_link(marks: &[bool; 6], number: usize) -> Option<Link>
    ensures { result ≡ slice_get (filter (is_marked marks.now) all_links) number }
{
    let mut left = number;
    for link in &LINKS {
        if is_marked(marks, *link) {
            if left == 0 {
                return Some(*link);
            }
            left -= 1;
        }
    }
    None
}

/// Of the links that are marked, in the order 12, 13, 21, 23, 31, 32, the one that a word chooses.
pub fn chosen_link(marks: &[bool; 6], word: u32) -> Option<Link>
    ensures { result ≡ chosen word (filter (is_marked marks.now) all_links) }
{
    let count = marked_count(marks);
    if count == 0 {
        return None;
    }
    marked_link(marks, word as usize % count)
}

impl<'a> Net<'a> {
    /// Of the links with a message under way, in order, the one that a word chooses.
    pub fn chosen(&self, word: u32) -> Option<Link>
        ensures { result ≡ chosen word (full_links self.now) }
    {
        let full = [
            self.is_under_way(Link::Link12),
            self.is_under_way(Link::Link13),
            self.is_under_way(Link::Link21),
            self.is_under_way(Link::Link23),
            self.is_under_way(Link::Link31),
            self.is_under_way(Link::Link32),
        ];
        chosen_link(&full, word)
    }
}
