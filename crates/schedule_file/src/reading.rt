ghost use Rattle.std.specs.Prelude.{◌≡◌, ◌≢◌, ℕ, List, ◌∷◌, ◌++◌, drop, IfSome, IfNone};
ghost use Rattle.proto_core.specs.declared.link.Link.{Link};
ghost use Rattle.proto_core.specs.Parties.{link_text};
ghost use Rattle.schedule_file.specs.Answers.{IsReadAs};
ghost use Rattle.schedule_file.specs.Reading.{links_of};

use crate::read_err::ReadErr;
use proto_core::Link;
use std::alloc::Global;

/// The link with which a text begins, with the newline after it.
fn first_link(text: &[u8]) -> Option<Link>
    ensures found { IfSome result (λ link. text.now ≡ link_text link ++ 10 ∷ drop 3 text.now) }
    ensures none { IfNone result ((link : Link) (rest : List ℕ) → text.now ≢ link_text link ++ 10 ∷ rest) }
{
    if text.len() < 3 || text[2] != b'\n' {
        return None;
    }
    Link::from_text(&text[..2])
}

/// Reads a schedule: a line for each link, as `23` for the link from the second miner to the third, with a newline after each line. No
/// bytes are the schedule without an entry.
///
/// `BadEntry` comes exactly where a line is no link or has no newline after it, and names the first such line, if memory lasts until there.
pub fn read(alloc: Global, bytes: &[u8]) -> Result<Vec<Link>, ReadErr>
    ensures { IsReadAs (links_of bytes.now) result }
{
    let mut links = Vec::new(alloc);
    let mut rest = bytes;
    while !rest.is_empty() {
        let Some(link) = first_link(rest) else {
            return Err(ReadErr::BadEntry {
                line: links.len() as u64 + 1,
            });
        };
        links.push(link)?;
        rest = &rest[3..];
    }
    Ok(links)
}
