ghost use Rattle.std.specs.Prelude.{◌≡◌, IfOk};
ghost use Rattle.schedule_file.specs.Text.{schedule_bytes};

use proto_core::Link;
use std::alloc::{AllocError, Global};

/// The text of a schedule, which `read` reads as these links.
pub fn write(alloc: Global, links: &[Link]) -> Result<Vec<u8>, AllocError>
    ensures { IfOk result (λ text. text.items ≡ schedule_bytes links.now) }
{
    let mut text = String::new(alloc);
    for link in links {
        writeln!(text, "{link}")?;
    }
    Ok(text.into_bytes())
}
