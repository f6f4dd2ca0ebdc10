// Lines of two texts, compared.
ghost use Rattle.std.specs.Prelude.{◌≡◌, IfOk, option_map};
ghost use Rattle.trio.specs.Joining.{same_form, same_text, alike, differs, line_shown, first_difference};

use crate::difference::Difference;
use miner_text::{MinerLine, ResultShare, type_word};
use std::alloc::{AllocError, Global};

/// Whether two shares are of one value, as far as can be seen: alike in all but their words, of as many elements and as many words.
fn same_form(one: &ResultShare, other: &ResultShare) -> bool
    ensures { result ≡ same_form one.now other.now }
{
    one.name().as_str() == other.name().as_str()
        && type_word(one.element()) == type_word(other.element())
        && one.count() == other.count()
        && one.words().len() == other.words().len()
}

fn same_text(alloc: Global, one: &MinerLine, other: &MinerLine) -> Result<bool, AllocError>
    ensures { IfOk result (λ is_same. is_same ≡ same_text one.now other.now) }
{
    let one = format!(in alloc; "{one}")?;
    let other = format!(in alloc; "{other}")?;
    Ok(one.as_str() == other.as_str())
}

/// Whether two lines are alike.
fn alike(alloc: Global, one: &MinerLine, other: &MinerLine) -> Result<bool, AllocError>
    ensures { IfOk result (λ is_alike. is_alike ≡ alike one.now other.now) }
{
    match one {
        MinerLine::Share(share) => match other {
            MinerLine::Share(there) => Ok(same_form(share, there)),
            MinerLine::Told(_) | MinerLine::Ended(_) => same_text(alloc, one, other),
        },
        MinerLine::Told(_) | MinerLine::Ended(_) => same_text(alloc, one, other),
    }
}

fn shown(alloc: Global, line: Option<&MinerLine>) -> Result<Vec<u8>, AllocError>
    ensures { IfOk result (λ text. text.items ≡ line_shown (option_map (λ l. l.now) line.entry)) }
{
    match line {
        Some(line) => {
            let text = format!(in alloc; "{line}")?;
            Ok(text.into_bytes())
        }
        None => Ok(Vec::new(alloc)),
    }
}

/// The line of a number in two texts, where they differ in it.
fn difference(
    alloc: Global,
    number: u64,
    line: &MinerLine,
    other: Option<&MinerLine>,
) -> Result<Option<Difference>, AllocError>
    ensures { IfOk result (λ found. found ≡ differs number line.now (option_map (λ l. l.now) other.entry)) }
{
    if let Some(there) = other {
        if alike(alloc, line, there)? {
            return Ok(None);
        }
    }
    let first = shown(alloc, Some(line))?;
    let second = shown(alloc, other)?;
    Ok(Some(Difference::new(number, first, second)))
}

/// The line of a number in the text of the first miner and in that of the second, else of the third, where they differ in it.
pub fn first_difference(
    alloc: Global,
    number: u64,
    line: &MinerLine,
    second: Option<&MinerLine>,
    third: Option<&MinerLine>,
) -> Result<Option<Difference>, AllocError>
    ensures { IfOk result (λ found.
        found ≡ first_difference number line.now (option_map (λ l. l.now) second.entry) (option_map (λ l. l.now) third.entry)) }
{
    match difference(alloc, number, line, second)? {
        Some(found) => Ok(Some(found)),
        None => difference(alloc, number, line, third),
    }
}
