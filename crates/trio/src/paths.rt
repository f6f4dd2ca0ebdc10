// What the three miners are started with.
ghost use Rattle.std.specs.Prelude.{◌≡◌, IfOk, map, string_bytes};
ghost use Rattle.trio.specs.Words.{miner_words, out_path};

use proto_core::Number;
use std::alloc::{AllocError, Global};

/// The file in which a miner writes its text.
pub fn out_path(alloc: Global, prefix: &str, miner: Number) -> Result<String, AllocError>
    ensures { IfOk result (λ path. string_bytes path ≡ out_path prefix.now miner) }
{
    format!(in alloc; "{prefix}.o{miner}")
}

/// Words in memory of their own.
fn owned(alloc: Global, words: &[&str]) -> Result<Vec<String>, AllocError>
    ensures { IfOk result (λ copies. map string_bytes copies.items ≡ map (λ word. word.now) words.now) }
{
    let mut copies = Vec::new(alloc);
    for word in words {
        copies.push(String::from_str(alloc, word)?)?;
    }
    Ok(copies)
}

/// The words with which a miner is started.
pub fn miner_words(
    alloc: Global,
    prefix: &str,
    port: u16,
    budget: u64,
    miner: Number,
) -> Result<Vec<String>, AllocError>
    ensures { IfOk result (λ words. map string_bytes words.items ≡ miner_words prefix.now port budget miner) }
{
    let code = format!(in alloc; "{prefix}.code")?;
    let me = format!(in alloc; "{miner}")?;
    let share = format!(in alloc; "{prefix}.{miner}")?;
    let tape = format!(in alloc; "{prefix}.t{miner}")?;
    let out = out_path(alloc, prefix, miner)?;
    let port = format!(in alloc; "{port}")?;
    let budget = format!(in alloc; "{budget}")?;
    let words = [
        "miner", &code, "--me", &me, "--share", &share, "--tape", &tape, "--port", &port, "--out",
        &out, "--budget", &budget,
    ];
    owned(alloc, &words)
}
