ghost use Rattle.std.specs.Prelude.{◌≡◌, ℕ, List, IfOk, IfErr, if◌then◌else◌, is_ok, string_bytes};
ghost use Rattle.std.specs.List.{list_all};
ghost use Rattle.sc_text.specs.Name.{is_name, IsName, is_name_byte};

use std::alloc::{AllocError, Global};
use std::marker::Model;

const LONGEST_NAME: usize = 64;

/// A name: 1 to 64 ASCII letters, digits and `_`. Clauses see its bytes.
#[derive(Drop)]
pub struct Name {
    text: String,
}

impl Model for Name {
    ghost Value = { List ℕ };

    ghost view = { λ n. string_bytes n.text };

    ghost invariant = { λ n. IsName (string_bytes n.text) };
}

fn is_name_byte(byte: u8) -> bool
    ensures { result ≡ is_name_byte byte }
{
    byte.is_ascii_alphanumeric() || byte == b'_'
}

fn are_name_bytes(bytes: &[u8]) -> bool
    ensures { result ≡ list_all is_name_byte bytes.now }
{
    bytes.iter().all(|byte| is_name_byte(*byte))
}

// Whether a text is a name.
#[tactic(auto, unfolding(crate::specs::Name::is_name))]
fn is_name(text: &str) -> bool
    ensures { result ≡ is_name text.now }
{
    let bytes = text.as_bytes();
    1 <= bytes.len() && bytes.len() <= LONGEST_NAME && are_name_bytes(bytes)
}

impl Name {
    /// The text as a name, or the text again where it is none.
    pub fn new(text: String) -> Result<Name, String>
        ensures name { IfOk result (λ name. name ≡ string_bytes text) }
        ensures exactly { is_ok result ≡ is_name (string_bytes text) }
        ensures given_back { IfErr result (λ back. back ≡ text) }
    {
        if is_name(text.as_str()) {
            Ok(Name { text })
        } else {
            Err(text)
        }
    }

    /// The text as a name of its own, or `None` where it is none.
    pub fn from_str(alloc: Global, text: &str) -> Result<Option<Name>, AllocError>
        ensures exactly { IfOk result (λ found. found ≡ (if is_name text.now then Some text.now else None)) }
    {
        if !is_name(text) {
            return Ok(None);
        }
        let text = String::from_str(alloc, text)?;
        Ok(Some(Name { text }))
    }

    /// The name's text.
    pub fn as_str(&self) -> &str
        ensures value { result.now ≡ self.now }
        ensures name { IsName self.now }
    {
        self.text.as_str()
    }

    /// The same name in memory of its own.
    pub fn copy(&self, alloc: Global) -> Result<Name, AllocError>
        ensures { IfOk result (λ name. name ≡ self.now) }
    {
        let text = String::from_str(alloc, &self.text)?;
        Ok(Name { text })
    }
}
