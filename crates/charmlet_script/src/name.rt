//! Names of handlers.

ghost use Rattle.std.specs.Prelude.{◌≡◌};
ghost use Rattle.std.specs.Char.{is_ascii_alphabetic};
ghost use Rattle.std.specs.List.{list_all};
ghost use Rattle.charmlet_script.specs.Name.{is_name, name_of};
ghost use Rattle.charmlet_script.specs.Reading.{Spells};

use crate::error::LineFault;
use std::alloc::Global;
use std::marker::Model;

/// The most letters of a name.
const MAX_LETTERS: usize = 32;

/// A name of 1 to 32 ASCII letters. A contract sees the list of its bytes.
#[derive(Debug, Drop)]
pub struct Name {
    letters: String,
}

impl Model for Name {
    ghost use Rattle.std.specs.Prelude.{◌≡◌, List, ℕ, true};
    ghost use Rattle.std.specs.String.{string_bytes};
    ghost use Rattle.charmlet_script.specs.Name.{is_name};

    ghost Value = { List ℕ };

    ghost view = { λ name. string_bytes name.letters };

    ghost invariant = { λ name. is_name (string_bytes name.letters) ≡ true };
}

impl Name {
    ghost use Rattle.std.specs.Prelude.{◌≡◌};

    /// The name as a text.
    pub fn as_str(&self) -> &str
        ensures { result.now ≡ self.now }
    {
        self.letters.as_str()
    }
}

/// Whether each byte is a letter.
fn are_letters(word: &[u8]) -> bool
    ensures { result ≡ list_all is_ascii_alphabetic word.now }
{
    word.iter().all(|b| b.is_ascii_alphabetic())
}

/// Whether a word is a name.
fn is_name(word: &[u8]) -> bool
    ensures { result ≡ is_name word.now }
{
    if !are_letters(word) {
        return false;
    }
    !word.is_empty() && word.len() <= MAX_LETTERS
}

/// A name: 1 to 32 ASCII letters.
#[tactic(auto, unfolding(crate::specs::Name::name_of))]
pub(crate) fn name_of(alloc: Global, word: &[u8]) -> Result<Name, LineFault>
    ensures { Spells result (name_of word.now) }
{
    if !is_name(word) {
        return Err(LineFault::Malformed);
    }
    let Ok(text) = std::str::from_utf8(word) else {
        return Err(LineFault::Malformed);
    };
    let letters = String::from_str(alloc, text)?;
    Ok(Name { letters })
}
