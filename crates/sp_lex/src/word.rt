// Words and names.
ghost use Rattle.std.specs.Prelude.{◌≡◌, ◌≢◌, ◌<◌, length, true, ℕ, List, MatchOption, IfOk, slice_index, string_bytes};
ghost use Rattle.std.specs.List.{list_all};
ghost use Rattle.sp_lex.specs.declared.token.Word.{Word};
ghost use Rattle.sp_lex.specs.Spelling as s;
ghost use Rattle.sp_lex.specs.Reading.{Reads};

use crate::bytes::name_bytes;
use crate::{Kernel, Word};
use sp_base::Text;
use std::alloc::{AllocError, Global};

const WORDS: [Word; 24] = [
    Word::Event,
    Word::Time,
    Word::Pattern,
    Word::Define,
    Word::As,
    Word::Within,
    Word::Events,
    Word::From,
    Word::Every,
    Word::When,
    Word::Select,
    Word::First,
    Word::Last,
    Word::Each,
    Word::Consume,
    Word::All,
    Word::None,
    Word::Set,
    Word::Int,
    Word::Dec,
    Word::Text,
    Word::And,
    Word::Or,
    Word::Not,
];

// The word that is written so.
fn word_of(bytes: &[u8]) -> Option<Word>
    ensures { MatchOption result ((word : Word) → bytes.now ≢ s.spelling word)
        (λ word. bytes.now ≡ s.spelling word) }
{
    for word in WORDS {
        if bytes == word.spelling().as_bytes() {
            return Some(word);
        }
    }
    None
}

// The bytes of a name as a text.
fn name_text(alloc: Global, bytes: &[u8]) -> Result<Text, AllocError>
    requires { list_all s.is_name_byte bytes.now ≡ true }
    ensures { IfOk result (λ text. text ≡ bytes.now) }
{
    let mut out = String::new(alloc);
    for b in bytes {
        out.push(*b as char)?;
    }
    Ok(Text::of(out))
}

/// The word or name in front of a text that begins with a letter, and what is behind it.
pub(crate) fn name_at(alloc: Global, text: &[u8]) -> Result<(Kernel, &[u8]), AllocError>
    requires { s.heads s.is_letter text.now ≡ true }
    ensures { IfOk result (λ p. Reads text.now p.0 p.1.now) }
{
    let (name, rest) = name_bytes(text);
    match word_of(name) {
        Some(word) => Ok((Kernel::Word(word), rest)),
        None => Ok((Kernel::Name(name_text(alloc, name)?), rest)),
    }
}
