//! The words after the name of a command.

ghost use Rattle.std.specs.Prelude.{◌≡◌, ◌++◌, map, OnOk};
ghost use Rattle.prep_steps.specs.Shell.{words_text};

use crate::word::push_word;
use std::alloc::AllocError;

/// Appends words, each with a space before it. The cost is their length.
pub fn push_words(text: &mut Vec<u8>, words: &[&str]) -> Result<(), AllocError>
    ensures { OnOk result (text.new.items ≡ text.old.items ++ words_text (map (λ word. word.now) words.now)) }
{
    for word in words {
        text.extend_from_slice(b" ")?;
        push_word(text, word.as_bytes())?;
    }
    Ok(())
}
