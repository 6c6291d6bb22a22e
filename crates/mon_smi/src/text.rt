//! Which texts are words.

ghost use Rattle.std.specs.Prelude.{◌↔◌, IsTrue};
ghost use Rattle.mon_smi.specs.Words.{IsWord};

use crate::scan::word_len;

/// Returns `true` if the text is one word.
pub(crate) fn is_word(text: &str) -> bool
    ensures { IsTrue result ↔ IsWord text.now }
{
    let bytes = text.as_bytes();
    if bytes.is_empty() || !bytes[0].is_ascii_alphabetic() {
        return false;
    }
    word_len(bytes) == bytes.len()
}
