//! Tokens by their texts: reserved words, operators and marks.

ghost use Rattle.std.specs.Prelude.{◌≡◌, IsTrue};
ghost use Rattle.text_scan.specs.Pieces.{longest_of};
ghost use Rattle.text_scan.specs.Words.{words_of, kind_in, is_longest_first, first_in};

/// A text that is a token as a whole, and its kind.
#[derive(Clone, Copy, Debug)]
pub struct Word {
    pub text: &'static str,
    pub kind: u8,
}

/// The kind of the bytes as a whole, if they are one of the words.
pub fn kind_in(words: &[Word], bytes: &[u8]) -> Option<u8>
    ensures { result ≡ kind_in (words_of words.now) bytes.now }
{
    for word in words {
        if bytes == word.text.as_bytes() {
            return Some(word.kind);
        }
    }
    None
}

fn first_in(words: &[Word], bytes: &[u8]) -> Option<(u8, usize)>
    ensures { result ≡ first_in (words_of words.now) bytes.now }
{
    for word in words {
        if bytes.starts_with(word.text.as_bytes()) {
            return Some((word.kind, word.text.len()));
        }
    }
    None
}

/// The longest of the words that the bytes begin with, as its kind and length. Longer words stand before shorter ones.
pub fn longest_in(words: &[Word], bytes: &[u8]) -> Option<(u8, usize)>
    requires { IsTrue (is_longest_first 255 (words_of words.now)) }
    ensures { result ≡ longest_of (kind_in (words_of words.now)) bytes.now }
{
    first_in(words, bytes)
}
