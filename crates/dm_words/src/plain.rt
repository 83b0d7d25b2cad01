ghost use Rattle.std.specs.Prelude.{◌≡◌};
ghost use Rattle.dm_words.specs.Requests.{is_plain_word as plain_word};

/// Whether a word is neither empty nor an option.
pub(crate) fn is_plain_word(word: &[u8]) -> bool
    ensures { result ≡ plain_word word.now }
{
    match word {
        [] => false,
        [first, ..] => *first != b'-',
    }
}
