//! The words of the command line.
ghost use Rattle.std.specs.Prelude.{◌≡◌};
ghost use Rattle.gd_variant.specs.Words.{text_eq};
ghost use Rattle.mp_replay.specs.Ends.{is_replay as is_replay_of, is_rerun as is_rerun_of, is_show as is_show_of, is_the_word as is_the_word_of};

fn is_word(word: &str, bytes: &str) -> bool
    ensures { result ≡ text_eq word.now bytes.now }
{
    word == bytes
}

/// Whether the words are one word, and which.
fn is_the_word(words: &[String], word: &str) -> bool
    ensures { result ≡ is_the_word_of word.now words.now }
{
    match words {
        [only] => is_word(only.as_str(), word),
        _ => false,
    }
}

/// Whether the words ask for a session to be replayed.
pub fn is_replay(words: &[String]) -> bool
    ensures { result ≡ is_replay_of words.now }
{
    is_the_word(words, "replay")
}

/// Whether the words ask for a journal to be run again.
pub fn is_rerun(words: &[String]) -> bool
    ensures { result ≡ is_rerun_of words.now }
{
    is_the_word(words, "rerun")
}

/// Whether the words ask for packets to be shown.
pub fn is_show(words: &[String]) -> bool
    ensures { result ≡ is_show_of words.now }
{
    is_the_word(words, "show")
}
