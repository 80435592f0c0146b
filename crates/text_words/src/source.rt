//! The lines and words of a text.
ghost use Rattle.std.specs.Prelude.{◌≡◌, ◌≤◌, ◌||◌, ◌==◌, length, drop, option_map};
ghost use Rattle.std.specs.List.{after_first, before_first, position_or_len};
ghost use Rattle.text_words.specs.Read.{Gives, rest_of, word_of};
ghost use Rattle.text_words.specs.Words.{behind_blanks, behind_first, behind_lines, behind_next};
ghost use Rattle.text_words.specs.Words.{behind_word, first_word, is_at_end, is_blank, is_gap};
ghost use Rattle.text_words.specs.Words.{line_end, next_word, value_at, word_at, word_behind};

use crate::fault::{ReadError, Reason, refused};

/// What is left of a text, and how many bytes its strings may still mean.
#[derive(Clone, Copy)]
pub struct Source<'a> {
    /// What is left.
    pub rest: &'a [u8],
    /// How many bytes strings may still mean.
    pub room: u64,
}

/// A word, and how many bytes of the text are left from its first one on.
#[derive(Clone, Copy)]
pub struct Word<'a> {
    /// Its bytes.
    pub bytes: &'a [u8],
    /// How many bytes of the text are left from there on.
    pub left: usize,
}

/// Whether a byte separates words of a line.
fn is_blank(byte: u8) -> bool
    ensures { result ≡ is_blank byte }
{
    byte == b' ' || byte == b'\t' || byte == b'\r'
}

/// Whether a byte ends a word.
pub(crate) fn is_gap(byte: u8) -> bool
    ensures { result ≡ is_gap byte }
{
    is_blank(byte) || byte == b'\n'
}

/// What is left behind blanks. The end of a line behind a backslash is one of them.
#[tactic(auto, unfolding(crate::specs::Words::behind_blanks))]
pub(crate) fn behind_blanks(text: &[u8]) -> &[u8]
    ensures { result.now ≡ behind_blanks text.entry.now }
{
    let mut slash = 0;
    let mut inside = false;
    for (place, byte) in text.iter().enumerate() {
        if inside {
            if *byte == b'\n' {
                inside = false;
            } else if !is_blank(*byte) {
                return &text[slash..];
            }
        } else if *byte == b'\\' {
            inside = true;
            slash = place;
        } else if !is_blank(*byte) {
            return &text[place..];
        }
    }
    &text[text.len()..]
}

/// What is left behind blanks, empty lines and comments.
#[tactic(auto, unfolding(crate::specs::Words::behind_lines))]
pub(crate) fn behind_lines(text: &[u8]) -> &[u8]
    ensures { result.now ≡ behind_lines text.entry.now }
{
    let mut inside = false;
    for (place, byte) in text.iter().enumerate() {
        if inside {
            inside = *byte != b'\n';
        } else if !is_gap(*byte) {
            if *byte != b'#' {
                return &text[place..];
            }
            inside = true;
        }
    }
    &text[text.len()..]
}

/// Where the word ends that a text begins with.
fn word_len(text: &[u8]) -> usize
    ensures len { result ≡ position_or_len is_gap text.now }
    ensures within { result ≤ length text.now }
{
    for (place, byte) in text.iter().enumerate() {
        if is_gap(*byte) {
            return place;
        }
    }
    text.len()
}

/// The word that a text begins with.
#[tactic(auto, unfolding(crate::specs::Words::word_at))]
pub(crate) fn word_at(text: &[u8]) -> &[u8]
    ensures { result.now ≡ word_at text.entry.now }
{
    &text[..word_len(text)]
}

/// What is left behind that word.
#[tactic(auto, unfolding(crate::specs::Words::behind_word))]
pub(crate) fn behind_word(text: &[u8]) -> &[u8]
    ensures { result.now ≡ behind_word text.entry.now }
{
    &text[word_len(text)..]
}

/// What is left behind so many bytes.
#[tactic(auto, using(std::proofs::lemmas::List::drop_min))]
pub fn behind(text: &[u8], count: usize) -> &[u8]
    ensures { result.now ≡ drop count text.entry.now }
{
    text.split_at(count.min(text.len())).1
}

/// The first word of the next line that has one: none at the end of the text.
pub fn first_word(source: Source<'_>) -> Word<'_>
    ensures { word_of result ≡ first_word (rest_of source.entry) }
{
    let rest = behind_lines(source.rest);
    Word {
        bytes: word_at(rest),
        left: rest.len(),
    }
}

/// What is left behind that word.
pub fn behind_first(source: Source<'_>) -> Source<'_>
    ensures { rest_of result ≡ behind_first (rest_of source.entry) }
{
    Source {
        rest: behind_word(behind_lines(source.rest)),
        room: source.room,
    }
}

/// The next word of a line.
pub fn next_word(source: Source<'_>) -> Word<'_>
    ensures { word_of result ≡ next_word (rest_of source.entry) }
{
    let rest = behind_blanks(source.rest);
    Word {
        bytes: word_at(rest),
        left: rest.len(),
    }
}

/// What is left behind that word.
pub fn behind_next(source: Source<'_>) -> Source<'_>
    ensures { rest_of result ≡ behind_next (rest_of source.entry) }
{
    Source {
        rest: behind_word(behind_blanks(source.rest)),
        room: source.room,
    }
}

/// Whether the line has no word more.
pub fn is_at_end(source: Source<'_>) -> bool
    ensures { result ≡ is_at_end (rest_of source.entry) }
{
    match behind_blanks(source.rest) {
        [] => true,
        [first, ..] => *first == b'\n' || *first == b'#',
    }
}

/// What is left behind the end of a line.
fn behind_feed(text: &[u8]) -> &[u8]
    ensures { result.now ≡ after_first (λ b. b == 10) text.entry.now }
{
    for (place, byte) in text.iter().enumerate() {
        if *byte == b'\n' {
            return &text[place + 1..];
        }
    }
    &text[text.len()..]
}

/// How many bytes stand before a mark, or in all where there is none.
fn part_len(mark: u8, text: &[u8]) -> usize
    ensures len { result ≡ position_or_len (λ b. b == mark) text.now }
    ensures within { result ≤ length text.now }
{
    for (place, byte) in text.iter().enumerate() {
        if *byte == mark {
            return place;
        }
    }
    text.len()
}

/// What stands before a mark, or all where there is none.
pub fn part_at(mark: u8, text: &[u8]) -> &[u8]
    ensures part { result.now ≡ before_first (λ b. b == mark) text.entry.now }
    ensures len { length result.now ≡ position_or_len (λ b. b == mark) text.entry.now }
    ensures within { length result.now ≤ length text.entry.now }
{
    &text[..part_len(mark, text)]
}

/// What is left behind the line, which has no word more.
#[tactic(auto, unfolding(crate::specs::Words::line_end))]
pub fn line_end(source: Source<'_>) -> Result<Source<'_>, ReadError>
    ensures { Gives rest_of result (line_end (rest_of source.entry)) }
{
    let rest = behind_blanks(source.rest);
    if !is_at_end(source) {
        return Err(refused(Reason::End, rest.len()));
    }
    Ok(Source {
        rest: behind_feed(rest),
        room: source.room,
    })
}

/// A word without its first bytes.
pub fn word_behind(count: usize, word: Word<'_>) -> Word<'_>
    ensures { word_of result ≡ word_behind count (word_of word.entry) }
{
    Word {
        bytes: behind(word.bytes, count),
        left: word.left.saturating_sub(count),
    }
}

/// What follows a key and the sign behind it, where the word begins with them.
#[tactic(auto, unfolding(crate::specs::Words::value_at))]
pub fn value_at<'a>(word: Word<'a>, key: &[u8]) -> Option<Word<'a>>
    ensures { option_map word_of result ≡ value_at (word_of word.entry) key.now }
{
    let from = key.len();
    if from < word.bytes.len() && word.bytes.starts_with(key) && word.bytes[from] == b'=' {
        Some(word_behind(from + 1, word))
    } else {
        None
    }
}
