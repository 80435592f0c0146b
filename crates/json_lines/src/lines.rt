//! Lines as objects, by their words.
ghost use Rattle.std.specs.Prelude.{◌≡◌, ◌==◌, ◌++◌, ◌≤◌, IfOk, List, OnOk, codes, drop, length, ℕ};
ghost use Rattle.std.specs.List.{flat_map, position_or_len};
ghost use Rattle.json_lines.specs.Fields.{json_string};
ghost use Rattle.json_lines.specs.Lines.{count_json, count_value, fact_json, facts_json, fields_json};
ghost use Rattle.json_lines.specs.Lines.{is_count, is_counted, is_heading, is_lack, is_on, is_section};
ghost use Rattle.json_lines.specs.Lines.{is_sign, json_line, keyed_json, word_kind};
ghost use Rattle.json_lines.specs.Lines.{keyed_word, keys_of, kind_json, on_json, place_kind};
ghost use Rattle.json_lines.specs.Lines.{fact_kind, fact_name, spaced, summary_keys, texts, told_json, words};

use crate::fields::{is_natural, push_field, push_inside, push_string};
use std::alloc::{AllocError, Global};
use text_forms::push_bytes;

/// The words of a line.
fn words(alloc: Global, line: &[u8]) -> Result<Vec<&[u8]>, AllocError>
    ensures { IfOk result (λ parts. texts parts.items ≡ words line.now) }
{
    line.split(|byte| *byte == b' ').collect(alloc)
}

/// The place of the first byte of this value, or the length.
pub(crate) fn first_place(bytes: &[u8], wanted: u8) -> usize
    ensures place { result ≡ position_or_len (λ b. b == wanted) bytes.now }
    ensures bound { result ≤ length bytes.now }
{
    for (place, byte) in bytes.iter().enumerate() {
        if *byte == wanted {
            return place;
        }
    }
    bytes.len()
}

/// A fact.
#[tactic(auto, unfolding(crate::specs::Lines::fact_json))]
fn push_fact(text: &mut Vec<u8>, fact: &[u8]) -> Result<(), AllocError>
    ensures { OnOk result (text.new.items ≡ text.old.items ++ fact_json fact.now) }
{
    if fact == b"posted".as_slice() {
        return push_bytes(text, b",\"posted\":true");
    }
    if fact == b"silent".as_slice() {
        return push_bytes(text, b",\"posted\":false");
    }
    let place = first_place(fact, b'=');
    if place == fact.len() {
        return push_bare(text, fact);
    }
    push_field(text, &fact[..place], &fact[place + 1..])
}

/// A bare word.
fn push_bare(text: &mut Vec<u8>, fact: &[u8]) -> Result<(), AllocError>
    ensures { OnOk result (text.new.items ≡ text.old.items
        ++ (codes "," ++ json_string fact.now ++ codes ":true")) }
{
    push_bytes(text, b",")?;
    push_string(text, fact)?;
    push_bytes(text, b":true")
}

fn is_on(word: &[u8]) -> bool
    ensures { result ≡ is_on word.now }
{
    word.len() >= 3 && &word[..3] == b"on=".as_slice()
}

/// The value of `on`, which goes to the end of the line.
#[tactic(auto, unfolding(crate::specs::Lines::on_json))]
fn push_on(text: &mut Vec<u8>, value: &[u8], more: &[&[u8]]) -> Result<(), AllocError>
    ensures { (word : List ℕ) → value.now ≡ drop 3 word → OnOk result
        (text.new.items ≡ text.old.items ++ on_json word (texts more.now)) }
{
    push_bytes(text, b",\"on\":\"")?;
    push_inside(text, value)?;
    push_spaced(text, more)?;
    push_bytes(text, b"\"")
}

fn push_spaced(text: &mut Vec<u8>, words: &[&[u8]]) -> Result<(), AllocError>
    ensures { OnOk result (text.new.items ≡ text.old.items ++ flat_map spaced (texts words.now)) }
{
    for word in words {
        push_spaced_word(text, word)?;
    }
    Ok(())
}

fn push_spaced_word(text: &mut Vec<u8>, word: &[u8]) -> Result<(), AllocError>
    ensures { OnOk result (text.new.items ≡ text.old.items ++ spaced word.now) }
{
    push_bytes(text, b" ")?;
    push_inside(text, word)
}

/// The facts of a line.
fn push_facts(text: &mut Vec<u8>, words: &[&[u8]]) -> Result<(), AllocError>
    ensures { OnOk result (text.new.items ≡ text.old.items ++ facts_json (texts words.now)) }
{
    for i in 0..words.len() {
        let word = words[i];
        if is_on(word) {
            return push_on(text, &word[3..], &words[i + 1..]);
        }
        push_fact(text, word)?;
    }
    Ok(())
}

/// A word at its place in a line.
#[tactic(auto, unfolding(crate::specs::Lines::keyed_word))]
fn push_keyed_word(text: &mut Vec<u8>, key: &[u8], word: &[u8]) -> Result<(), AllocError>
    ensures { OnOk result (text.new.items ≡ text.old.items ++ keyed_word key.now word.now) }
{
    if key.is_empty() {
        return Ok(());
    }
    if is_counted(key) {
        return push_count(text, key, word);
    }
    push_field(text, key, word)
}

/// Whether a key is of what a comparison counts.
fn is_counted(key: &[u8]) -> bool
    ensures { result ≡ is_counted key.now }
{
    key == b"equal".as_slice()
        || key == b"different".as_slice()
        || key == b"unchecked".as_slice()
        || key == b"given".as_slice()
        || key == b"data".as_slice()
        || key == b"sums".as_slice()
        || key == b"large".as_slice()
}

/// A count.
#[tactic(auto, unfolding(crate::specs::Lines::count_json))]
fn push_count(text: &mut Vec<u8>, key: &[u8], word: &[u8]) -> Result<(), AllocError>
    ensures { OnOk result (text.new.items ≡ text.old.items ++ count_json key.now word.now) }
{
    push_bytes(text, b",")?;
    push_string(text, key)?;
    push_bytes(text, b":")?;
    push_count_value(text, word)
}

/// Its value, behind which a comma may stand.
#[tactic(auto, unfolding(crate::specs::Lines::count_value))]
fn push_count_value(text: &mut Vec<u8>, word: &[u8]) -> Result<(), AllocError>
    ensures { OnOk result (text.new.items ≡ text.old.items ++ count_value word.now) }
{
    let digits = &word[..first_place(word, b',')];
    if is_natural(digits) {
        push_bytes(text, digits)
    } else {
        push_string(text, word)
    }
}

/// Words that have their keys, and the facts behind them.
fn push_words(text: &mut Vec<u8>, keys: &[&[u8]], words: &[&[u8]]) -> Result<(), AllocError>
    ensures { OnOk result (text.new.items ≡ text.old.items
        ++ keyed_json (texts keys.now) (texts words.now)) }
{
    let known = keys.len().min(words.len());
    for i in 0..known {
        push_keyed_word(text, keys[i], words[i])?;
    }
    push_facts(text, &words[known..])
}

fn is_count(word: &[u8]) -> bool
    ensures { result ≡ is_count word.now }
{
    word == b"rounds".as_slice()
        || word == b"widest".as_slice()
        || word == b"mean".as_slice()
        || word == b"longest".as_slice()
        || word == b"places".as_slice()
        || word == b"pairs".as_slice()
        || word == b"span".as_slice()
        || word == b"parallelism".as_slice()
        || word == b"bytes".as_slice()
        || word == b"span-bytes".as_slice()
        || word == b"parallelism-bytes".as_slice()
}

fn is_section(word: &[u8]) -> bool
    ensures { result ≡ is_section word.now }
{
    word == b"entries".as_slice()
        || word == b"tree".as_slice()
        || word == b"slots".as_slice()
        || word == b"buffers".as_slice()
}

/// Whether a line is that of what is not compared.
fn is_lack(word: &[u8]) -> bool
    ensures { result ≡ is_lack word.now }
{
    word == b"not".as_slice()
}

fn is_heading(word: &[u8]) -> bool
    ensures { result ≡ is_heading word.now }
{
    word == b"uring-report".as_slice()
        || word == b"uring-rounds".as_slice()
        || word == b"uring-depends".as_slice()
}

/// The words behind the first one, by their keys.
#[tactic(auto, unfolding(crate::specs::Lines::keys_of))]
fn push_more(text: &mut Vec<u8>, word: &[u8], more: &[&[u8]]) -> Result<(), AllocError>
    ensures { OnOk result (text.new.items ≡ text.old.items
        ++ keyed_json (keys_of word.now) (texts more.now)) }
{
    if word == b"dir".as_slice() || word == b"file".as_slice() || word == b"link".as_slice() {
        push_words(text, &[b"path"], more)
    } else if word == b"slot".as_slice() {
        push_words(text, &[b"ring", b"slot"], more)
    } else if word == b"buffer".as_slice() {
        push_words(text, &[b"ring", b"number"], more)
    } else if word == b"descriptor".as_slice() {
        push_words(text, &[b"number"], more)
    } else if word == b"ring".as_slice() {
        push_words(text, &[b"ring"], more)
    } else if is_heading(word) {
        push_words(text, &[b"version"], more)
    } else {
        push_summary(text, word, more)
    }
}

/// The same in a line that sums up.
#[tactic(auto, unfolding(crate::specs::Lines::summary_keys))]
fn push_summary(text: &mut Vec<u8>, word: &[u8], more: &[&[u8]]) -> Result<(), AllocError>
    ensures { OnOk result (text.new.items ≡ text.old.items
        ++ keyed_json (summary_keys word.now) (texts more.now)) }
{
    if word == b"ok".as_slice() {
        push_words(text, &[b"places", b"", b"rings", b""], more)
    } else if is_section(word) {
        push_words(
            text,
            &[
                b"equal",
                b"",
                b"different",
                b"",
                b"unchecked",
                b"",
                b"given",
                b"",
            ],
            more,
        )
    } else if is_lack(word) {
        push_words(
            text,
            &[b"", b"", b"data", b"", b"", b"sums", b"", b"large"],
            more,
        )
    } else if is_count(word) {
        push_words(text, &[word, b"", b"", b"place"], more)
    } else {
        push_facts(text, more)
    }
}

/// The kind of a place's line, by its first fact.
fn place_kind(facts: &[&[u8]]) -> &'static [u8]
    ensures { result.now ≡ place_kind (texts facts.now) }
{
    match facts.first() {
        Some(fact) => fact_kind(fact_name(fact)),
        None => b"place",
    }
}

#[tactic(auto, unfolding(crate::specs::Lines::fact_kind))]
fn fact_kind(name: &[u8]) -> &'static [u8]
    ensures { result.now ≡ fact_kind name.now }
{
    if name == b"round".as_slice() {
        b"place"
    } else if name == b"after".as_slice() {
        b"pair"
    } else {
        b"entry"
    }
}

/// The name of a fact. That of a bare word is the word.
fn fact_name(fact: &[u8]) -> &[u8]
    ensures { result.now ≡ fact_name fact.now }
{
    &fact[..first_place(fact, b'=')]
}

#[tactic(auto, unfolding(crate::specs::Lines::kind_json))]
fn push_kind(text: &mut Vec<u8>, kind: &[u8]) -> Result<(), AllocError>
    ensures { OnOk result (text.new.items ≡ text.old.items ++ kind_json kind.now) }
{
    push_bytes(text, b"\"kind\":")?;
    push_string(text, kind)
}

/// The kind of a line that begins with this word.
#[tactic(auto, unfolding(crate::specs::Lines::word_kind))]
fn word_kind(word: &[u8]) -> &[u8]
    ensures { result.now ≡ word_kind word.now }
{
    if is_lack(word) { b"not compared" } else { word }
}

/// The fields of a line.
#[tactic(auto, unfolding(crate::specs::Lines::fields_json))]
fn push_fields(text: &mut Vec<u8>, words: &[&[u8]]) -> Result<(), AllocError>
    ensures { OnOk result (text.new.items ≡ text.old.items ++ fields_json (texts words.now)) }
{
    let Some(word) = words.first() else {
        return push_kind(text, b"");
    };
    let more = &words[1..];
    if is_natural(word) {
        push_kind(text, place_kind(more))?;
        push_field(text, b"place", word)?;
        push_facts(text, more)
    } else {
        push_kind(text, word_kind(word))?;
        push_more(text, word, more)
    }
}

fn is_sign(word: &[u8]) -> bool
    ensures { result ≡ is_sign word.now }
{
    word == b"-".as_slice() || word == b"+".as_slice() || word == b"~".as_slice()
}

/// The fields of a line that may have a sign before it.
#[tactic(auto, unfolding(crate::specs::Lines::told_json))]
fn push_told(text: &mut Vec<u8>, words: &[&[u8]]) -> Result<(), AllocError>
    ensures { OnOk result (text.new.items ≡ text.old.items ++ told_json (texts words.now)) }
{
    let Some(word) = words.first() else {
        return push_fields(text, words);
    };
    if !is_sign(word) {
        return push_fields(text, words);
    }
    push_bytes(text, b"\"sign\":")?;
    push_string(text, word)?;
    push_bytes(text, b",")?;
    push_fields(text, &words[1..])
}

/// The object of a line.
///
/// # Errors
///
/// Out of memory.
#[tactic(auto, unfolding(crate::specs::Lines::json_line))]
pub(crate) fn push_line(alloc: Global, text: &mut Vec<u8>, line: &[u8]) -> Result<(), AllocError>
    ensures { OnOk result (text.new.items ≡ text.old.items ++ json_line line.now) }
{
    if line.is_empty() {
        return Ok(());
    }
    let words = words(alloc, line)?;
    push_bytes(text, b"{")?;
    push_told(text, words.as_slice())?;
    push_bytes(text, b"}\n")
}
