//! Iteration over the words of a text.

ghost use Rattle.std.specs.Prelude.{◌≡◌, ◌≤◌, length, position};
ghost use Rattle.std.specs.List.{position_or_len};
ghost use Rattle.std.specs.Iterator.{item_count};
ghost use Rattle.shogi_sfen.specs.Words.{is_blank, is_word_byte, words, GivesWord};

use crate::byte::{SPACE, TAB};
use std::marker::Model;

/// Whether the byte is a space or a tab.
fn is_blank(byte: u8) -> bool
    ensures { result ≡ is_blank byte }
{
    byte == SPACE || byte == TAB
}

/// The index of the first byte of a word.
fn first_word_byte(text: &[u8]) -> Option<usize>
    ensures { result ≡ position is_word_byte text.now }
{
    text.iter().position(|byte| !is_blank(*byte))
}

/// The index of the first blank.
fn first_blank(text: &[u8]) -> Option<usize>
    ensures { result ≡ position is_blank text.now }
{
    text.iter().position(|byte| is_blank(*byte))
}

/// The number of blanks at the start of the text.
#[tactic(auto, using(crate::proofs::WordLaws::first_or_len))]
fn blanks_len(text: &[u8]) -> usize
    ensures value { result ≡ position_or_len is_word_byte text.now }
    ensures bound { result ≤ length text.now }
{
    first_word_byte(text).unwrap_or(text.len())
}

/// The number of bytes before the first blank.
#[tactic(auto, using(crate::proofs::WordLaws::first_or_len))]
fn word_len(text: &[u8]) -> usize
    ensures value { result ≡ position_or_len is_blank text.now }
    ensures bound { result ≤ length text.now }
{
    first_blank(text).unwrap_or(text.len())
}

/// The words of a text still to come, seen as the bytes after the last word given.
#[derive(Debug, Drop)]
pub struct Words<'a> {
    text: &'a [u8],
}

impl<'a> Model for Words<'a> {
    ghost use Rattle.std.specs.Prelude.{List, ℕ};

    ghost Value = { List ℕ };

    ghost view = { λ words. words.text.now };
}

impl<'a> Words<'a> {
    /// The words of the text.
    pub fn new(text: &'a [u8]) -> Words<'a>
        ensures { result ≡ text.now }
    {
        Words { text }
    }

    /// The bytes after the last word given, or the whole text before the first.
    pub fn rest(&self) -> &'a [u8]
        ensures { result.now ≡ self.now }
    {
        self.text
    }
}

impl<'a> Iterator for Words<'a> {
    type Item = &'a [u8];

    ghost next_gives = { GivesWord };

    ghost remaining = { item_count words };

    /// The next word, or `None` if only blanks are left; they then stay the rest.
    fn next(&mut self) -> Option<&'a [u8]> {
        let text = self.text;
        let (_, from) = text.split_at(blanks_len(text));
        if from.is_empty() {
            return None;
        }
        let (word, rest) = from.split_at(word_len(from));
        self.text = rest;
        Some(word)
    }
}
