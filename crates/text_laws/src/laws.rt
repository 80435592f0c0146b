//! Laws of what is shown and read.
//!
//! They are functions without effect: a call brings the law into a proof.
ghost use Rattle.text_laws.specs.Entry.{EntryComesBack, EntryLineComesBack, OpcodeComesBack};
ghost use Rattle.text_laws.specs.Words.{CommentIsSkipped, CountComesBack, DecimalComesBack};
ghost use Rattle.text_laws.specs.Words.{DecimalIsWord, FirstWordComesBack, HexadecimalComesBack};
ghost use Rattle.text_laws.specs.Words.{HexadecimalIsWord, NextWordComesBack, PathComesBack};
ghost use Rattle.text_laws.specs.Words.{PathIsWord, StringsComeBack, ValueComesBack};

/// Words that stand in a line are read one after another, with the value behind a key. The line of
/// a place is skipped.
pub fn words_come_back()
    ensures next { NextWordComesBack }
    ensures first { FirstWordComesBack }
    ensures value { ValueComesBack }
    ensures comment { CommentIsSkipped }
{}

/// Numbers and paths are read as they are shown, and each of them is a word.
pub fn values_come_back()
    ensures decimal { DecimalComesBack }
    ensures hexadecimal { HexadecimalComesBack }
    ensures count { CountComesBack }
    ensures path { PathComesBack }
    ensures decimal_word { DecimalIsWord }
    ensures hexadecimal_word { HexadecimalIsWord }
    ensures path_word { PathIsWord }
{}

/// All bytes that are shown in strings are read back, where none of them are left out.
pub fn strings_come_back()
    ensures { StringsComeBack }
{}

/// The line of each entry whose fields have the ranges of their types is read as that entry and
/// what stands beside it, with its place or without. What follows the line is left as it is.
pub fn entries_come_back()
    ensures opcode { OpcodeComesBack }
    ensures words { EntryComesBack }
    ensures line { EntryLineComesBack }
{}
