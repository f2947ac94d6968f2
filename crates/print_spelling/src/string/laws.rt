//! Laws of the definitions, by functions that do nothing.

ghost use Rattle.print_spelling.specs.String.Names.{KeyIsRead, KeyWordIsRead, NameIsRead};
ghost use Rattle.print_spelling.specs.String.Strings.{FormattedAgain, MinifiedAlone, QuotedIsRead, StringIsRead};

/// Law: units in quotes are read as these units, whatever follows.
pub fn quoted_is_read()
    ensures { QuotedIsRead }
{}

/// Law: a name is read as its characters, before whatever goes on no name.
pub fn name_is_read()
    ensures { NameIsRead }
{}

/// Law: a key that becomes a string is read as the units of its word, whatever follows.
pub fn key_is_read()
    ensures { KeyIsRead }
{}

/// Law: any other key is read as its word, before whatever goes on no name.
pub fn key_word_is_read()
    ensures { KeyWordIsRead }
{}

/// Law: a string is read as its units, whatever follows.
pub fn string_is_read()
    ensures { StringIsRead }
{}

/// Law: what is written of a string is written again where it was read.
pub fn formatted_again()
    ensures { FormattedAgain }
{}

/// Law: minified, a string other than `use strict` depends on its units alone.
pub fn minified_alone()
    ensures { MinifiedAlone }
{}
