//! Laws of the definitions, by functions that do nothing.

ghost use Rattle.print_spelling.specs.Template.Again.{TemplateAgain, WrittenAgain};
ghost use Rattle.print_spelling.specs.Template.Laws.{TemplateIsRead};
ghost use Rattle.print_spelling.specs.Template.RegExps.{RegExpIsRead};
ghost use Rattle.lex_literal.specs.Tagged.{TaggedIsRead};

/// Law: a piece of an untagged template stands for the units of its raw text, whichever end it has.
pub fn template_is_read()
    ensures { TemplateIsRead }
{}

/// Law: a regular expression is read as its body and flags, before whatever goes on no name.
pub fn reg_exp_is_read()
    ensures { RegExpIsRead }
{}

/// Law: a piece of a tagged template, which stands as it was read, is read as the same piece, whichever end
/// it has.
pub fn tagged_is_read()
    ensures { TaggedIsRead }
{}

/// Law: what is written of a piece of an untagged template that stands as it was read is written, in any
/// style, as that piece is.
pub fn template_again()
    ensures { TemplateAgain }
{}

/// Law: what is written of a piece of an untagged template is written again, in the same style, where it was
/// read.
pub fn written_again()
    ensures { WrittenAgain }
{}
