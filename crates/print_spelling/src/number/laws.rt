//! Laws of the definitions, by functions that do nothing.

ghost use Rattle.print_spelling.specs.Number.Numbers.{BigIntIsRead, FormattedAgain, FormattedBigAgain, FormattedBigIsRead, FormattedIsRead, FormattedStands, MemberStands, MinifiedIsRead, MinifiedStands};

/// Law: a minified number has its value.
pub fn minified_is_read()
    ensures { MinifiedIsRead }
{}

/// Law: a minified number is read as its value, before any rest that may follow.
pub fn minified_stands()
    ensures { MinifiedStands }
{}

/// Law: a big integer is read as its radix and digits, before any rest that may follow.
pub fn big_int_is_read()
    ensures { BigIntIsRead }
{}

/// Law: a formatted number has its value, where the text as it was read has.
pub fn formatted_is_read()
    ensures { FormattedIsRead }
{}

/// Law: a formatted number is read as its value, before any rest that may follow it.
pub fn formatted_stands()
    ensures { FormattedStands }
{}

/// Law: what is written of a number when formatting is written again where it was read.
pub fn formatted_again()
    ensures { FormattedAgain }
{}

/// Law: before the point of a member a number is read as its value, with a point of its own where it
/// would take the first.
pub fn member_stands()
    ensures { MemberStands }
{}

/// Law: a formatted big integer is read as its radix and digits, before any rest that may follow it.
pub fn formatted_big_is_read()
    ensures { FormattedBigIsRead }
{}

/// Law: what is written of a big integer when formatting is written again where it was read.
pub fn formatted_big_again()
    ensures { FormattedBigAgain }
{}
