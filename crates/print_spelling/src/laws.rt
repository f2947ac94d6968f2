//! Laws of the definitions, by functions that do nothing.

ghost use Rattle.print_spelling.specs.Pieces.{EachFormStands};

/// Law: in quotes, each form that suits a character stands for its units.
pub fn each_form_stands()
    ensures { EachFormStands }
{}
