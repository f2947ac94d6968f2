//! Laws of the layout: what it doesn't depend on, and that what the grammar derives can be printed; and small
//! programs with what is written for them, formatted and minified. Its only functions are laws.
#![tactic(auto)]

ghost use Rattle.print_layout_laws.specs.Laws.{PlacesAreMarks, PlacesAside, SpellingsAside, SpellingsGo, UnplacedIsNowhere};
ghost use Rattle.print_layout_laws.specs.PrintedLaws.{ReadIsPrinted, SpelledIsPrinted};

/// Law: the places of a tree come into its layout as marks alone. So trees that agree but for places are written
/// in the same pieces and as the same bytes, and where one can't be printed the other can't.
#[tactic(auto)]
pub fn places_law()
    ensures nowhere { UnplacedIsNowhere }
    ensures marks { PlacesAreMarks }
    ensures alike { PlacesAside }
{}

/// Law: minified, a tree without the raw texts of numbers, big integers and strings has the same layout, where
/// that of `use strict` with an escape is kept. So trees that agree but for those and for places are written alike.
#[tactic(auto)]
pub fn spellings_law()
    ensures layout { SpellingsGo }
    ensures alike { SpellingsAside }
{}

/// Law: in the layout of a tree that produces tokens nothing is refused, in any look and wherever it stands. So a
/// tree that reads a text, as a script or as a module, can be printed.
#[tactic(auto)]
pub fn printed_law()
    ensures spelled { SpelledIsPrinted }
    ensures read { ReadIsPrinted }
{}
