//! Lines and columns of a text: where a byte lies, and how a place goes on along a text. The functions here are laws alone.

ghost use Rattle.print_pages_spec.specs.Lines.Laws.{PlacesGoOn, FrontsEnd};

/// Law: where the characters of a text end, counted on from the place before them, is the place between them and what
/// follows, where no CR LF is cut there.
#[tactic(auto)]
pub fn places_go_on()
    ensures { PlacesGoOn }
{}

/// Law: the place of the byte behind some characters of a text is the place between them and what follows.
#[tactic(auto)]
pub fn fronts_end()
    ensures { FrontsEnd }
{}
