//! Laws of the text that is written of a program that was read: its texts are tokens of their categories and may stand
//! one after another, it is UTF-8, and its names stand where the marks of the page say. The functions here are laws
//! alone.

ghost use Rattle.again_laws.specs.Text.Fitting.{TextsFit};
ghost use Rattle.again_laws.specs.Text.LaidLaws.{TextIsLaid, TextIsWritten};
ghost use Rattle.again_laws.specs.Text.PlacedLaws.{NamesArePlaced, NamesBehindHashbangs};
ghost use Rattle.again_laws.specs.Text.TextLaws.{ReadIsText};
ghost use Rattle.again_laws.specs.Text.TiledLaws.{ModulesAreTiled, ProgramsGo, ScriptsAreTiled};

/// Law: in each style the text of a name or a literal that was read is a token of its category, before whatever may follow that.
#[tactic(auto)]
pub fn texts_fit()
    ensures { TextsFit }
{}

/// Law: a script or a module that produces known tokens is written, in any look, formatted and minified, as a text that is
/// tiled by tokens that its layout says.
#[tactic(auto)]
pub fn programs_are_tiled()
    ensures scripts { ScriptsAreTiled }
    ensures modules { ModulesAreTiled }
{}

/// Law: each text of the layout of a program that reads a text may follow what stands before it.
#[tactic(auto)]
pub fn programs_go()
    ensures { ProgramsGo }
{}

/// Law: the layout of a tree whose texts are UTF-8 is UTF-8, in any look and wherever the tree stands. So on a page of
/// UTF-8 it is written in UTF-8, formatted and minified.
#[tactic(auto)]
pub fn text_law()
    ensures laid { TextIsLaid }
    ensures written { TextIsWritten }
{}

/// Law: what is written of a tree that reads a text is UTF-8, in any look, formatted and minified.
#[tactic(auto)]
pub fn read_law()
    ensures { ReadIsText }
{}

/// Law: where each text of a layout may follow what stands before it, what is written, formatted and minified, on a page
/// that keeps marks, is tiled by tokens that the layout says, each name of which stands for one that was read; and the
/// page has the pair of the place where that was read and of the line and column where it stands, so long as no line and
/// no column is past 32 bits. So it is behind a hashbang.
#[tactic(auto)]
pub fn names_are_placed()
    ensures alone { NamesArePlaced }
    ensures hashbang { NamesBehindHashbangs }
{}
