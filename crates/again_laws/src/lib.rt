//! Read-back: the text that is written of a program is the same program. What a text says (`tokens`, `tiling`), literals and names
//! (`leaf`), the tree that is read again (`derived`), and the text as a whole (`text`). The functions here are laws alone.
#![tactic(auto)]

ghost use Rattle.again_laws.specs.Laws.{GoingIsReadBack, NamesReadBack, ProgramsReadBack, TiledIsReadBack};
ghost use Rattle.again_laws.specs.Marked.{NamesAreMarked};

pub mod derived;
pub mod derived_laws;
pub mod derived_rules;
pub mod leaf;
pub mod names;
pub mod text;
pub mod tiling;
pub mod tokens;

/// Law: what is written of a tree that spells a text, in any look, formatted and minified, is spelled by a tree of the
/// same program, and read by no other tree. That tree is written as the first one: formatted what was formatted, minified
/// what was minified, and minified what was formatted, from ES2015 on and with characters past ASCII.
#[tactic(auto)]
pub fn read_back_law()
    ensures { ProgramsReadBack }
{}

/// Law: it is so where what is written of every program is tiled by tokens that its layout says, and where each text of
/// its layout may follow what stands before it.
#[tactic(auto)]
pub fn tiled_law()
    ensures tiled { TiledIsReadBack }
    ensures goes { GoingIsReadBack }
{}

/// Law: where the text is tiled by tokens that the layout says, each name where it stands for the one that was read, the
/// tree that reads it has as many names, the i-th of both is the same word, and the one stands for the other.
#[tactic(auto)]
pub fn names_law()
    ensures { NamesReadBack }
{}

/// Law: what is written of a tree that spells a text, on a page that keeps marks, has the names of the tree, and the page
/// has, for each of them, the pair of where it was read and of the line and column where it stands, so long as no line
/// and no column is past 32 bits.
#[tactic(auto)]
pub fn marked_law()
    ensures { NamesAreMarked }
{}
