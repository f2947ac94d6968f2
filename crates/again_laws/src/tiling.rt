//! Layouts whose texts may stand one after another are written as texts that are tiled by the tokens that they say. The functions here are laws alone.

ghost use Rattle.again_laws.specs.Tiling.Laws.{LayoutsAreTiled, HashbangsAreTiled, TilesAgain};

/// Law: where each text of a layout may follow what stands before it, what is written, formatted and minified, is
/// tiled by tokens that the layout says, and by no other; so it is behind a hashbang.
#[tactic(auto)]
pub fn layouts_are_tiled()
    ensures alone { LayoutsAreTiled }
    ensures hashbang { HashbangsAreTiled }
{}

/// Law: tokens that tile a text tile it under other goals and in other contexts, where these keep the regions of
/// templates, as those that a derivation gives them do.
#[tactic(auto)]
pub fn tiles_again()
    ensures { TilesAgain }
{}
