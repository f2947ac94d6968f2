//! What a pattern is for.
ghost use Rattle.std.specs.Prelude.{◌≡◌};
ghost use Rattle.parse_alone.specs.Patterns.{element_of};

/// What a pattern is for: it binds names (ECMA-262, 14.3.3) or assigns to targets (13.15.5), as a whole or as an element
/// of another one.
#[derive(Clone, Copy, Debug, PartialEq, Eq)]
pub enum PatType {
    /// A whole pattern that binds names.
    BindingPat,
    /// An element of one.
    BindingElement,
    /// A whole pattern that assigns to targets.
    AssignPat,
    /// An element of one.
    AssignElement,
}

impl PatType {
    /// The element of its pair: what an element of such a pattern is for.
    pub fn element(self) -> PatType
        ensures { result ≡ element_of self }
    {
        match self {
            PatType::BindingPat | PatType::BindingElement => PatType::BindingElement,
            PatType::AssignPat | PatType::AssignElement => PatType::AssignElement,
        }
    }
}
