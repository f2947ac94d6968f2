//! How a text is to look, and where a node of it stands.

use print_spelling::Style;

/// How a text is to look.
#[derive(Clone, Copy, Debug, Default)]
pub struct Look {
    /// How literals and names are spelled, and whether the text is to be short.
    pub style: Style,
    /// Whether the last semicolon of a program may go.
    pub omits_last: bool,
    /// Whether import attributes follow `assert`, as they did once, and not `with`.
    pub asserts: bool,
}

/// Where a node stands, as far as its own text depends on that.
#[derive(Clone, Copy, Debug, Default, PartialEq, Eq)]
pub enum Stand {
    /// At none of the places below.
    #[default]
    Alone,
    /// As a left operand, where an operator's node marks no start.
    Operand,
    /// As a body behind parameters or an arrow, where a block marks no start.
    Body,
    /// At the head of a call, a member or a tag, where `new` has its parentheses.
    Head,
    /// As the key of a property or a module's name.
    Key,
    /// Behind a tag.
    Tagged,
}
