//! What a part that was made says of the places where it may stand.

// What holds of all code around a part, up to what ends it: a function, a loop, brackets.

/// It stands in code that is not strict alone.
pub const SLOPPY: u32 = 1;
/// `yield` is an operator in it.
pub const YIELDS: u32 = 1 << 1;
/// `yield` is a name in it.
pub const YIELD_NAME: u32 = 1 << 2;
/// `await` is an operator in it.
pub const AWAITS: u32 = 1 << 3;
/// `await` is a name in it.
pub const AWAIT_NAME: u32 = 1 << 4;
/// It has a member of `super`.
pub const SUPER: u32 = 1 << 5;
/// It calls `super`.
pub const SUPER_CALL: u32 = 1 << 6;
/// It has `new.target`.
pub const NEW_TARGET: u32 = 1 << 7;
/// It returns.
pub const RETURNS: u32 = 1 << 8;
/// It breaks a loop or a `switch`.
pub const BREAKS: u32 = 1 << 9;
/// It goes on with a loop.
pub const CONTINUES: u32 = 1 << 10;
/// It has the name `arguments`.
pub const ARGUMENTS: u32 = 1 << 11;
/// It is the constructor of a class, or the default case of a `switch`, of which there is one.
pub const ONCE: u32 = 1 << 12;
/// All of these.
pub const FREE: u32 = (1 << 13) - 1;
/// It has `in` outside of brackets.
pub const HAS_IN: u32 = 1 << 13;
/// It assigns to what is no name, and so does not bind.
pub const ASSIGNS: u32 = 1 << 14;

// What holds of an expression that a part begins with.

/// It begins with `{`.
pub const BRACE: u32 = 1 << 15;
/// It begins as a function or a class does.
pub const DECLARES: u32 = 1 << 16;
/// It begins with `let`.
pub const LET: u32 = 1 << 17;
/// All of these.
pub const HEADS: u32 = BRACE | DECLARES | LET;

// What holds of the part itself.

/// It is an optional chain.
pub const CHAIN: u32 = 1 << 18;
/// It may be assigned to.
pub const TARGET: u32 = 1 << 19;
/// An `else` behind it would be its own.
pub const OPEN_IF: u32 = 1 << 20;
/// It stands in a list of statements alone.
pub const ITEM: u32 = 1 << 21;
/// It is a `using`, which stands directly in no script.
pub const USING: u32 = 1 << 22;
/// A name that strict code does not bind.
pub const LOOSELY_BOUND: u32 = 1 << 23;
/// It is a pattern with an initialiser.
pub const INITIALISED: u32 = 1 << 24;

// What holds of the whole program.

/// `using` and `accessor` may stand in it.
pub const FEATURE: u32 = 1 << 25;
/// It is a module.
pub const IN_MODULE: u32 = 1 << 26;

// How tightly expressions bind (ECMA-262, clause 13), from the comma to what stands alone.

pub const EXPRESSION: u8 = 1;

pub const ASSIGNMENT: u8 = 2;

pub const CONDITIONAL: u8 = 3;

pub const COALESCE: u8 = 4;

pub const UNARY: u8 = 16;

pub const UPDATE: u8 = 17;

pub const BARE_NEW: u8 = 18;

pub const CALL: u8 = 19;

pub const MEMBER: u8 = 20;

pub const PRIMARY: u8 = 21;
