//! What a layout says is derived again: the forms that all productions share, and each family of productions
//! (ECMA-262, clauses 13 to 16).
