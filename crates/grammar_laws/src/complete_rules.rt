//! Laws of the grammar, over readers of what is nested: what the rules of expressions, patterns, functions, classes,
//! statements, scripts and modules answer, and that what these produce is read.
