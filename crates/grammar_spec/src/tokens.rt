//! What the grammar asks of tokens and of trees: places, levels of operators, what goes on, sorts of nodes.
