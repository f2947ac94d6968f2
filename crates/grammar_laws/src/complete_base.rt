//! What the laws of reading rest on: what a reading answers, levels, sizes of trees, and that trees take tokens.
