//! The kinds of tokens as numbers, as definitions have them.

pub const END: u8 = 0;

pub const ARROW: u8 = 1;

pub const HASH: u8 = 2;

pub const AT: u8 = 3;

pub const DOT: u8 = 4;

pub const DOT_DOT_DOT: u8 = 5;

pub const BANG: u8 = 6;

pub const LEFT_PAREN: u8 = 7;

pub const RIGHT_PAREN: u8 = 8;

pub const LEFT_BRACKET: u8 = 9;

pub const RIGHT_BRACKET: u8 = 10;

pub const LEFT_BRACE: u8 = 11;

pub const RIGHT_BRACE: u8 = 12;

pub const SEMICOLON: u8 = 13;

pub const COMMA: u8 = 14;

pub const BACK_QUOTE: u8 = 15;

pub const TEMPLATE: u8 = 16;

pub const COLON: u8 = 17;

pub const DOLLAR_BRACE: u8 = 18;

pub const QUESTION_MARK: u8 = 19;

pub const PLUS_PLUS: u8 = 20;

pub const MINUS_MINUS: u8 = 21;

pub const TILDE: u8 = 22;

pub const STR: u8 = 23;

pub const REGEX: u8 = 24;

pub const NUM: u8 = 25;

pub const BIG_INT: u8 = 26;

pub const SHEBANG: u8 = 27;

pub const ERROR: u8 = 28;

pub const EQ_EQ: u8 = 30;

pub const NOT_EQ: u8 = 31;

pub const EQ_EQ_EQ: u8 = 32;

pub const NOT_EQ_EQ: u8 = 33;

pub const LT: u8 = 34;

pub const LT_EQ: u8 = 35;

pub const GT: u8 = 36;

pub const GT_EQ: u8 = 37;

pub const LEFT_SHIFT: u8 = 38;

pub const RIGHT_SHIFT: u8 = 39;

pub const ZERO_FILL_RIGHT_SHIFT: u8 = 40;

pub const ADD: u8 = 41;

pub const SUB: u8 = 42;

pub const MUL: u8 = 43;

pub const DIV: u8 = 44;

pub const MOD: u8 = 45;

pub const BIT_OR: u8 = 46;

pub const BIT_XOR: u8 = 47;

pub const BIT_AND: u8 = 48;

pub const EXP: u8 = 49;

pub const LOGICAL_OR: u8 = 50;

pub const LOGICAL_AND: u8 = 51;

pub const NULLISH_COALESCING: u8 = 52;

pub const ASSIGN: u8 = 60;

pub const ADD_ASSIGN: u8 = 61;

pub const SUB_ASSIGN: u8 = 62;

pub const MUL_ASSIGN: u8 = 63;

pub const DIV_ASSIGN: u8 = 64;

pub const MOD_ASSIGN: u8 = 65;

pub const LEFT_SHIFT_ASSIGN: u8 = 66;

pub const RIGHT_SHIFT_ASSIGN: u8 = 67;

pub const ZERO_FILL_RIGHT_SHIFT_ASSIGN: u8 = 68;

pub const BIT_OR_ASSIGN: u8 = 69;

pub const BIT_XOR_ASSIGN: u8 = 70;

pub const BIT_AND_ASSIGN: u8 = 71;

pub const EXP_ASSIGN: u8 = 72;

pub const AND_ASSIGN: u8 = 73;

pub const OR_ASSIGN: u8 = 74;

pub const NULLISH_ASSIGN: u8 = 75;

pub const NULL: u8 = 80;

pub const TRUE: u8 = 81;

pub const FALSE: u8 = 82;

pub const AWAIT: u8 = 100;

pub const BREAK: u8 = 101;

pub const CASE: u8 = 102;

pub const CATCH: u8 = 103;

pub const CONTINUE: u8 = 104;

pub const DEBUGGER: u8 = 105;

pub const DEFAULT: u8 = 106;

pub const DO: u8 = 107;

pub const ELSE: u8 = 108;

pub const FINALLY: u8 = 109;

pub const FOR: u8 = 110;

pub const FUNCTION: u8 = 111;

pub const IF: u8 = 112;

pub const RETURN: u8 = 113;

pub const SWITCH: u8 = 114;

pub const THROW: u8 = 115;

pub const TRY: u8 = 116;

pub const VAR: u8 = 117;

pub const LET: u8 = 118;

pub const CONST: u8 = 119;

pub const WHILE: u8 = 120;

pub const WITH: u8 = 121;

pub const NEW: u8 = 122;

pub const THIS: u8 = 123;

pub const SUPER: u8 = 124;

pub const CLASS: u8 = 125;

pub const EXTENDS: u8 = 126;

pub const EXPORT: u8 = 127;

pub const IMPORT: u8 = 128;

pub const YIELD: u8 = 129;

pub const IN: u8 = 130;

pub const INSTANCEOF: u8 = 131;

pub const TYPEOF: u8 = 132;

pub const VOID: u8 = 133;

pub const DELETE: u8 = 134;

pub const ACCESSOR: u8 = 140;

pub const AS: u8 = 141;

pub const ASSERT: u8 = 142;

pub const ASYNC: u8 = 143;

pub const ENUM: u8 = 144;

pub const FROM: u8 = 145;

pub const GET: u8 = 146;

pub const IMPLEMENTS: u8 = 147;

pub const INTERFACE: u8 = 148;

pub const META: u8 = 149;

pub const OF: u8 = 150;

pub const PACKAGE: u8 = 151;

pub const PRIVATE: u8 = 152;

pub const PROTECTED: u8 = 153;

pub const PUBLIC: u8 = 154;

pub const SET: u8 = 155;

pub const STATIC: u8 = 156;

pub const TARGET: u8 = 157;

pub const UNDEFINED: u8 = 158;

pub const USING: u8 = 159;

pub const NAME: u8 = 160;
