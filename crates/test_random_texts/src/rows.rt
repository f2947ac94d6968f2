//! The shapes of all sorts, in tables of rows. A row that stands twice is taken twice as often.

use crate::marks::{
    ARGUMENTS, ASSIGNMENT, ASSIGNS, AWAIT_NAME, AWAITS, BARE_NEW, BRACE, BREAKS, CALL, CHAIN,
    COALESCE, CONDITIONAL, CONTINUES, DECLARES, EXPRESSION, FEATURE, HAS_IN, HEADS, IN_MODULE,
    INITIALISED, ITEM, LET, MEMBER, NEW_TARGET, ONCE, OPEN_IF, PRIMARY, RETURNS, SLOPPY, SUPER,
    SUPER_CALL, TARGET, UNARY, UPDATE, USING, YIELD_NAME, YIELDS,
};

/// What a part stands in the place of.
#[derive(Clone, Copy, PartialEq, Eq)]
pub enum Sort {
    Expr,
    Stmt,
    Pat,
    Prop,
    Member,
    Case,
    Item,
}

/// What stands in a hole that no part stands in.
#[derive(Clone, Copy)]
pub enum Or {
    Nothing,
    Name,
    MayName,
    Word,
    Dot,
    Key,
    MemberKey,
    Unary,
    Assign,
    Label,
    Jump,
    MayStatic,
    String,
    Characters,
    BadEscape,
}

/// A place for parts of a sort.
#[derive(Clone, Copy)]
pub struct Hole {
    pub sort: Sort,
    /// How many parts stand in it at least, and at most.
    pub least: usize,
    pub most: usize,
    /// How tightly an expression binds there at least, and how tightly also.
    pub level: u8,
    pub also: u8,
    /// What may not be in it.
    pub barred: u32,
    /// What holds no longer outside.
    pub ends: u32,
    /// What holds of the whole where it holds of the part.
    pub carries: u32,
    /// Whether the whole begins with it.
    pub begins: bool,
    /// Whether what the shape bars may not be in it.
    pub narrow: bool,
    /// Whether it is assigned to.
    pub target: bool,
    /// What stands before each part, and behind it.
    pub open: &'static str,
    pub close: &'static str,
    pub or: Or,
}

/// A shape: its words, of which those with `$` name holes, how tightly it binds (0: as its first part, and at most as a member), its
/// own marks, and what it bars in holes that are narrow.
pub type Row = (&'static str, u8, u32, u32);

/// An operand of any level, once.
pub const OPERAND: Hole = Hole {
    sort: Sort::Expr,
    least: 1,
    most: 1,
    level: EXPRESSION,
    also: 0,
    barred: 0,
    ends: 0,
    carries: 0,
    begins: false,
    narrow: false,
    target: false,
    open: "",
    close: "",
    or: Or::Nothing,
};

/// No part.
const NOTHING: Hole = Hole {
    least: 0,
    most: 0,
    ..OPERAND
};

const NAME: Hole = Hole {
    or: Or::Name,
    ..NOTHING
};

const MAY_NAME: Hole = Hole {
    or: Or::MayName,
    ..NOTHING
};

const WORD: Hole = Hole {
    or: Or::Word,
    ..NOTHING
};

const UNARY_SIGN: Hole = Hole {
    or: Or::Unary,
    ..NOTHING
};

const ASSIGN_SIGN: Hole = Hole {
    or: Or::Assign,
    ..NOTHING
};

const LABEL: Hole = Hole {
    or: Or::Label,
    ..NOTHING
};

const JUMP: Hole = Hole {
    or: Or::Jump,
    ..NOTHING
};

const MAY_STATIC: Hole = Hole {
    or: Or::MayStatic,
    ..NOTHING
};

const TEXT: Hole = Hole {
    or: Or::String,
    ..NOTHING
};

const CHARACTERS: Hole = Hole {
    or: Or::Characters,
    ..NOTHING
};

const BAD_ESCAPE: Hole = Hole {
    or: Or::BadEscape,
    ..NOTHING
};

const VALUE: Hole = Hole {
    level: ASSIGNMENT,
    ..OPERAND
};

const MORE_VALUES: Hole = Hole {
    most: 2,
    open: ",",
    ..VALUE
};

const UNARY_VALUE: Hole = Hole {
    level: UNARY,
    ..OPERAND
};

const SHIFTED: Hole = Hole {
    level: 12,
    ..OPERAND
};

/// In brackets.
const INSIDE: Hole = Hole {
    ends: HAS_IN,
    ..OPERAND
};

const MAY_INSIDE: Hole = Hole { least: 0, ..INSIDE };

const PARTS: Hole = Hole {
    most: 2,
    open: "${",
    close: "}",
    ..MAY_INSIDE
};

const ACCESS: Hole = Hole {
    open: "[",
    close: "]",
    or: Or::Dot,
    ..MAY_INSIDE
};

const OPTIONAL: Hole = Hole {
    or: Or::Word,
    ..ACCESS
};

const IN_PARENS: Hole = Hole {
    carries: TARGET,
    ..INSIDE
};

/// A value in brackets.
const ELEMENT: Hole = Hole {
    level: ASSIGNMENT,
    ..INSIDE
};

const MAY_ELEMENT: Hole = Hole {
    least: 0,
    ..ELEMENT
};

const ARGS: Hole = Hole {
    most: 2,
    close: ",",
    ..MAY_ELEMENT
};

const ELEMENTS: Hole = Hole { most: 3, ..ARGS };

const IMPORTED: Hole = Hole {
    most: 2,
    close: ",",
    ..ELEMENT
};

const DEFAULT: Hole = Hole {
    open: "def =",
    close: ",",
    ..MAY_ELEMENT
};

/// What the whole begins with.
const CALLEE: Hole = Hole {
    level: CALL,
    begins: true,
    ..OPERAND
};

const CHAINED: Hole = Hole {
    carries: CHAIN,
    ..CALLEE
};

const OBJECT: Hole = Hole {
    barred: CHAIN,
    ..CALLEE
};

const PLAIN_OBJECT: Hole = Hole {
    barred: CHAIN | LET,
    ..CALLEE
};

const TEST: Hole = Hole {
    level: COALESCE,
    ..CALLEE
};

const FIRST: Hole = Hole {
    level: ASSIGNMENT,
    ..CALLEE
};

/// What is assigned to.
const ASSIGNED: Hole = Hole {
    target: true,
    ..OPERAND
};

const FIRST_ASSIGNED: Hole = Hole {
    begins: true,
    ..ASSIGNED
};

const INNER_ASSIGNED: Hole = Hole {
    ends: HAS_IN,
    ..ASSIGNED
};

const NEW_CALLEE: Hole = Hole {
    level: MEMBER,
    ..OPERAND
};

const BARE_CALLEE: Hole = Hole {
    also: BARE_NEW,
    ..NEW_CALLEE
};

/// Patterns.
const PAT: Hole = Hole {
    sort: Sort::Pat,
    level: 0,
    ..OPERAND
};

const PATS: Hole = Hole {
    least: 0,
    most: 2,
    close: ",",
    ..PAT
};

const KEYED_PATS: Hole = Hole {
    open: "key :",
    ..PATS
};

const BARE_PAT: Hole = Hole {
    barred: INITIALISED,
    ..PAT
};

const MAY_REST: Hole = Hole {
    least: 0,
    open: "...",
    ..BARE_PAT
};

const TO_PATS: Hole = Hole {
    ends: ASSIGNS,
    ..PATS
};

const TO_KEYED_PATS: Hole = Hole {
    ends: ASSIGNS,
    ..KEYED_PATS
};

const TO_REST: Hole = Hole {
    ends: ASSIGNS,
    ..MAY_REST
};

const TO_HEAD: Hole = Hole {
    barred: INITIALISED | LET,
    ends: ASSIGNS,
    ..BARE_PAT
};

const BOUND: Hole = Hole {
    barred: INITIALISED | ASSIGNS,
    ..BARE_PAT
};

const CAUGHT: Hole = Hole {
    least: 0,
    open: "(",
    close: ")",
    ..BOUND
};

/// Statements.
const STMT: Hole = Hole {
    sort: Sort::Stmt,
    ..PAT
};

const ITEMS: Hole = Hole {
    least: 0,
    most: 3,
    ..STMT
};

const TOP_STMT: Hole = Hole {
    barred: TOP_BARS,
    ..STMT
};

const EXPR_STMT: Hole = Hole {
    barred: HEADS,
    ..INSIDE
};

const JUMPS: Hole = Hole {
    ends: BREAKS | CONTINUES,
    ..STMT
};

const DO_BODY: Hole = Hole {
    barred: ITEM,
    ..JUMPS
};

const LOOP_BODY: Hole = Hole {
    carries: OPEN_IF,
    ..DO_BODY
};

const IF_BODY: Hole = Hole {
    barred: ITEM,
    ..STMT
};

const THEN: Hole = Hole {
    barred: ITEM | OPEN_IF,
    ..STMT
};

const BODY: Hole = Hole {
    carries: OPEN_IF,
    ..IF_BODY
};

/// Parts of objects and classes.
const PROPS: Hole = Hole {
    sort: Sort::Prop,
    close: ",",
    ..ITEMS
};

const MEMBERS: Hole = Hole {
    sort: Sort::Member,
    barred: STRICT,
    ends: ONCE | SUPER_CALL,
    narrow: true,
    ..ITEMS
};

const HERITAGE: Hole = Hole {
    level: BARE_NEW,
    barred: KEY_BARS,
    narrow: true,
    ..OPERAND
};

const KEY: Hole = Hole {
    open: "[",
    close: "]",
    or: Or::Key,
    ..MAY_ELEMENT
};

const MEMBER_KEY: Hole = Hole {
    barred: KEY_BARS,
    or: Or::MemberKey,
    ..KEY
};

const CASES: Hole = Hole {
    sort: Sort::Case,
    ends: ONCE | BREAKS,
    ..ITEMS
};

/// Parameters and code of functions.
const PARAM: Hole = Hole {
    barred: ASSIGNS | YIELDS | AWAITS,
    ends: CODE,
    narrow: true,
    ..PAT
};

const PARAMS: Hole = Hole {
    least: 0,
    most: 2,
    close: ",",
    ..PARAM
};

const REST: Hole = Hole {
    least: 0,
    barred: INITIALISED | ASSIGNS | YIELDS | AWAITS,
    open: "...",
    ..PARAM
};

const CODE_BODY: Hole = Hole {
    ends: CODE,
    narrow: true,
    ..ITEMS
};

const ARROW_PARAMS: Hole = Hole {
    ends: AWAITS | RETURNS,
    ..PARAMS
};

const ARROW_REST: Hole = Hole {
    ends: AWAITS | RETURNS,
    ..REST
};

const ARROW_BODY: Hole = Hole {
    ends: AWAITS | RETURNS,
    ..CODE_BODY
};

const SHORT_BODY: Hole = Hole {
    barred: BRACE,
    ends: AWAITS | RETURNS,
    narrow: true,
    ..VALUE
};

const FIELD: Hole = Hole {
    barred: PART_BARS,
    ends: !0,
    open: "=",
    ..MAY_ELEMENT
};

const STATIC: Hole = Hole {
    barred: PART_BARS,
    ends: !0,
    ..ITEMS
};

/// What a `for` begins with.
const INIT: Hole = Hole {
    barred: HAS_IN,
    ..VALUE
};

const FIRST_EXPR: Hole = Hole {
    barred: HAS_IN | LET,
    ..OPERAND
};

/// In an export.
const TOP_VALUE: Hole = Hole {
    barred: TOP_BARS,
    ..VALUE
};

const TOP_BOUND: Hole = Hole {
    barred: INITIALISED | ASSIGNS | TOP_BARS,
    ..BOUND
};

const TOP_EXPR: Hole = Hole {
    barred: TOP_BARS | DECLARES,
    ..ELEMENT
};

/// What stands directly in a script, and in a module.
pub const TOP_SCRIPT: Hole = Hole {
    barred: TOP_BARS | AWAITS | USING,
    ..STMT
};

pub const TOP_ITEM: Hole = Hole {
    sort: Sort::Item,
    ..STMT
};

/// What the values of fields and static blocks bar.
const PART_BARS: u32 = SLOPPY
    | YIELDS
    | YIELD_NAME
    | AWAITS
    | AWAIT_NAME
    | SUPER_CALL
    | ARGUMENTS
    | RETURNS
    | BREAKS
    | CONTINUES;

/// What a key and what a class extends bar.
const KEY_BARS: u32 = SLOPPY | YIELD_NAME | SUPER | SUPER_CALL | NEW_TARGET;

/// What the outermost code bars.
const TOP_BARS: u32 = YIELDS | SUPER | SUPER_CALL | NEW_TARGET | RETURNS | BREAKS | CONTINUES;

/// What a function ends, since it bars the call of `super` or is the constructor.
const CODE: u32 = !(SLOPPY | SUPER_CALL);

// What the code of functions bars.

const PLAIN_BARS: u32 = YIELDS | AWAITS | BREAKS | CONTINUES;

const GENERATOR_BARS: u32 = YIELD_NAME | AWAITS | BREAKS | CONTINUES;

const ASYNC_BARS: u32 = YIELDS | AWAIT_NAME | BREAKS | CONTINUES;

const BOTH_BARS: u32 = YIELD_NAME | AWAIT_NAME | BREAKS | CONTINUES;

const ALONE: u32 = SUPER | SUPER_CALL;

const STRICT: u32 = SLOPPY | YIELD_NAME;

const IN_CLASS: u32 = STRICT | SUPER_CALL;

/// Binary operators: how tightly the left operand binds, the right one, and the whole.
pub const BINARY: [(&str, u8, u8, u8); 29] = [
    ("||", 5, 6, 5),
    ("&&", 6, 7, 6),
    ("|", 7, 8, 7),
    ("^", 8, 9, 8),
    ("&", 9, 10, 9),
    ("==", 10, 11, 10),
    ("!=", 10, 11, 10),
    ("===", 10, 11, 10),
    ("!==", 10, 11, 10),
    ("<", 11, 12, 11),
    ("<=", 11, 12, 11),
    (">", 11, 12, 11),
    (">=", 11, 12, 11),
    ("instanceof", 11, 12, 11),
    ("<<", 12, 13, 12),
    (">>", 12, 13, 12),
    (">>>", 12, 13, 12),
    ("+", 13, 14, 13),
    ("-", 13, 14, 13),
    ("-", 13, 14, 13),
    ("*", 14, 15, 14),
    ("/", 14, 15, 14),
    ("%", 14, 15, 14),
    ("**", 17, 15, 15),
    ("**", 17, 15, 15),
    ("in", 11, 12, 11),
    ("in", 11, 12, 11),
    ("??", 7, 7, 4),
    ("??", 7, 7, 4),
];

/// Operators before their operand.
pub const UNARY_SIGNS: [&str; 8] = ["-", "-", "+", "!", "~", "typeof", "void", "delete"];

/// Operators of assignments.
pub const ASSIGN_SIGNS: [&str; 16] = [
    "=", "+=", "-=", "*=", "/=", "%=", "<<=", ">>=", ">>>=", "|=", "^=", "&=", "**=", "&&=", "||=",
    "??=",
];

/// The holes by their names.
pub static HOLES: [(&str, Hole); 78] = [
    ("$access", ACCESS),
    ("$args", ARGS),
    ("$arrow_body", ARROW_BODY),
    ("$arrow_params", ARROW_PARAMS),
    ("$arrow_rest", ARROW_REST),
    ("$assigned", ASSIGNED),
    ("$assign_sign", ASSIGN_SIGN),
    ("$bad_escape", BAD_ESCAPE),
    ("$bare_callee", BARE_CALLEE),
    ("$bare_pat", BARE_PAT),
    ("$body", BODY),
    ("$bound", BOUND),
    ("$callee", CALLEE),
    ("$cases", CASES),
    ("$caught", CAUGHT),
    ("$chained", CHAINED),
    ("$characters", CHARACTERS),
    ("$code_body", CODE_BODY),
    ("$default", DEFAULT),
    ("$do_body", DO_BODY),
    ("$element", ELEMENT),
    ("$elements", ELEMENTS),
    ("$expr_stmt", EXPR_STMT),
    ("$field", FIELD),
    ("$first", FIRST),
    ("$first_assigned", FIRST_ASSIGNED),
    ("$first_expr", FIRST_EXPR),
    ("$heritage", HERITAGE),
    ("$if_body", IF_BODY),
    ("$imported", IMPORTED),
    ("$init", INIT),
    ("$inner_assigned", INNER_ASSIGNED),
    ("$inside", INSIDE),
    ("$in_parens", IN_PARENS),
    ("$items", ITEMS),
    ("$jump", JUMP),
    ("$jumps", JUMPS),
    ("$key", KEY),
    ("$keyed_pats", KEYED_PATS),
    ("$label", LABEL),
    ("$loop_body", LOOP_BODY),
    ("$may_inside", MAY_INSIDE),
    ("$may_name", MAY_NAME),
    ("$may_rest", MAY_REST),
    ("$may_static", MAY_STATIC),
    ("$members", MEMBERS),
    ("$member_key", MEMBER_KEY),
    ("$more_values", MORE_VALUES),
    ("$name", NAME),
    ("$new_callee", NEW_CALLEE),
    ("$object", OBJECT),
    ("$optional", OPTIONAL),
    ("$param", PARAM),
    ("$params", PARAMS),
    ("$parts", PARTS),
    ("$pats", PATS),
    ("$plain_object", PLAIN_OBJECT),
    ("$props", PROPS),
    ("$rest", REST),
    ("$shifted", SHIFTED),
    ("$short_body", SHORT_BODY),
    ("$static", STATIC),
    ("$stmt", STMT),
    ("$test", TEST),
    ("$text", TEXT),
    ("$then", THEN),
    ("$top_bound", TOP_BOUND),
    ("$top_expr", TOP_EXPR),
    ("$top_stmt", TOP_STMT),
    ("$top_value", TOP_VALUE),
    ("$to_head", TO_HEAD),
    ("$to_keyed_pats", TO_KEYED_PATS),
    ("$to_pats", TO_PATS),
    ("$to_rest", TO_REST),
    ("$unary_sign", UNARY_SIGN),
    ("$unary_value", UNARY_VALUE),
    ("$value", VALUE),
    ("$word", WORD),
];

/// Expressions, but for binary operators.
pub static EXPR_ROWS: [Row; 59] = [
    ("$unary_sign $unary_value", UNARY, 0, 0),
    ("$unary_sign $unary_value", UNARY, 0, 0),
    ("$unary_sign $unary_value", UNARY, 0, 0),
    ("await $unary_value", UNARY, AWAITS, 0),
    ("await $unary_value", UNARY, AWAITS, 0),
    ("++ $assigned", UPDATE, 0, 0),
    ("-- $assigned", UPDATE, 0, 0),
    ("$first_assigned ++", UPDATE, 0, 0),
    ("$first_assigned --", UPDATE, 0, 0),
    ("#p in $shifted", 11, HAS_IN, 0),
    ("$test ? $element : $value", CONDITIONAL, 0, 0),
    ("$test ? $element : $value", CONDITIONAL, 0, 0),
    ("$first $more_values", EXPRESSION, 0, 0),
    ("yield", ASSIGNMENT, YIELDS, 0),
    ("yield $value", ASSIGNMENT, YIELDS, 0),
    ("yield * $value", ASSIGNMENT, YIELDS, 0),
    ("$first_assigned $assign_sign $value", ASSIGNMENT, 0, 0),
    ("$first_assigned $assign_sign $value", ASSIGNMENT, 0, 0),
    ("[ $to_pats $to_rest ] = $value", ASSIGNMENT, 0, 0),
    ("{ $to_keyed_pats $default } = $value", ASSIGNMENT, BRACE, 0),
    (
        "{ $to_keyed_pats ... $name } = $value",
        ASSIGNMENT,
        BRACE,
        0,
    ),
    ("$object $access", 0, TARGET, 0),
    ("$object $access", 0, TARGET, 0),
    ("$object $access", 0, TARGET, 0),
    ("$object . #p", 0, TARGET, 0),
    ("$chained $access", 0, 0, 0),
    ("$object ( $args )", CALL, 0, 0),
    ("$object ( $args )", CALL, 0, 0),
    ("$object ( ... $element )", CALL, 0, 0),
    ("$chained ( $args )", CALL, 0, 0),
    ("$callee ?. $optional", CALL, CHAIN, 0),
    ("$callee ?. #p", CALL, CHAIN, 0),
    ("$callee ?. ( $args )", CALL, CHAIN, 0),
    ("$object ` $characters $parts $bad_escape `", 0, 0, 0),
    ("new $new_callee ( $args )", MEMBER, 0, 0),
    ("new $bare_callee", BARE_NEW, 0, 0),
    ("super ( $args )", CALL, SUPER_CALL, 0),
    ("import ( $imported )", CALL, 0, 0),
    ("[ $elements ]", PRIMARY, 0, 0),
    ("[ , $elements , ... $element ]", PRIMARY, 0, 0),
    ("{ $props }", PRIMARY, BRACE, 0),
    ("{ $props }", PRIMARY, BRACE, 0),
    ("` $characters $parts $characters `", PRIMARY, 0, 0),
    ("super . $word", MEMBER, SUPER | TARGET, 0),
    ("super [ $inside ]", MEMBER, SUPER | TARGET, 0),
    ("new . target", MEMBER, NEW_TARGET, 0),
    ("import . meta", MEMBER, IN_MODULE, 0),
    ("( $in_parens )", PRIMARY, 0, 0),
    (
        "class $may_name { $members }",
        PRIMARY,
        DECLARES,
        SUPER_CALL,
    ),
    (
        "class $may_name extends $heritage { $members }",
        PRIMARY,
        DECLARES,
        0,
    ),
    (
        "function $may_name ( $params $rest ) { $code_body }",
        PRIMARY,
        DECLARES,
        ALONE | PLAIN_BARS,
    ),
    (
        "function * $may_name ( $params $rest ) { $code_body }",
        PRIMARY,
        DECLARES,
        ALONE | GENERATOR_BARS,
    ),
    (
        "async function $may_name ( $params $rest ) { $code_body }",
        PRIMARY,
        DECLARES,
        ALONE | ASYNC_BARS,
    ),
    (
        "async function * $may_name ( $params $rest ) { $code_body }",
        PRIMARY,
        DECLARES,
        ALONE | BOTH_BARS,
    ),
    (
        "function $may_name ( ) { 'use strict' ; $code_body }",
        PRIMARY,
        DECLARES,
        ALONE | STRICT | PLAIN_BARS,
    ),
    (
        "( $arrow_params $arrow_rest ) => { $arrow_body }",
        ASSIGNMENT,
        0,
        PLAIN_BARS,
    ),
    (
        "( $arrow_params $arrow_rest ) => $short_body",
        ASSIGNMENT,
        0,
        PLAIN_BARS,
    ),
    (
        "async ( $arrow_params $arrow_rest ) => { $arrow_body }",
        ASSIGNMENT,
        0,
        ASYNC_BARS,
    ),
    (
        "async ( $arrow_params $arrow_rest ) => $short_body",
        ASSIGNMENT,
        0,
        ASYNC_BARS,
    ),
];

/// Patterns.
pub static PAT_ROWS: [Row; 7] = [
    ("[ $pats $may_rest ]", PRIMARY, 0, 0),
    ("[ , $pats ]", PRIMARY, 0, 0),
    ("{ $keyed_pats $default }", PRIMARY, 0, 0),
    ("{ $keyed_pats ... $name }", PRIMARY, 0, 0),
    ("$plain_object $access", PRIMARY, ASSIGNS, 0),
    ("( $inner_assigned )", PRIMARY, ASSIGNS, 0),
    ("$bare_pat = $element", PRIMARY, INITIALISED, 0),
];

/// Parts of objects.
pub static PROP_ROWS: [Row; 9] = [
    ("... $element", PRIMARY, 0, 0),
    ("$key : $element", PRIMARY, 0, 0),
    ("$key : $element", PRIMARY, 0, 0),
    (
        "get $key ( ) { $code_body }",
        PRIMARY,
        0,
        SUPER_CALL | PLAIN_BARS,
    ),
    (
        "set $key ( $param ) { $code_body }",
        PRIMARY,
        0,
        SUPER_CALL | PLAIN_BARS,
    ),
    (
        "$key ( $params $rest ) { $code_body }",
        PRIMARY,
        0,
        SUPER_CALL | PLAIN_BARS,
    ),
    (
        "* $key ( $params $rest ) { $code_body }",
        PRIMARY,
        0,
        SUPER_CALL | GENERATOR_BARS,
    ),
    (
        "async $key ( $params $rest ) { $code_body }",
        PRIMARY,
        0,
        SUPER_CALL | ASYNC_BARS,
    ),
    (
        "async * $key ( $params $rest ) { $code_body }",
        PRIMARY,
        0,
        SUPER_CALL | BOTH_BARS,
    ),
];

/// Members of classes.
pub static MEMBER_ROWS: [Row; 11] = [
    (
        "constructor ( $params $rest ) { $code_body }",
        PRIMARY,
        ONCE,
        STRICT | PLAIN_BARS,
    ),
    (
        "$may_static get $member_key ( ) { $code_body }",
        PRIMARY,
        0,
        IN_CLASS | PLAIN_BARS,
    ),
    (
        "$may_static set $member_key ( $param ) { $code_body }",
        PRIMARY,
        0,
        IN_CLASS | PLAIN_BARS,
    ),
    (
        "$may_static $member_key ( $params $rest ) { $code_body }",
        PRIMARY,
        0,
        IN_CLASS | PLAIN_BARS,
    ),
    (
        "$may_static * $member_key ( $params $rest ) { $code_body }",
        PRIMARY,
        0,
        IN_CLASS | GENERATOR_BARS,
    ),
    (
        "$may_static async $member_key ( $params $rest ) { $code_body }",
        PRIMARY,
        0,
        IN_CLASS | ASYNC_BARS,
    ),
    (
        "$may_static async * $member_key ( $params $rest ) { $code_body }",
        PRIMARY,
        0,
        IN_CLASS | BOTH_BARS,
    ),
    ("$may_static $member_key $field ;", PRIMARY, 0, 0),
    ("$may_static $member_key $field ;", PRIMARY, 0, 0),
    (
        "$may_static accessor $member_key $field ;",
        PRIMARY,
        FEATURE,
        0,
    ),
    ("static { $static }", PRIMARY, 0, 0),
];

/// Cases of a `switch`.
pub static CASE_ROWS: [Row; 2] = [
    ("case $inside : $items", PRIMARY, 0, 0),
    ("default : $items", PRIMARY, ONCE, 0),
];

/// Statements and declarations.
pub static STMT_ROWS: [Row; 59] = [
    ("break ;", PRIMARY, BREAKS, 0),
    ("continue ;", PRIMARY, CONTINUES, 0),
    ("throw $inside ;", PRIMARY, 0, 0),
    ("return $may_inside ;", PRIMARY, RETURNS, 0),
    ("return $may_inside ;", PRIMARY, RETURNS, 0),
    ("{ $items }", PRIMARY, 0, 0),
    ("$expr_stmt ;", PRIMARY, 0, 0),
    ("$expr_stmt ;", PRIMARY, 0, 0),
    ("$expr_stmt ;", PRIMARY, 0, 0),
    ("$expr_stmt ;", PRIMARY, 0, 0),
    ("while ( $inside ) $loop_body", PRIMARY, 0, 0),
    ("do $do_body while ( $inside ) ;", PRIMARY, 0, 0),
    ("with ( $inside ) $body", PRIMARY, SLOPPY, 0),
    ("if ( $inside ) $if_body", PRIMARY, OPEN_IF, 0),
    ("if ( $inside ) $if_body", PRIMARY, OPEN_IF, 0),
    ("if ( $inside ) $then else $body", PRIMARY, 0, 0),
    ("$label : $body", PRIMARY, 0, 0),
    ("$label : { $stmt break $jump ; }", PRIMARY, 0, 0),
    (
        "$label : while ( $inside ) { $jumps continue $jump ; }",
        PRIMARY,
        0,
        0,
    ),
    (
        "for ( ; $may_inside ; $may_inside ) $loop_body",
        PRIMARY,
        0,
        0,
    ),
    (
        "for ( $first_expr ; $may_inside ; $may_inside ) $loop_body",
        PRIMARY,
        0,
        0,
    ),
    (
        "for ( var $bound = $init ; $may_inside ; $may_inside ) $loop_body",
        PRIMARY,
        0,
        0,
    ),
    (
        "for ( let $bound = $init ; $may_inside ; $may_inside ) $loop_body",
        PRIMARY,
        0,
        0,
    ),
    (
        "for ( const $bound = $init ; $may_inside ; $may_inside ) $loop_body",
        PRIMARY,
        0,
        0,
    ),
    (
        "for ( using $label = $init ; $may_inside ; $may_inside ) $loop_body",
        PRIMARY,
        FEATURE,
        0,
    ),
    (
        "for ( await using $label = $init ; $may_inside ; $may_inside ) $loop_body",
        PRIMARY,
        FEATURE | AWAITS,
        0,
    ),
    (
        "for ( $plain_object $access in $inside ) $loop_body",
        PRIMARY,
        0,
        0,
    ),
    (
        "for ( $plain_object $access of $element ) $loop_body",
        PRIMARY,
        0,
        0,
    ),
    (
        "for await ( $plain_object $access of $element ) $loop_body",
        PRIMARY,
        AWAITS,
        0,
    ),
    ("for ( $to_head in $inside ) $loop_body", PRIMARY, 0, 0),
    ("for ( $to_head of $element ) $loop_body", PRIMARY, 0, 0),
    (
        "for await ( $to_head of $element ) $loop_body",
        PRIMARY,
        AWAITS,
        0,
    ),
    ("for ( var $bound in $inside ) $loop_body", PRIMARY, 0, 0),
    ("for ( var $bound of $element ) $loop_body", PRIMARY, 0, 0),
    ("for ( let $bound in $inside ) $loop_body", PRIMARY, 0, 0),
    ("for ( let $bound of $element ) $loop_body", PRIMARY, 0, 0),
    (
        "for await ( let $bound of $element ) $loop_body",
        PRIMARY,
        AWAITS,
        0,
    ),
    ("for ( const $bound in $inside ) $loop_body", PRIMARY, 0, 0),
    ("for ( const $bound of $element ) $loop_body", PRIMARY, 0, 0),
    (
        "for ( using $label of $element ) $loop_body",
        PRIMARY,
        FEATURE,
        0,
    ),
    (
        "for ( await using $label of $element ) $loop_body",
        PRIMARY,
        FEATURE | AWAITS,
        0,
    ),
    ("class $name { $members }", PRIMARY, ITEM, SUPER_CALL),
    (
        "class $name extends $heritage { $members }",
        PRIMARY,
        ITEM,
        0,
    ),
    (
        "function $name ( $params $rest ) { $code_body }",
        PRIMARY,
        ITEM,
        ALONE | PLAIN_BARS,
    ),
    (
        "function * $name ( $params $rest ) { $code_body }",
        PRIMARY,
        ITEM,
        ALONE | GENERATOR_BARS,
    ),
    (
        "async function $name ( $params $rest ) { $code_body }",
        PRIMARY,
        ITEM,
        ALONE | ASYNC_BARS,
    ),
    (
        "async function * $name ( $params $rest ) { $code_body }",
        PRIMARY,
        ITEM,
        ALONE | BOTH_BARS,
    ),
    (
        "function $name ( ) { 'use strict' ; $code_body }",
        PRIMARY,
        ITEM,
        ALONE | STRICT | PLAIN_BARS,
    ),
    ("var $bound = $value ;", PRIMARY, 0, 0),
    ("var $name , $bound = $value ;", PRIMARY, 0, 0),
    ("let $bound = $value , $name ;", PRIMARY, ITEM, 0),
    ("const $bound = $value ;", PRIMARY, ITEM, 0),
    (
        "using $label = $value ;",
        PRIMARY,
        ITEM | USING | FEATURE,
        0,
    ),
    (
        "await using $label = $value ;",
        PRIMARY,
        ITEM | USING | FEATURE | AWAITS,
        0,
    ),
    ("switch ( $inside ) { $cases }", PRIMARY, 0, 0),
    ("switch ( $inside ) { $cases }", PRIMARY, 0, 0),
    ("try { $items } catch $caught { $items }", PRIMARY, 0, 0),
    ("try { $items } finally { $items }", PRIMARY, 0, 0),
    (
        "try { $items } catch $caught { $items } finally { $items }",
        PRIMARY,
        0,
        0,
    ),
];

/// Parts of modules.
pub static ITEM_ROWS: [Row; 20] = [
    ("$top_stmt", PRIMARY, 0, 0),
    ("$top_stmt", PRIMARY, 0, 0),
    ("$top_stmt", PRIMARY, 0, 0),
    ("$top_stmt", PRIMARY, 0, 0),
    ("$top_stmt", PRIMARY, 0, 0),
    ("import $text ;", PRIMARY, 0, 0),
    (
        "import $name , { $word as $name , $text as $name } from 'x' with { type : 'json' } ;",
        PRIMARY,
        0,
        0,
    ),
    ("import * as $name from 'x' ;", PRIMARY, 0, 0),
    (
        "export { $word as $text , $text as $word } from 'x' ;",
        PRIMARY,
        0,
        0,
    ),
    ("export * as $word from $text ;", PRIMARY, 0, 0),
    ("export * from '' with { type : 'json' } ;", PRIMARY, 0, 0),
    ("export { } ;", PRIMARY, 0, 0),
    ("export var $top_bound = $top_value ;", PRIMARY, 0, 0),
    ("export let $top_bound = $top_value ;", PRIMARY, 0, 0),
    (
        "export class $name extends $heritage { $members }",
        PRIMARY,
        0,
        TOP_BARS,
    ),
    (
        "export async function $name ( $params $rest ) { $code_body }",
        PRIMARY,
        0,
        ALONE | ASYNC_BARS,
    ),
    (
        "export default function $may_name ( $params $rest ) { $code_body }",
        PRIMARY,
        0,
        ALONE | PLAIN_BARS,
    ),
    (
        "export default async function * $may_name ( $params $rest ) { $code_body }",
        PRIMARY,
        0,
        ALONE | BOTH_BARS,
    ),
    (
        "export default class $may_name extends $heritage { $members }",
        PRIMARY,
        0,
        TOP_BARS,
    ),
    ("export default $top_expr ;", PRIMARY, 0, 0),
];
