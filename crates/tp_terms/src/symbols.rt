//! The atoms whose names stand in every table from its start on, each by its place. A name that has
//! several uses stands in the first group that uses it.

ghost use Rattle.std.specs.Prelude.{[], ◌∷◌};
ghost use Rattle.tp_terms.specs.StartNames.{AreAtStart};

use crate::cells::AtomId;

/// The names at the start, in the order of their places.
pub(crate) const START_NAMES: [&str; 103] = [
    ".",
    "[]",
    "{}",
    "true",
    "fail",
    ",",
    "!",
    ";",
    "->",
    "\\+",
    "call",
    "once",
    "repeat",
    "between",
    "new",
    "hold",
    "send",
    "wait_for",
    "wait",
    "now",
    "self",
    "note",
    "var",
    "nonvar",
    "atom",
    "integer",
    "atomic",
    "compound",
    "callable",
    "=",
    "\\=",
    "==",
    "\\==",
    "@<",
    "@=<",
    "@>",
    "@>=",
    "is",
    "=:=",
    "=\\=",
    "<",
    "=<",
    ">",
    ">=",
    "functor",
    "arg",
    "=..",
    "copy_term",
    "atom_length",
    "atom_codes",
    "+",
    "-",
    "*",
    "//",
    "div",
    "mod",
    "rem",
    "/\\",
    "\\/",
    "\\",
    "<<",
    ">>",
    "abs",
    "sign",
    "min",
    "max",
    ":-",
    "-->",
    "?-",
    "/",
    "**",
    "^",
    "op",
    "xfx",
    "xfy",
    "yfx",
    "fy",
    "fx",
    "error",
    "instantiation_error",
    "type_error",
    "domain_error",
    "existence_error",
    "permission_error",
    "representation_error",
    "evaluation_error",
    "evaluable",
    "list",
    "procedure",
    "process",
    "create",
    "start_time",
    "end_time",
    "process_name",
    "not_less_than_zero",
    "non_empty_list",
    "max_arity",
    "character_code",
    "int_overflow",
    "zero_divisor",
    "undefined",
    "main",
    "inf",
];

// Lists and braces (ISO/IEC 13211-1, clauses 6.3.5 and 6.3.6).

/// The name `.` of a list cell.
pub const LIST_CELL: AtomId = AtomId { at: 0 };

/// The empty list `[]`.
pub const EMPTY_LIST: AtomId = AtomId { at: 1 };

/// The name `{}` of a term in braces, and the empty braces.
pub const BRACES: AtomId = AtomId { at: 2 };

// Control goals (ISO/IEC 13211-1, clauses 7.8 and 8.15; `between` is of this project alone).

/// The control goal `true`.
pub const TRUE: AtomId = AtomId { at: 3 };

/// The control goal `fail`.
pub const FAIL: AtomId = AtomId { at: 4 };

/// The control goal `,`.
pub const CONJUNCTION: AtomId = AtomId { at: 5 };

/// The control goal `!`.
pub const CUT: AtomId = AtomId { at: 6 };

/// The control goal `;`.
pub const DISJUNCTION: AtomId = AtomId { at: 7 };

/// The control goal `->`.
pub const IF_THEN: AtomId = AtomId { at: 8 };

/// The control goal `\+`.
pub const NOT_PROVABLE: AtomId = AtomId { at: 9 };

/// The control goal `call`.
pub const CALL: AtomId = AtomId { at: 10 };

/// The control goal `once`.
pub const ONCE: AtomId = AtomId { at: 11 };

/// The control goal `repeat`.
pub const REPEAT: AtomId = AtomId { at: 12 };

/// The control goal `between`.
pub const BETWEEN: AtomId = AtomId { at: 13 };

// Process goals, which are of this project alone.

/// The process goal `new`.
pub const NEW: AtomId = AtomId { at: 14 };

/// The process goal `hold`.
pub const HOLD: AtomId = AtomId { at: 15 };

/// The process goal `send`.
pub const SEND: AtomId = AtomId { at: 16 };

/// The process goal `wait_for`.
pub const WAIT_FOR: AtomId = AtomId { at: 17 };

/// The process goal `wait`.
pub const WAIT: AtomId = AtomId { at: 18 };

/// The process goal `now`.
pub const NOW: AtomId = AtomId { at: 19 };

/// The process goal `self`.
pub const SELF: AtomId = AtomId { at: 20 };

/// The process goal `note`.
pub const NOTE: AtomId = AtomId { at: 21 };

// Built-ins (ISO/IEC 13211-1, clauses 8.2 to 8.7 and 8.16).

/// The built-in `var`.
pub const VAR: AtomId = AtomId { at: 22 };

/// The built-in `nonvar`.
pub const NONVAR: AtomId = AtomId { at: 23 };

/// The built-in `atom`.
pub const ATOM: AtomId = AtomId { at: 24 };

/// The built-in `integer`.
pub const INTEGER: AtomId = AtomId { at: 25 };

/// The built-in `atomic`.
pub const ATOMIC: AtomId = AtomId { at: 26 };

/// The built-in `compound`.
pub const COMPOUND: AtomId = AtomId { at: 27 };

/// The built-in `callable`.
pub const CALLABLE: AtomId = AtomId { at: 28 };

/// The built-in `=`.
pub const UNIFY: AtomId = AtomId { at: 29 };

/// The built-in `\=`.
pub const NOT_UNIFIABLE: AtomId = AtomId { at: 30 };

/// The built-in `==`.
pub const SAME: AtomId = AtomId { at: 31 };

/// The built-in `\==`.
pub const NOT_SAME: AtomId = AtomId { at: 32 };

/// The built-in `@<`.
pub const BEFORE: AtomId = AtomId { at: 33 };

/// The built-in `@=<`.
pub const BEFORE_OR_SAME: AtomId = AtomId { at: 34 };

/// The built-in `@>`.
pub const AFTER: AtomId = AtomId { at: 35 };

/// The built-in `@>=`.
pub const AFTER_OR_SAME: AtomId = AtomId { at: 36 };

/// The built-in `is`.
pub const IS: AtomId = AtomId { at: 37 };

/// The built-in `=:=`.
pub const NUMBER_EQUAL: AtomId = AtomId { at: 38 };

/// The built-in `=\=`.
pub const NUMBER_UNEQUAL: AtomId = AtomId { at: 39 };

/// The built-in `<`.
pub const LESS: AtomId = AtomId { at: 40 };

/// The built-in `=<`.
pub const LESS_EQUAL: AtomId = AtomId { at: 41 };

/// The built-in `>`.
pub const GREATER: AtomId = AtomId { at: 42 };

/// The built-in `>=`.
pub const GREATER_EQUAL: AtomId = AtomId { at: 43 };

/// The built-in `functor`.
pub const FUNCTOR: AtomId = AtomId { at: 44 };

/// The built-in `arg`.
pub const ARG: AtomId = AtomId { at: 45 };

/// The built-in `=..`.
pub const UNIV: AtomId = AtomId { at: 46 };

/// The built-in `copy_term`.
pub const COPY_TERM: AtomId = AtomId { at: 47 };

/// The built-in `atom_length`.
pub const ATOM_LENGTH: AtomId = AtomId { at: 48 };

/// The built-in `atom_codes`.
pub const ATOM_CODES: AtomId = AtomId { at: 49 };

// Evaluable functors (ISO/IEC 13211-1, clause 9).

/// The evaluable functor `+`.
pub const PLUS: AtomId = AtomId { at: 50 };

/// The evaluable functor `-`.
pub const MINUS: AtomId = AtomId { at: 51 };

/// The evaluable functor `*`.
pub const TIMES: AtomId = AtomId { at: 52 };

/// The evaluable functor `//`.
pub const QUOTIENT: AtomId = AtomId { at: 53 };

/// The evaluable functor `div`.
pub const DIV: AtomId = AtomId { at: 54 };

/// The evaluable functor `mod`.
pub const MOD: AtomId = AtomId { at: 55 };

/// The evaluable functor `rem`.
pub const REM: AtomId = AtomId { at: 56 };

/// The evaluable functor `/\`.
pub const BIT_AND: AtomId = AtomId { at: 57 };

/// The evaluable functor `\/`.
pub const BIT_OR: AtomId = AtomId { at: 58 };

/// The evaluable functor `\`.
pub const BIT_NOT: AtomId = AtomId { at: 59 };

/// The evaluable functor `<<`.
pub const SHIFT_LEFT: AtomId = AtomId { at: 60 };

/// The evaluable functor `>>`.
pub const SHIFT_RIGHT: AtomId = AtomId { at: 61 };

/// The evaluable functor `abs`.
pub const ABS: AtomId = AtomId { at: 62 };

/// The evaluable functor `sign`.
pub const SIGN: AtomId = AtomId { at: 63 };

/// The evaluable functor `min`.
pub const MIN: AtomId = AtomId { at: 64 };

/// The evaluable functor `max`.
pub const MAX: AtomId = AtomId { at: 65 };

// Operators that are nothing else (ISO/IEC 13211-1, clause 6.3.4.4).

/// The operator `:-`.
pub const NECK: AtomId = AtomId { at: 66 };

/// The operator `-->`.
pub const GRAMMAR: AtomId = AtomId { at: 67 };

/// The operator `?-`.
pub const QUERY: AtomId = AtomId { at: 68 };

/// The operator `/`.
pub const SLASH: AtomId = AtomId { at: 69 };

/// The operator `**`.
pub const POWER: AtomId = AtomId { at: 70 };

/// The operator `^`.
pub const CARET: AtomId = AtomId { at: 71 };

// The directive for operators, and their types (ISO/IEC 13211-1, clauses 7.4.2.4 and 6.3.4).

/// The directive `op`.
pub const OP: AtomId = AtomId { at: 72 };

/// The operator type `xfx`.
pub const XFX: AtomId = AtomId { at: 73 };

/// The operator type `xfy`.
pub const XFY: AtomId = AtomId { at: 74 };

/// The operator type `yfx`.
pub const YFX: AtomId = AtomId { at: 75 };

/// The operator type `fy`.
pub const FY: AtomId = AtomId { at: 76 };

/// The operator type `fx`.
pub const FX: AtomId = AtomId { at: 77 };

// Words of error terms (ISO/IEC 13211-1, clause 7.12.2; those on processes are of this project
// alone).

/// The word `error` of error terms.
pub const ERROR: AtomId = AtomId { at: 78 };

/// The word `instantiation_error` of error terms.
pub const INSTANTIATION_ERROR: AtomId = AtomId { at: 79 };

/// The word `type_error` of error terms.
pub const TYPE_ERROR: AtomId = AtomId { at: 80 };

/// The word `domain_error` of error terms.
pub const DOMAIN_ERROR: AtomId = AtomId { at: 81 };

/// The word `existence_error` of error terms.
pub const EXISTENCE_ERROR: AtomId = AtomId { at: 82 };

/// The word `permission_error` of error terms.
pub const PERMISSION_ERROR: AtomId = AtomId { at: 83 };

/// The word `representation_error` of error terms.
pub const REPRESENTATION_ERROR: AtomId = AtomId { at: 84 };

/// The word `evaluation_error` of error terms.
pub const EVALUATION_ERROR: AtomId = AtomId { at: 85 };

/// The word `evaluable` of error terms.
pub const EVALUABLE: AtomId = AtomId { at: 86 };

/// The word `list` of error terms.
pub const LIST: AtomId = AtomId { at: 87 };

/// The word `procedure` of error terms.
pub const PROCEDURE: AtomId = AtomId { at: 88 };

/// The word `process` of error terms.
pub const PROCESS: AtomId = AtomId { at: 89 };

/// The word `create` of error terms.
pub const CREATE: AtomId = AtomId { at: 90 };

/// The word `start_time` of error terms.
pub const START_TIME: AtomId = AtomId { at: 91 };

/// The word `end_time` of error terms.
pub const END_TIME: AtomId = AtomId { at: 92 };

/// The word `process_name` of error terms.
pub const PROCESS_NAME: AtomId = AtomId { at: 93 };

/// The word `not_less_than_zero` of error terms.
pub const NOT_LESS_THAN_ZERO: AtomId = AtomId { at: 94 };

/// The word `non_empty_list` of error terms.
pub const NON_EMPTY_LIST: AtomId = AtomId { at: 95 };

/// The word `max_arity` of error terms.
pub const MAX_ARITY: AtomId = AtomId { at: 96 };

/// The word `character_code` of error terms.
pub const CHARACTER_CODE: AtomId = AtomId { at: 97 };

/// The word `int_overflow` of error terms.
pub const INT_OVERFLOW: AtomId = AtomId { at: 98 };

/// The word `zero_divisor` of error terms.
pub const ZERO_DIVISOR: AtomId = AtomId { at: 99 };

/// The word `undefined` of error terms.
pub const UNDEFINED: AtomId = AtomId { at: 100 };

// The first process, and an end time that never comes.

/// The name `main` of the first process.
pub const MAIN: AtomId = AtomId { at: 101 };

/// The end time `inf`, which never comes.
pub const INF: AtomId = AtomId { at: 102 };

/// The law of this module: from the start on, each of its constants is the place of its name.
#[tactic(auto, unfolding(crate::specs::StartNames::start_names))]
pub fn names_at_start()
    ensures list { AreAtStart (
        (LIST_CELL, ".") ∷ (EMPTY_LIST, "[]") ∷ (BRACES, "{}") ∷ []) }
    ensures control { AreAtStart (
        (TRUE, "true") ∷ (FAIL, "fail") ∷ (CONJUNCTION, ",") ∷ (CUT, "!") ∷ (DISJUNCTION, ";") ∷
        (IF_THEN, "->") ∷ (NOT_PROVABLE, "\\+") ∷ (CALL, "call") ∷ (ONCE, "once") ∷
        (REPEAT, "repeat") ∷ (BETWEEN, "between") ∷ []) }
    ensures process { AreAtStart (
        (NEW, "new") ∷ (HOLD, "hold") ∷ (SEND, "send") ∷ (WAIT_FOR, "wait_for") ∷
        (WAIT, "wait") ∷ (NOW, "now") ∷ (SELF, "self") ∷ (NOTE, "note") ∷ []) }
    ensures built_in { AreAtStart (
        (VAR, "var") ∷ (NONVAR, "nonvar") ∷ (ATOM, "atom") ∷ (INTEGER, "integer") ∷
        (ATOMIC, "atomic") ∷ (COMPOUND, "compound") ∷ (CALLABLE, "callable") ∷ (UNIFY, "=") ∷
        (NOT_UNIFIABLE, "\\=") ∷ (SAME, "==") ∷ (NOT_SAME, "\\==") ∷ (BEFORE, "@<") ∷
        (BEFORE_OR_SAME, "@=<") ∷ (AFTER, "@>") ∷ (AFTER_OR_SAME, "@>=") ∷ (IS, "is") ∷
        (NUMBER_EQUAL, "=:=") ∷ (NUMBER_UNEQUAL, "=\\=") ∷ (LESS, "<") ∷ (LESS_EQUAL, "=<") ∷
        (GREATER, ">") ∷ (GREATER_EQUAL, ">=") ∷ (FUNCTOR, "functor") ∷ (ARG, "arg") ∷
        (UNIV, "=..") ∷ (COPY_TERM, "copy_term") ∷ (ATOM_LENGTH, "atom_length") ∷
        (ATOM_CODES, "atom_codes") ∷ []) }
    ensures evaluable { AreAtStart (
        (PLUS, "+") ∷ (MINUS, "-") ∷ (TIMES, "*") ∷ (QUOTIENT, "//") ∷ (DIV, "div") ∷
        (MOD, "mod") ∷ (REM, "rem") ∷ (BIT_AND, "/\\") ∷ (BIT_OR, "\\/") ∷ (BIT_NOT, "\\") ∷
        (SHIFT_LEFT, "<<") ∷ (SHIFT_RIGHT, ">>") ∷ (ABS, "abs") ∷ (SIGN, "sign") ∷ (MIN, "min") ∷
        (MAX, "max") ∷ []) }
    ensures operator { AreAtStart (
        (NECK, ":-") ∷ (GRAMMAR, "-->") ∷ (QUERY, "?-") ∷ (SLASH, "/") ∷ (POWER, "**") ∷
        (CARET, "^") ∷ []) }
    ensures directive { AreAtStart (
        (OP, "op") ∷ (XFX, "xfx") ∷ (XFY, "xfy") ∷ (YFX, "yfx") ∷ (FY, "fy") ∷ (FX, "fx") ∷ []) }
    ensures error { AreAtStart (
        (ERROR, "error") ∷ (INSTANTIATION_ERROR, "instantiation_error") ∷
        (TYPE_ERROR, "type_error") ∷ (DOMAIN_ERROR, "domain_error") ∷
        (EXISTENCE_ERROR, "existence_error") ∷ (PERMISSION_ERROR, "permission_error") ∷
        (REPRESENTATION_ERROR, "representation_error") ∷ (EVALUATION_ERROR, "evaluation_error") ∷
        (EVALUABLE, "evaluable") ∷ (LIST, "list") ∷ (PROCEDURE, "procedure") ∷
        (PROCESS, "process") ∷ (CREATE, "create") ∷ (START_TIME, "start_time") ∷
        (END_TIME, "end_time") ∷ (PROCESS_NAME, "process_name") ∷
        (NOT_LESS_THAN_ZERO, "not_less_than_zero") ∷ (NON_EMPTY_LIST, "non_empty_list") ∷
        (MAX_ARITY, "max_arity") ∷ (CHARACTER_CODE, "character_code") ∷
        (INT_OVERFLOW, "int_overflow") ∷ (ZERO_DIVISOR, "zero_divisor") ∷
        (UNDEFINED, "undefined") ∷ []) }
    ensures world { AreAtStart (
        (MAIN, "main") ∷ (INF, "inf") ∷ []) }
{}
