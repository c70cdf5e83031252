// The numbers of the grammar's rules. Those that end in `_C` are read where a `:` may follow, as in the length of an array with a
// sentinel: there `name :` begins a label only before a block or a loop.

pub(crate) const ANY_NAME: u8 = 0;

pub(crate) const A_NAME: u8 = 1;

pub(crate) const BINDING: u8 = 2;

pub(crate) const ANY_COLON: u8 = 3;

pub(crate) const NAMES: u8 = 4;

pub(crate) const MORE_NAMES: u8 = 5;

pub(crate) const CONST_WORD: u8 = 6;

pub(crate) const CAPTURE: u8 = 7;

pub(crate) const BARRED: u8 = 8;

pub(crate) const PLAIN_CAPTURE: u8 = 9;

pub(crate) const TYPE: u8 = 10;

pub(crate) const TYPE_BODY: u8 = 11;

pub(crate) const BRACKET: u8 = 12;

pub(crate) const BRACKET_STAR: u8 = 13;

pub(crate) const SENTINEL: u8 = 14;

pub(crate) const ERROR_UNION: u8 = 15;

pub(crate) const SUFFIXES: u8 = 16;

pub(crate) const INDEX_END: u8 = 17;

pub(crate) const SLICE_END: u8 = 18;

pub(crate) const ARGUMENTS: u8 = 19;

pub(crate) const MORE_ARGUMENTS: u8 = 20;

pub(crate) const ATOM: u8 = 21;

pub(crate) const MORE_LINES: u8 = 22;

pub(crate) const IMPORT_PATH: u8 = 23;

pub(crate) const LAST_COMMA: u8 = 24;

pub(crate) const ERROR_FORM: u8 = 25;

pub(crate) const ENUM_TAG: u8 = 26;

pub(crate) const UNION_TAG: u8 = 27;

pub(crate) const UNION_TAG_TYPE: u8 = 28;

pub(crate) const BEHIND_DOT: u8 = 29;

pub(crate) const ANONYMOUS: u8 = 30;

pub(crate) const ANONYMOUS_FIRST: u8 = 31;

pub(crate) const ANONYMOUS_DOT: u8 = 32;

pub(crate) const ANONYMOUS_NAME: u8 = 33;

pub(crate) const INIT: u8 = 34;

pub(crate) const BRACED: u8 = 35;

pub(crate) const INIT_FIRST: u8 = 36;

pub(crate) const INIT_DOT: u8 = 37;

pub(crate) const INIT_NAME: u8 = 38;

pub(crate) const MORE_VALUES: u8 = 39;

pub(crate) const VALUES: u8 = 40;

pub(crate) const MORE_FIELDS: u8 = 41;

pub(crate) const FIELDS: u8 = 42;

pub(crate) const EXPR: u8 = 43;

pub(crate) const DISJUNCTION: u8 = 44;

pub(crate) const CONJUNCTION: u8 = 45;

pub(crate) const COMPARE: u8 = 46;

pub(crate) const EXPR_C: u8 = 47;

pub(crate) const DISJUNCTION_C: u8 = 48;

pub(crate) const CONJUNCTION_C: u8 = 49;

pub(crate) const COMPARE_C: u8 = 50;

pub(crate) const BITS: u8 = 51;

pub(crate) const SHIFT: u8 = 52;

pub(crate) const SUM: u8 = 53;

pub(crate) const BITS_C: u8 = 54;

pub(crate) const SHIFT_C: u8 = 55;

pub(crate) const SUM_C: u8 = 56;

pub(crate) const PRODUCT: u8 = 57;

pub(crate) const PREFIX: u8 = 58;

pub(crate) const PRODUCT_C: u8 = 59;

pub(crate) const PREFIX_C: u8 = 60;

pub(crate) const PRIMARY: u8 = 61;

pub(crate) const FRONT_BRACKET: u8 = 62;

pub(crate) const PRIMARY_NAME: u8 = 63;

pub(crate) const PRIMARY_NAME_C: u8 = 64;

pub(crate) const PRIMARY_C: u8 = 65;

pub(crate) const LABELLED: u8 = 66;

pub(crate) const LABELLED_LOOP: u8 = 67;

pub(crate) const LABELLED_INLINE_LOOP: u8 = 68;

pub(crate) const INLINE_LOOP: u8 = 69;

pub(crate) const ELSE_EXPR: u8 = 70;

pub(crate) const BREAK_LABEL: u8 = 71;

pub(crate) const BREAK_LABEL_C: u8 = 72;

pub(crate) const OPERAND: u8 = 73;

pub(crate) const LABELLED_C: u8 = 74;

pub(crate) const LABELLED_LOOP_C: u8 = 75;

pub(crate) const LABELLED_INLINE_LOOP_C: u8 = 76;

pub(crate) const INLINE_LOOP_C: u8 = 77;

pub(crate) const ELSE_EXPR_C: u8 = 78;

pub(crate) const OPERAND_C: u8 = 79;

pub(crate) const BLOCK: u8 = 80;

pub(crate) const LABELLED_BLOCK: u8 = 81;

pub(crate) const STATEMENTS: u8 = 82;

pub(crate) const STATEMENT: u8 = 83;

pub(crate) const STATEMENT_NAME: u8 = 84;

pub(crate) const NAME_ASSIGN: u8 = 85;

pub(crate) const LABELLED_STATEMENT: u8 = 86;

pub(crate) const LABELLED_INLINE_STATEMENT: u8 = 87;

pub(crate) const INLINE_LOOP_STATEMENT: u8 = 88;

pub(crate) const COMPTIME_STATEMENT: u8 = 89;

pub(crate) const BODIED: u8 = 90;

pub(crate) const BODIED_NAME: u8 = 91;

pub(crate) const BODIED_LABEL: u8 = 92;

pub(crate) const LOOP_ASSIGN: u8 = 93;

pub(crate) const BODY: u8 = 94;

pub(crate) const BODY_NAME: u8 = 95;

pub(crate) const BODY_LABEL: u8 = 96;

pub(crate) const BODY_END: u8 = 97;

pub(crate) const ELSE_STATEMENT: u8 = 98;

pub(crate) const ELSE_PART: u8 = 99;

pub(crate) const ASSIGN: u8 = 100;

pub(crate) const ASSIGN_REST: u8 = 101;

pub(crate) const IF_HEAD: u8 = 102;

pub(crate) const WHILE_HEAD: u8 = 103;

pub(crate) const CONTINUE_EXPR: u8 = 104;

pub(crate) const FOR_HEAD: u8 = 105;

pub(crate) const FOR_OPERANDS: u8 = 106;

pub(crate) const MORE_FOR_OPERANDS: u8 = 107;

pub(crate) const FOR_RANGE: u8 = 108;

pub(crate) const FOR_END: u8 = 109;

pub(crate) const FOR_CAPTURES: u8 = 110;

pub(crate) const MORE_FOR_CAPTURES: u8 = 111;

pub(crate) const FOR_CAPTURE: u8 = 112;

pub(crate) const SWITCH_FORM: u8 = 113;

pub(crate) const PRONGS: u8 = 114;

pub(crate) const MORE_PRONGS: u8 = 115;

pub(crate) const PRONG: u8 = 116;

pub(crate) const CASE: u8 = 117;

pub(crate) const CASE_END: u8 = 118;

pub(crate) const MORE_CASES: u8 = 119;

pub(crate) const NEXT_CASE: u8 = 120;

pub(crate) const STRUCT_MEMBERS: u8 = 121;

pub(crate) const MORE_STRUCT_MEMBERS: u8 = 122;

pub(crate) const ENUM_MEMBERS: u8 = 123;

pub(crate) const MORE_ENUM_MEMBERS: u8 = 124;

pub(crate) const UNION_MEMBERS: u8 = 125;

pub(crate) const MORE_UNION_MEMBERS: u8 = 126;

pub(crate) const FIELD_VALUE: u8 = 127;

pub(crate) const DECLARATION: u8 = 128;

pub(crate) const ANY_DECLARATION: u8 = 129;

pub(crate) const PUBLIC: u8 = 130;

pub(crate) const VARIABLE: u8 = 131;

pub(crate) const VARIABLE_TYPE: u8 = 132;

pub(crate) const TEST_NAME: u8 = 133;

pub(crate) const EXPORTED: u8 = 134;

pub(crate) const NOINLINED: u8 = 135;

pub(crate) const OUTSIDE: u8 = 136;

pub(crate) const FUNCTION: u8 = 137;

pub(crate) const SIGNATURE: u8 = 138;

pub(crate) const RESULT_TYPE: u8 = 139;

pub(crate) const PARAMETERS: u8 = 140;

pub(crate) const MORE_PARAMETERS: u8 = 141;

pub(crate) const PARAMETER: u8 = 142;

pub(crate) const PARAMETER_REST: u8 = 143;

pub(crate) const PARAMETER_NAME: u8 = 144;

pub(crate) const PARAMETER_TYPE: u8 = 145;

pub(crate) const LABEL_COLON: u8 = 146;

pub(crate) const BREAK_COLON: u8 = 147;
