// Each refusal that a script can meet, and which of two comes first.
use crate::Case;

pub const ALL: &[&[Case]] = &[RANGES, WORDS, NAMED, READINGS, ORDERS, UNLESS];

// The calls that a line or a place is out of range for, or filled already.
const RANGES: &[Case] = &[
    Case("write above line 63", b"+ 64 tea\n", b"no 1\n"),
    Case("strike above line 63", b"- 64\n", b"no 1\n"),
    Case(
        "rule above place 39",
        b"+ 0 tea\n: 40 . . 0\n",
        b"number 1\nno 1\n",
    ),
    Case(
        "rule that gives a line above 63",
        b": 0 . . 64\n",
        b"no 1\n",
    ),
    Case("unrule above place 39", b"/ 40\n", b"no 1\n"),
    Case("step that gives a line above 63", b"> . 64\n", b"no 1\n"),
    Case(
        "write on a filled line",
        b"+ 0 tea\n+ 0 pie\n",
        b"number 1\nno 2\n",
    ),
    Case(
        "rule on a filled place",
        b"+ 0 tea\n: 0 . . 0\n: 0 . . 0\n",
        b"number 1\nok\nno 2\n",
    ),
    Case(
        "the last line and the last place",
        b"+ 63 tea\n: 39 . . 63\n? 0\n/ 39\n- 63\n",
        b"number 1\nok\nmenus 1 next 1 of 1\ntea\nok\nok\n",
    ),
];

// Words: 1 to 24 bytes from 33 to 126.
const WORDS: &[Case] = &[
    Case("25 bytes", b"+ 0 abcdefghijklmnopqrstuvwxy\n", b"no 3\n"),
    Case("24 bytes", b"+ 0 abcdefghijklmnopqrstuvwx\n", b"number 1\n"),
    Case("one byte", b"+ 0 a\n", b"number 1\n"),
    Case("byte 31", b"+ 0 tea\x1f\n", b"no 3\n"),
    Case("byte 127", b"+ 0 tea\x7f\n", b"no 3\n"),
    Case("byte C3", b"+ 0 caf\xC3\xA9\n", b"no 3\n"),
    Case("bytes 33 and 126", b"+ 0 !~\n", b"number 1\n"),
    Case(
        "words that look like a line",
        b"+ 0 >.,:/?+-0\n",
        b"number 1\n",
    ),
];

// Empty lines and places, and lines that a rule or a step names.
const NAMED: &[Case] = &[
    Case("strike of an empty line", b"- 0\n- 63\n", b"no 5\nno 5\n"),
    Case("unrule of an empty place", b"/ 0\n/ 39\n", b"no 5\nno 5\n"),
    Case(
        "rule that needs an empty line",
        b"+ 0 tea\n: 0 1 . 0\n",
        b"number 1\nno 5\n",
    ),
    Case(
        "rule unless an empty line",
        b"+ 0 tea\n: 0 . 1 0\n",
        b"number 1\nno 5\n",
    ),
    Case(
        "rule that gives an empty line",
        b"+ 0 tea\n: 0 . . 1\n",
        b"number 1\nno 5\n",
    ),
    Case(
        "rule that names an empty line behind a written one",
        b"+ 0 tea\n: 0 0,63 . 0\n",
        b"number 1\nno 5\n",
    ),
    Case(
        "strike of a line that a rule needs",
        b"+ 0 tea\n+ 1 pie\n: 0 1 . 0\n- 1\n",
        b"number 1\nnumber 2\nok\nno 7\n",
    ),
    Case(
        "strike of a line that a rule is unless",
        b"+ 0 tea\n+ 1 pie\n: 0 . 1 0\n- 1\n",
        b"number 1\nnumber 2\nok\nno 7\n",
    ),
    Case(
        "strike of a line that a rule gives",
        b"+ 0 tea\n+ 1 pie\n: 0 1 . 0\n- 0\n",
        b"number 1\nnumber 2\nok\nno 7\n",
    ),
    Case(
        "strike of a line that a step needs",
        b"> 0 1\n+ 0 tea\n+ 1 pie\n- 0\n",
        b"ok\nnumber 1\nnumber 2\nno 7\n",
    ),
    Case(
        "strike of a line that a step gives",
        b"> 0 1\n+ 0 tea\n+ 1 pie\n- 1\n",
        b"ok\nnumber 1\nnumber 2\nno 7\n",
    ),
    Case(
        "strike of a line that no rule names any more",
        b"+ 0 tea\n: 0 . . 0\n- 0\n/ 0\n- 0\n/ 0\n",
        b"number 1\nok\nno 7\nok\nok\nno 5\n",
    ),
    Case(
        "strike of a line between named ones",
        b"> 0 2\n+ 0 a\n+ 1 b\n+ 2 c\n: 0 0 2 2\n- 1\n",
        b"ok\nnumber 1\nnumber 2\nnumber 3\nok\nok\n",
    ),
];

// A reading that is refused.
const READINGS: &[Case] = &[
    Case("a step names empty lines", b"> 0 1\n? 0\n", b"ok\nno 9\n"),
    Case(
        "a step gives an empty line",
        b"> 0 1\n+ 0 tea\n? 0\n",
        b"ok\nnumber 1\nno 9\n",
    ),
    Case(
        "a step needs an empty line",
        b"> 0 1\n+ 1 tea\n? 0\n",
        b"ok\nnumber 1\nno 9\n",
    ),
    Case(
        "the lines that a step names are written",
        b"> 0 1\n+ 0 tea\n+ 1 pie\n? 0\n",
        b"ok\nnumber 1\nnumber 2\nmenus 1 next 1 of 1\n\n",
    ),
    Case("a guess above their number", b"? 2\n", b"no 10\n"),
    Case(
        "a guess at their number",
        b"? 1\n",
        b"menus 0 next 1 of 1\n",
    ),
    Case(
        "a guess above four",
        b"+ 0 tea\n+ 1 pie\n: 0 . 1 0\n: 1 . 0 1\n? 5\n? 4\n",
        b"number 1\nnumber 2\nok\nok\nno 10\nmenus 0 next 4 of 4\n",
    ),
];

// Of two grounds, the one with the lower number is answered.
const ORDERS: &[Case] = &[
    Case(
        "write, 1 before 3",
        b"+ 64 abcdefghijklmnopqrstuvwxy\n",
        b"no 1\n",
    ),
    Case(
        "write, 2 before 3",
        b"+ 0 tea\n+ 0 \x7f\n",
        b"number 1\nno 2\n",
    ),
    Case(
        "rule, 1 before 2",
        b"+ 0 tea\n: 0 . . 0\n: 0 . . 64\n",
        b"number 1\nok\nno 1\n",
    ),
    Case(
        "rule, 1 before 5",
        b": 40 . . 0\n: 0 1 . 64\n",
        b"no 1\nno 1\n",
    ),
    Case(
        "rule, 2 before 5",
        b"+ 0 tea\n: 0 . . 0\n: 0 1 2 3\n",
        b"number 1\nok\nno 2\n",
    ),
    Case(
        "strike, 5 before 7",
        b"> 0 1\n- 0\n- 1\n",
        b"ok\nno 5\nno 5\n",
    ),
    Case(
        "list, 9 before 10",
        b"> 0 1\n? 2\n? 99999\n",
        b"ok\nno 9\nno 9\n",
    ),
];

// At most 12 lines stand in unless-sets. In each script lines 0 to 13 have the words a to n.
const UNLESS: &[Case] = &[
    Case(
        "13 lines in one unless-set",
        b"+ 0 a\n+ 1 b\n+ 2 c\n+ 3 d\n+ 4 e\n+ 5 f\n+ 6 g\n\
          + 7 h\n+ 8 i\n+ 9 j\n+ 10 k\n+ 11 l\n+ 12 m\n+ 13 n\n\
          : 0 . 1,2,3,4,5,6,7,8,9,10,11,12,13 0\n",
        b"number 1\nnumber 2\nnumber 3\nnumber 4\nnumber 5\nnumber 6\nnumber 7\n\
          number 8\nnumber 9\nnumber 10\nnumber 11\nnumber 12\nnumber 13\nnumber 14\n\
          no 8\n",
    ),
    Case(
        "12 lines in one unless-set, and then one more",
        b"+ 0 a\n+ 1 b\n+ 2 c\n+ 3 d\n+ 4 e\n+ 5 f\n+ 6 g\n\
          + 7 h\n+ 8 i\n+ 9 j\n+ 10 k\n+ 11 l\n+ 12 m\n+ 13 n\n\
          : 0 . 1,2,3,4,5,6,7,8,9,10,11,12 0\n\
          : 1 . 13 0\n\
          : 1 . 1,2 0\n\
          ? 0\n",
        b"number 1\nnumber 2\nnumber 3\nnumber 4\nnumber 5\nnumber 6\nnumber 7\n\
          number 8\nnumber 9\nnumber 10\nnumber 11\nnumber 12\nnumber 13\nnumber 14\n\
          ok\n\
          no 8\n\
          ok\n\
          menus 1 next 4096 of 4096\na\n",
    ),
    Case(
        "rule, 1, 2 and 5 before 8, and room again after an unrule",
        b"+ 0 a\n+ 1 b\n+ 2 c\n+ 3 d\n+ 4 e\n+ 5 f\n+ 6 g\n\
          + 7 h\n+ 8 i\n+ 9 j\n+ 10 k\n+ 11 l\n+ 12 m\n+ 13 n\n\
          : 0 . 1,2,3,4,5,6,7,8,9,10,11,12 0\n\
          : 40 . 13 0\n\
          : 0 . 13 0\n\
          : 1 . 13,14 0\n\
          : 1 . 13 0\n\
          / 0\n\
          : 1 . 13 0\n\
          ? 0\n",
        b"number 1\nnumber 2\nnumber 3\nnumber 4\nnumber 5\nnumber 6\nnumber 7\n\
          number 8\nnumber 9\nnumber 10\nnumber 11\nnumber 12\nnumber 13\nnumber 14\n\
          ok\n\
          no 1\n\
          no 2\n\
          no 5\n\
          no 8\n\
          ok\n\
          ok\n\
          menus 1 next 2 of 2\na\n",
    ),
];
