// Lines that are damaged, and lines of the right shape that look so.
use crate::Case;

pub const ALL: &[&[Case]] = &[FIELDS, NUMBERS, SETS, BYTES];

// Spaces, first characters and fields.
const FIELDS: &[Case] = &[
    Case("an empty line", b"\n", b"bad 0\n"),
    Case("an empty line before another", b"\n- 0\n", b"bad 0\nno 5\n"),
    Case("only a space", b" \n", b"bad 0\n"),
    Case("a leading space", b" + 0 tea\n", b"bad 0\n"),
    Case(
        "two spaces after the first character",
        b"+  0 tea\n",
        b"bad 0\n",
    ),
    Case("two spaces between fields", b"+ 0  tea\n", b"bad 0\n"),
    Case("a space after words", b"+ 0 tea \n", b"bad 0\n"),
    Case("a space after a number", b"- 0 \n", b"bad 0\n"),
    Case("no space", b"+0 tea\n", b"bad 0\n"),
    Case("two first characters", b"?? 0\n", b"bad 0\n"),
    Case("an unknown first character", b"! 0\n", b"bad 0\n"),
    Case("a letter first", b"a 0\n", b"bad 0\n"),
    Case("a number alone", b"0\n", b"bad 0\n"),
    Case("a first character alone", b"+\n", b"bad 0\n"),
    Case("a write with an empty field", b"+ \n", b"bad 0\n"),
    Case("a write with no words", b"+ 0\n", b"bad 0\n"),
    Case("a write with empty words", b"+ 0 \n", b"bad 0\n"),
    Case("a write with two words", b"+ 0 tea cake\n", b"bad 0\n"),
    Case("a write with no line", b"+ tea\n", b"bad 0\n"),
    Case("a strike with no line", b"-\n- \n", b"bad 0\nbad 2\n"),
    Case("a strike with two lines", b"- 0 0\n", b"bad 0\n"),
    Case("a step with no line", b"> .\n> . \n", b"bad 0\nbad 4\n"),
    Case("a step with a field too many", b"> . 0 0\n", b"bad 0\n"),
    Case(
        "a rule with a field too few",
        b": 0 . .\n: 0 . . \n",
        b"bad 0\nbad 8\n",
    ),
    Case("a rule with a field too many", b": 0 . . 0 0\n", b"bad 0\n"),
    Case("an unrule with no place", b"/\n/ \n", b"bad 0\nbad 2\n"),
    Case("an unrule with two places", b"/ 0 0\n", b"bad 0\n"),
    Case("a list with no guess", b"?\n? \n", b"bad 0\nbad 2\n"),
    Case("a list with two guesses", b"? 0 0\n", b"bad 0\n"),
];

// Numbers.
const NUMBERS: &[Case] = &[
    Case("a needless zero", b"- 00\n- 01\n", b"bad 0\nbad 5\n"),
    Case(
        "a needless zero before five digits",
        b"? 012345\n",
        b"bad 0\n",
    ),
    Case("six digits", b"- 100000\n", b"bad 0\n"),
    Case(
        "thirty digits",
        b"? 111111111122222222223333333333\n",
        b"bad 0\n",
    ),
    Case("a plus sign", b"- +1\n", b"bad 0\n"),
    Case("a minus sign", b"? -1\n", b"bad 0\n"),
    Case("a letter in a number", b"- 1a\n- a\n", b"bad 0\nbad 5\n"),
    Case(
        "the bytes on both sides of the digits",
        b"- /\n- :\n",
        b"bad 0\nbad 4\n",
    ),
    Case("a set for a line", b"- 1,2\n- .\n", b"bad 0\nbad 6\n"),
    Case("a set for a place", b": . . . 0\n", b"bad 0\n"),
    Case("a set for what a rule gives", b": 0 . . .\n", b"bad 0\n"),
    Case("a set for what a step gives", b"> . 0,1\n", b"bad 0\n"),
    Case("five digits for a line", b"- 99999\n", b"no 1\n"),
    Case("five digits for a place", b"/ 99999\n", b"no 1\n"),
    Case("five digits for a guess", b"? 99999\n", b"no 10\n"),
    Case("three digits for a line to write", b"+ 300 x\n", b"no 1\n"),
];

// Sets of lines.
const SETS: &[Case] = &[
    Case("an empty set field", b">  0\n", b"bad 0\n"),
    Case(
        "an empty set field in a rule",
        b": 0  . 0\n: 0 .  0\n",
        b"bad 0\nbad 9\n",
    ),
    Case("a comma for a set", b"> , 0\n", b"bad 0\n"),
    Case("a comma after a line", b"> 1, 0\n", b"bad 0\n"),
    Case("a comma before a line", b"> ,1 0\n", b"bad 0\n"),
    Case("two commas", b"> 1,,2 0\n", b"bad 0\n"),
    Case("lines that fall", b"> 2,1 0\n", b"bad 0\n"),
    Case("a line twice", b"> 1,1 0\n", b"bad 0\n"),
    Case("lines that rise and fall", b"> 1,3,2 0\n", b"bad 0\n"),
    Case("64 in a set", b"> 64 0\n", b"bad 0\n"),
    Case("64 behind another line", b"> 0,64 1\n", b"bad 0\n"),
    Case(
        "64 in a rule's sets",
        b": 0 64 . 0\n: 0 . 64 0\n",
        b"bad 0\nbad 11\n",
    ),
    Case("two dots", b"> .. 0\n", b"bad 0\n"),
    Case("a dot and a line", b"> .,1 0\n> 1,. 0\n", b"bad 0\nbad 8\n"),
    Case(
        "a needless zero in a set",
        b"> 01 0\n> 0,01 2\n",
        b"bad 0\nbad 7\n",
    ),
    Case("a plus sign in a set", b"> +1 0\n", b"bad 0\n"),
    Case("63 in a set", b"> 63 63\n", b"ok\n"),
    Case("two lines in a set", b"> 0,63 1\n", b"ok\n"),
];

// Bytes that no line should have.
const BYTES: &[Case] = &[
    Case(
        "a tab for a space",
        b"+\t0 tea\n+ 0\ttea\n",
        b"bad 0\nbad 8\n",
    ),
    Case("a tab after a number", b"- 0\t\n", b"bad 0\n"),
    Case("a tab in words", b"+ 0 tea\tcake\n", b"no 3\n"),
    Case("byte 0D before the end", b"- 0\r\n", b"bad 0\n"),
    Case("byte 0D before the end of words", b"+ 0 tea\r\n", b"no 3\n"),
    Case(
        "byte 0D alone does not end a line",
        b"- 0\r- 0\n",
        b"bad 0\n",
    ),
    Case("byte FF first", b"\xFF 0\n", b"bad 0\n"),
    Case("byte FF in a number", b"- \xFF\n", b"bad 0\n"),
    Case("byte FF in words", b"+ 0 \xFF\n", b"no 3\n"),
    Case("byte 00 alone", b"\0\n", b"bad 0\n"),
    Case("byte 00 in a number", b"- 0\0\n", b"bad 0\n"),
    Case("byte 00 in words", b"+ 0 a\0\n", b"no 3\n"),
];
