// How lines follow one another.
use crate::Case;

pub const ALL: &[&[Case]] = &[ENDS, PLACES, STEPS, NUMBERED];

// Where a script ends.
const ENDS: &[Case] = &[
    Case("no input", b"", b""),
    Case(
        "a last line without its end",
        b"+ 0 tea\n- 0",
        b"number 1\nok\n",
    ),
    Case("one line without its end", b"+ 0 tea", b"number 1\n"),
    Case("a list without its end", b"? 0", b"menus 1 next 1 of 1\n\n"),
    Case(
        "a bad line without its end",
        b"+ 0 tea\nx",
        b"number 1\nbad 8\n",
    ),
    Case("a space without its end", b"- 0\n ", b"no 5\nbad 4\n"),
];

// Where a bad line begins; it alters nothing.
const PLACES: &[Case] = &[
    Case("three empty lines", b"\n\n\n", b"bad 0\nbad 1\nbad 2\n"),
    Case(
        "a bad line after good ones",
        b"+ 0 tea\n+ 1 pie\nhm\n- 1\n",
        b"number 1\nnumber 2\nbad 16\nok\n",
    ),
    Case(
        "bad lines around a good one",
        b"x\n+ 10 tea\n\n- 010\n- 10\n",
        b"bad 0\nnumber 1\nbad 11\nbad 12\nok\n",
    ),
    Case(
        "a bad line alters nothing",
        b"+ 0 tea\n: 0 . . 0 \n? 0\n: 0 . . 0\n? 0\n",
        b"number 1\nbad 8\nmenus 1 next 1 of 1\n\nok\nmenus 1 next 1 of 1\ntea\n",
    ),
];

// Steps come before all other lines but bad ones.
const STEPS: &[Case] = &[
    Case(
        "a step after an accepted line",
        b"+ 0 tea\n> . 0\n",
        b"number 1\nbad 8\n",
    ),
    Case(
        "a step after a refused line",
        b"- 0\n> . 0\n",
        b"no 5\nbad 4\n",
    ),
    Case(
        "a step after a refused list",
        b"? 2\n> . 0\n",
        b"no 10\nbad 4\n",
    ),
    Case(
        "a step after a list",
        b"? 0\n> . 0\n",
        b"menus 1 next 1 of 1\n\nbad 4\n",
    ),
    Case(
        "a late step that would be refused",
        b"- 0\n> . 64\n",
        b"no 5\nbad 4\n",
    ),
    Case(
        "a step after bad lines and refused steps",
        b"x\n> . 64\n\n> . 0\n+ 0 tea\n? 0\n",
        b"bad 0\nno 1\nbad 9\nok\nnumber 1\nmenus 1 next 1 of 1\ntea\n",
    ),
    Case(
        "a late step alters nothing",
        b"+ 0 tea\n> . 0\n? 0\n- 0\n",
        b"number 1\nbad 8\nmenus 1 next 1 of 1\n\nok\n",
    ),
    Case(
        "a refused step alters nothing",
        b"> 5 64\n? 0\n",
        b"no 1\nmenus 1 next 1 of 1\n\n",
    ),
];

// The numbers of statements.
const NUMBERED: &[Case] = &[
    Case(
        "no number is given again after a strike",
        b"+ 0 soup\n- 0\n+ 0 trifle\n",
        b"number 1\nok\nnumber 2\n",
    ),
    Case(
        "a refused write takes no number",
        b"+ 0 tea\n+ 0 pie\n+ 64 pie\n+ 1 \x7f\n+ 1 pie\n",
        b"number 1\nno 2\nno 1\nno 3\nnumber 2\n",
    ),
];
