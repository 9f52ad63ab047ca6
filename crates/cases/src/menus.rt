// Menus, worked out by hand from the rules and the steps.
use crate::Case;

pub const ALL: &[&[Case]] = &[RULES, FACTS, PAGES];

// Rules alone.
const RULES: &[Case] = &[
    Case("no rules", b"? 0\n", b"menus 1 next 1 of 1\n\n"),
    Case(
        "no rule gives a line that is written",
        b"+ 0 tea\n? 0\n",
        b"number 1\nmenus 1 next 1 of 1\n\n",
    ),
    Case(
        "none / none / 0",
        b"+ 0 tea\n: 0 . . 0\n? 0\n",
        b"number 1\nok\nmenus 1 next 1 of 1\ntea\n",
    ),
    Case(
        "none / 0 / 0",
        b"+ 0 tea\n: 0 . 0 0\n? 0\n",
        b"number 1\nok\nmenus 0 next 2 of 2\n",
    ),
    Case(
        "0 / none / 0",
        b"+ 0 tea\n: 0 0 . 0\n? 0\n",
        b"number 1\nok\nmenus 1 next 1 of 1\n\n",
    ),
    Case(
        "none / 1 / 0 and none / 0 / 1",
        b"+ 0 tea\n+ 1 pie\n: 0 . 1 0\n: 1 . 0 1\n? 0\n",
        b"number 1\nnumber 2\nok\nok\nmenus 2 next 4 of 4\ntea\npie\n",
    ),
    Case(
        "the same, read from each guess on",
        b"+ 0 tea\n+ 1 pie\n: 0 . 1 0\n: 1 . 0 1\n? 1\n? 2\n? 3\n? 4\n",
        b"number 1\nnumber 2\nok\nok\n\
          menus 2 next 4 of 4\ntea\npie\n\
          menus 1 next 4 of 4\npie\n\
          menus 0 next 4 of 4\n\
          menus 0 next 4 of 4\n",
    ),
    Case(
        "the same, on lines that lie apart",
        b"+ 40 pie\n+ 10 tea\n: 7 . 40 10\n: 3 . 10 40\n? 0\n? 2\n",
        b"number 1\nnumber 2\nok\nok\n\
          menus 2 next 4 of 4\ntea\npie\n\
          menus 1 next 4 of 4\npie\n",
    ),
    Case(
        "one of three",
        b"+ 0 a\n+ 1 b\n+ 2 c\n: 0 . 1,2 0\n: 1 . 0,2 1\n: 2 . 0,1 2\n? 0\n? 3\n",
        b"number 1\nnumber 2\nnumber 3\nok\nok\nok\n\
          menus 3 next 8 of 8\na\nb\nc\n\
          menus 1 next 8 of 8\nc\n",
    ),
    Case(
        "an odd loop",
        b"+ 0 a\n+ 1 b\n+ 2 c\n: 0 . 1 0\n: 1 . 2 1\n: 2 . 0 2\n? 0\n",
        b"number 1\nnumber 2\nnumber 3\nok\nok\nok\nmenus 0 next 8 of 8\n",
    ),
    Case(
        "a rule needs all its lines",
        b"+ 0 a\n+ 1 b\n+ 2 c\n: 0 0,1 . 2\n: 1 . . 0\n? 0\n: 2 . . 1\n? 0\n",
        b"number 1\nnumber 2\nnumber 3\nok\nok\n\
          menus 1 next 1 of 1\na\n\
          ok\n\
          menus 1 next 1 of 1\na b c\n",
    ),
    Case(
        "a chain of rules whose last comes first",
        b"+ 3 d\n+ 2 c\n+ 1 b\n+ 0 a\n: 0 2 . 3\n: 1 1 . 2\n: 2 0 . 1\n: 3 . . 0\n? 0\n",
        b"number 1\nnumber 2\nnumber 3\nnumber 4\nok\nok\nok\nok\n\
          menus 1 next 1 of 1\na b c d\n",
    ),
    Case(
        "a menu after an unrule",
        b"+ 0 tea\n+ 1 pie\n: 0 . 1 0\n: 1 . 0 1\n/ 1\n? 0\n/ 0\n? 0\n",
        b"number 1\nnumber 2\nok\nok\nok\n\
          menus 1 next 2 of 2\ntea\n\
          ok\n\
          menus 1 next 1 of 1\n\n",
    ),
];

// Rules over steps.
const FACTS: &[Case] = &[
    Case(
        "a step that needs nothing",
        b"> . 0\n+ 0 tea\n? 0\n",
        b"ok\nnumber 1\nmenus 1 next 1 of 1\ntea\n",
    ),
    Case(
        "a chain of steps whose last comes first",
        b"> 2 3\n> 1 2\n> 0 1\n+ 0 a\n+ 1 b\n+ 2 c\n+ 3 d\n: 0 . . 0\n? 0\n",
        b"ok\nok\nok\nnumber 1\nnumber 2\nnumber 3\nnumber 4\nok\n\
          menus 1 next 1 of 1\na b c d\n",
    ),
    Case(
        "steps and rules in turn",
        b"> 0 1\n> 2 3\n+ 0 a\n+ 1 b\n+ 2 c\n+ 3 d\n: 0 1 . 2\n: 1 . . 0\n? 0\n",
        b"ok\nok\nnumber 1\nnumber 2\nnumber 3\nnumber 4\nok\nok\n\
          menus 1 next 1 of 1\na b c d\n",
    ),
    Case(
        "a step needs all its lines",
        b"> 0,1 2\n+ 0 a\n+ 1 b\n+ 2 c\n: 0 . . 0\n? 0\n: 1 . . 1\n? 0\n",
        b"ok\nnumber 1\nnumber 2\nnumber 3\nok\n\
          menus 1 next 1 of 1\na\n\
          ok\n\
          menus 1 next 1 of 1\na b c\n",
    ),
    Case(
        "a step that shuts the rule it follows from",
        b"> 0 1\n+ 0 tea\n+ 1 pie\n: 0 . 1 0\n? 0\n",
        b"ok\nnumber 1\nnumber 2\nok\nmenus 0 next 2 of 2\n",
    ),
    Case(
        "a step to one of two",
        b"> 0 2\n> 2 1\n+ 0 a\n+ 1 b\n+ 2 c\n: 0 . 1 0\n: 1 . 0 1\n? 0\n",
        b"ok\nok\nnumber 1\nnumber 2\nnumber 3\nok\nok\nmenus 1 next 4 of 4\nb\n",
    ),
];

// Five pairs, one of each: a or b, c or d, e or f, g or h, i or j. A pair takes two bits of a
// guess, 1 for its first line and 2 for its second. So 16 menus have i, the last of them at
// 256 + 2 * 85 = 426, and 16 have j, from 512 + 85 = 597 to 512 + 2 * 85 = 682.
const PAGES: &[Case] = &[Case(
    "five pairs",
    b"+ 0 a\n+ 1 b\n+ 2 c\n+ 3 d\n+ 4 e\n+ 5 f\n+ 6 g\n+ 7 h\n+ 8 i\n+ 9 j\n\
      : 0 . 1 0\n: 1 . 0 1\n: 2 . 3 2\n: 3 . 2 3\n: 4 . 5 4\n: 5 . 4 5\n\
      : 6 . 7 6\n: 7 . 6 7\n: 8 . 9 8\n: 9 . 8 9\n\
      ? 0\n? 427\n? 683\n? 1024\n? 1025\n? 426\n? 681\n",
    b"number 1\nnumber 2\nnumber 3\nnumber 4\nnumber 5\n\
      number 6\nnumber 7\nnumber 8\nnumber 9\nnumber 10\n\
      ok\nok\nok\nok\nok\nok\nok\nok\nok\nok\n\
      menus 16 next 427 of 1024\n\
      a c e g i\nb c e g i\na d e g i\nb d e g i\n\
      a c f g i\nb c f g i\na d f g i\nb d f g i\n\
      a c e h i\nb c e h i\na d e h i\nb d e h i\n\
      a c f h i\nb c f h i\na d f h i\nb d f h i\n\
      menus 16 next 683 of 1024\n\
      a c e g j\nb c e g j\na d e g j\nb d e g j\n\
      a c f g j\nb c f g j\na d f g j\nb d f g j\n\
      a c e h j\nb c e h j\na d e h j\nb d e h j\n\
      a c f h j\nb c f h j\na d f h j\nb d f h j\n\
      menus 0 next 1024 of 1024\n\
      menus 0 next 1024 of 1024\n\
      no 10\n\
      menus 16 next 682 of 1024\n\
      b d f h i\n\
      a c e g j\nb c e g j\na d e g j\nb d e g j\n\
      a c f g j\nb c f g j\na d f g j\nb d f g j\n\
      a c e h j\nb c e h j\na d e h j\nb d e h j\n\
      a c f h j\nb c f h j\na d f h j\n\
      menus 2 next 1024 of 1024\n\
      a d f h j\nb d f h j\n",
)];
