// The book: its tables, and what every book keeps.
ghost use Rattle.book.specs.Kept.{Distinct, Given, OnLines, Worded, FewUnless, InRange};
ghost use Rattle.book.specs.Rows.{lines_named};
ghost use Rattle.std.specs.Prelude.{◌≡◌, length};

use crate::rows::Tables;

mod edit;
mod holds;
mod read;
mod saved;
mod search;

#[derive(Drop)]
pub struct Book {
    tables: Tables,
    ghost line_places: { length tables.lines ≡ 64 },
    ghost rule_places: { length tables.rules ≡ 40 },
    ghost hold_places: { length tables.holds ≡ 16 },
    ghost next_in_range: { InRange tables.next },
    ghost next_hold_in_range: { InRange tables.next_hold },
    ghost numbers_distinct: { Distinct (λ a. a.number) tables.lines },
    ghost numbers_given: { Given (λ a. a.number) tables.lines tables.next },
    ghost worded: { Worded tables.lines },
    ghost rules_on_lines: { OnLines lines_named tables.rules tables.lines },
    ghost few_unless: { FewUnless tables.rules },
    ghost holds_on_lines: { OnLines (λ h. h.lines) tables.holds tables.lines },
    ghost holds_distinct: { Distinct (λ h. h.number) tables.holds },
    ghost holds_given: { Given (λ h. h.number) tables.holds tables.next_hold },
}
