// Sets of lines in 64 bits, and the refusals that every layer above answers with.
#![tactic(auto)]

ghost use Rattle.std.specs.Prelude.{◌≡◌, ℕ, ◌^◌, ◌<◌, ◌⊎◌, true, false, Decides};
ghost use Rattle.sets.specs.Sets.{Has, Within};

pub mod pick;
pub mod refusal;
pub mod walk;

// Is the line in the set? No line above 63 is.
pub fn has(set: u64, line: u32) -> bool
    ensures { Decides result (Has set line) }
{
    if line > 63 {
        return false;
    }
    (set >> line) % 2 == 1
}

// Does every line of the first set lie in the second?
pub fn within(part: u64, whole: u64) -> bool
    ensures { Decides result (Within part whole) }
{
    part & whole == part
}

// The set with one line more. A line above 63 adds nothing.
pub fn with(set: u64, line: u32) -> u64
    ensures old { Within set result }
    ensures new { line < 64 → Has result line }
    ensures only { (n : ℕ) → Has result n → Has set n ⊎ (n ≡ line) }
{
    if line > 63 {
        return set;
    }
    set | 1 << line
}

// The lines for which the test says yes.
pub fn lines_where<F: Fn(u32) -> bool>(test: F) -> u64
    requires { (n : ℕ) → n < 64 → F.pre test n }
    ensures has { (n : ℕ) → Has result n → (n < 64) × F.post test n true }
    ensures lacks { (n : ℕ) → n < 64 → (Has result n → ⊥) → F.post test n false }
{
    let mut all = 0;
    for line in 0u32..64 {
        if test(line) {
            all = with(all, line);
        }
    }
    all
}
