//! Lines told in one.
ghost use Rattle.std.specs.Prelude.{◌≡◌, ◌≢◌, ◌↔◌, ◌++◌, IsTrue, MatchOption, List, ℕ};
ghost use Rattle.std.specs.Str.Lines.{lines};
ghost use Rattle.cases.specs.Lines.{in_one};

// What is left of a text that begins with these two.
fn behind<'a>(text: &'a str, before: &str, line: &str) -> Option<&'a str>
    ensures { MatchOption result ((rest : List ℕ) → text.now ≢ before.now ++ (line.now ++ rest)) (λ rest. text.now ≡ before.now ++ (line.now ++ rest.now)) }
{
    text.strip_prefix(before)?.strip_prefix(line)
}

/// Whether the lines of a text are those told, with a comma and a blank between them.
pub fn are_told_as(text: &str, told: &str) -> bool
    ensures { IsTrue result ↔ (told.now ≡ in_one (lines text.now)) }
{
    let mut before = "";
    let mut rest = told;
    for line in text.lines() {
        let Some(left) = behind(rest, before, line) else {
            return false;
        };
        rest = left;
        before = ", ";
    }
    rest.is_empty()
}
