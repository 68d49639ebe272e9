//! What a course came to, in words.
ghost use Rattle.std.specs.Prelude.{◌≡◌, Some};
ghost use Rattle.course.specs.Words.{sends_words, jam_words, account_words};

use crate::account::{Account, Sends};
use std::fmt;

impl fmt::Display for Sends {
    ghost output = { λ s. Some (sends_words s) };

    // A line for each loop.
    fn fmt<W: fmt::Write>(&self, f: &mut fmt::Formatter<W>) -> fmt::Result {
        for (before, count) in self.counts.iter().enumerate() {
            if let Some(count) = count {
                let place = before + 1;
                writeln!(f, "sends of loop {place}: {count}")?;
            }
        }
        Ok(())
    }
}

// Whether a jam was met, in words.
fn jam_words(met: bool) -> &'static str
    ensures { result.now ≡ jam_words met }
{
    if met { "a jam was met" } else { "no jam met" }
}

impl fmt::Display for Account {
    ghost output = { λ a. Some (account_words a) };

    fn fmt<W: fmt::Write>(&self, f: &mut fmt::Formatter<W>) -> fmt::Result {
        let Account {
            slots,
            sends,
            longest_silence,
            met_jam,
        } = *self;
        let jam = jam_words(met_jam);
        write!(
            f,
            "slots: {slots}\n{sends}longest silence: {longest_silence}\n{jam}"
        )
    }
}
