//! A case of the table: a site file and what is expected of it.

/// A line of the table, taken apart. A file that is to be refused has no marks.
#[derive(Clone, Copy)]
pub struct Case<'a> {
    pub hex: &'a str,
    pub verdict: &'a str,
    pub marks: &'a str,
    /// The file that is expected to be written back, in hex.
    pub written: &'a str,
}

impl<'a> Case<'a> {
    pub fn of_line(line: &'a str) -> Option<Case<'a>> {
        let (hex, expected) = line.split_once(": ")?;
        let (expected, written) = expected.split_once("; written ").unwrap_or((expected, hex));
        let (verdict, marks) = expected.split_once("; marks ").unwrap_or((expected, ""));
        Some(Case {
            hex,
            verdict,
            marks,
            written,
        })
    }
}
