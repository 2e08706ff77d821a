//! Text in markup.

use std::fmt;

/// A text that can't become markup: the five special characters of HTML are written as entities.
/// The text has no control characters: it was escaped by `explain_text::Quoted`, or it is a text of
/// the program.
#[derive(Clone, Copy, Debug)]
pub struct Plain<'a> {
    pub text: &'a str,
}

impl fmt::Display for Plain<'_> {
    fn fmt<W: fmt::Write>(&self, f: &mut fmt::Formatter<W>) -> fmt::Result {
        for c in self.text.chars() {
            match c {
                '&' => f.write_str("&amp;")?,
                '<' => f.write_str("&lt;")?,
                '>' => f.write_str("&gt;")?,
                '"' => f.write_str("&quot;")?,
                '\'' => f.write_str("&#39;")?,
                other => write!(f, "{other}")?,
            }
        }
        Ok(())
    }
}
