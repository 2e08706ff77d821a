//! The lines of a configuration, as coturn 4.6 reads them.

ghost use Rattle.std.specs.Prelude.{◌≡◌, ◌++◌, [], IfOk, OnOk, option_map, map};
ghost use Rattle.prep_coturn.specs.Rows.{is_on, line_of, now_of, settings_of, unquoted_of, with_more};

use crate::class::Class;
use audit_text::cut;
use std::alloc::{AllocError, Global};

/// A line with a setting: its number from 1, the name, and the value.
#[derive(Clone, Copy, Debug)]
pub struct Row<'a> {
    pub line: u64,
    pub name: &'a [u8],
    pub value: &'a [u8],
}

impl<'a> Row<'a> {
    /// Parses a line: blanks at its start are skipped, a name is separated from its value by blanks
    /// or `=`, and a value may be in quotes. `None` if it is empty or begins with `#`.
    pub fn of(line: u64, text: &'a [u8]) -> Option<Self>
        ensures { option_map now_of result ≡ line_of line text.now }
    {
        let (_, text) = text.split_at(Class::Blank.front(text));
        let (text, _) = text.split_at(Class::Return.kept(text));
        if text.is_empty() || text[0] == b'#' {
            return None;
        }
        let (name, rest) = text.split_at(Class::Name.front(text));
        let (_, value) = rest.split_at(Class::Separator.front(rest));
        let (value, _) = value.split_at(Class::Blank.kept(value));
        Some(Row {
            line,
            name,
            value: unquoted(value),
        })
    }

    /// Whether it switches something on: each value does except `0`, `off`, `no`, `false` and `f`.
    pub fn is_on(&self) -> bool
        ensures { result ≡ is_on self.now.value.now }
    {
        let value = self.value;
        !(value == b"0".as_slice()
            || value.eq_ignore_ascii_case(b"off")
            || value.eq_ignore_ascii_case(b"no")
            || value.eq_ignore_ascii_case(b"false")
            || value.eq_ignore_ascii_case(b"f"))
    }
}

/// A value without the quotes around it.
fn unquoted(value: &[u8]) -> &[u8]
    ensures { result.now ≡ unquoted_of value.now }
{
    match value.strip_prefix(b"\"") {
        None => value,
        Some(rest) => match rest.strip_suffix(b"\"") {
            None => rest,
            Some(inner) => inner,
        },
    }
}

/// Adds the setting of a line, if it has one.
fn push_row<'a>(rows: &mut Vec<Row<'a>>, line: u64, text: &'a [u8]) -> Result<(), AllocError>
    ensures { OnOk result (map now_of rows.new.items ≡ map now_of rows.old.items ++ with_more (line_of line text.now) []) }
{
    if let Some(row) = Row::of(line, text) {
        rows.push(row)?;
    }
    Ok(())
}

/// The lines with settings, in order. The cost is the size of the text.
pub fn rows_of(alloc: Global, text: &[u8]) -> Result<Vec<Row<'_>>, AllocError>
    ensures { IfOk result (λ rows. map now_of rows.items ≡ settings_of text.now) }
{
    let mut rows = Vec::new(alloc);
    let mut rest = text;
    let mut line = 1u64;
    'lines: while let Some((one, others)) = cut(rest, b'\n') {
        push_row(&mut rows, line, one)?;
        rest = others;
        line += 1;
    }
    push_row(&mut rows, line, rest)?;
    Ok(rows)
}
