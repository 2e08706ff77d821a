//! Reads a text that comes in pieces, line by line.

ghost use Rattle.std.specs.Prelude.{◌≡◌, ◌++◌, [], ℕ, List, true, false, MatchResult, Ok, OnOk, IfOk, IfErr};
ghost use Rattle.audit_text.specs.Lines.{has_lf};
ghost use Rattle.audit_text.specs.Reading.{SoFar, so_far, within, end_within, with_more, read_text, UnlessMemory, line_after};
ghost use Rattle.audit_text.specs.Readers.{Stands, StandsFor, Took};

use crate::line_fault::LineFault;
use crate::token::cut;
use std::alloc::Global;
use std::marker::Model;

/// The maximum length of a line, in bytes without its LF. Every valid line of a policy, a
/// certificate or a credentials text is shorter.
pub const LONGEST_LINE: usize = 65_536;

/// A text's content, to which lines are added one by one.
pub trait Lines: Drop {
    ghost use Rattle.std.specs.Prelude.{Bool, List, ℕ, Option, Result};

    /// The faults of a line.
    type Kind;

    /// The content of lines.
    ghost said: { Type 0 };

    /// Whether this is the content of the lines that were added.
    ghost says: { Self → said → Type 0 };

    /// The content with one more line, or the line's fault.
    ghost after: { said → List ℕ → Result said Self.Kind };

    /// The fault of bytes that no LF ends.
    ghost unended: { said → List ℕ → Self.Kind };

    /// The fault of a line of more than `LONGEST_LINE` bytes, whatever it contains.
    ghost overlong: { said → Self.Kind };

    /// What is missing if the text ends after the last line.
    ghost lacks: { said → Option Self.Kind };

    /// Whether a fault is exhausted memory.
    ghost is_memory: { Self.Kind → Bool };

    /// Adds a line, without its LF.
    fn take_line(&mut self, line: &[u8]) -> Result<(), Self::Kind>
        ensures { (before : said) → says self.old before → MatchResult result
            (λ _. Took says (after before line.now) self.new)
            (λ kind. UnlessMemory is_memory kind (after before line.now)) };

    /// The fault of bytes that no LF ends.
    fn unended(&self, rest: &[u8]) -> Self::Kind
        ensures { (before : said) → says self.now before → result ≡ unended before rest.now };

    /// The fault of a line of more than `LONGEST_LINE` bytes.
    fn overlong(&self) -> Self::Kind
        ensures { (before : said) → says self.now before → result ≡ overlong before };

    /// What is missing if the text ends here.
    fn lacks(&self) -> Option<Self::Kind>
        ensures { (before : said) → says self.now before → result ≡ lacks before };

    /// The fault of exhausted memory.
    fn no_memory() -> Self::Kind
        ensures { is_memory result ≡ true };
}

/// Reads a text in pieces, split anywhere. It keeps the line that has not ended yet.
#[derive(Drop)]
pub struct TextReader<L: Lines> {
    lines: L,
    /// The bytes so far of the line that has not ended yet.
    held: Vec<u8>,
    /// The number of that line, from 1.
    line: u64,
}

impl<L: Lines> Model for TextReader<L> {
    ghost use Rattle.audit_text.specs.Reading.{SoFar};

    ghost Value = { SoFar L };

    ghost use Rattle.std.specs.Prelude.{◌≡◌, false};
    ghost use Rattle.audit_text.specs.Lines.{has_lf};

    ghost view = { λ reader. record { said = reader.lines; line = reader.line; rest = reader.held.items } };

    ghost invariant = { λ reader. has_lf reader.held.items ≡ false };
}

/// Adds a whole line.
fn take<L: Lines>(lines: &mut L, number: u64, line: &[u8]) -> Result<(), LineFault<L::Kind>>
    ensures ok { (before : L.said) → L.says lines.old before → OnOk result (Took L.says (within L.overlong L.after before line.now) lines.new) }
    ensures err { (before : L.said) → L.says lines.old before →
        IfErr result (λ fault. (fault.line ≡ number) × UnlessMemory L.is_memory fault.kind (within L.overlong L.after before line.now)) }
{
    if line.len() > LONGEST_LINE {
        return Err(LineFault {
            kind: lines.overlong(),
            line: number,
        });
    }
    match lines.take_line(line) {
        Ok(()) => Ok(()),
        Err(kind) => Err(LineFault { kind, line: number }),
    }
}

impl<L: Lines> TextReader<L> {
    /// A reader of no bytes. Allocates no memory.
    pub fn new(alloc: Global, lines: L) -> Self
        ensures { (start : L.said) → L.says lines start → StandsFor L.says (within L.overlong L.after) start result [] }
    {
        TextReader {
            lines,
            held: Vec::new(alloc),
            line: 1,
        }
    }

    fn fault(&self, kind: L::Kind) -> LineFault<L::Kind>
        ensures { result ≡ record { kind = kind; line = self.now.line } }
    {
        LineFault {
            kind,
            line: self.line,
        }
    }

    /// Adds bytes to the line that has not ended yet.
    fn hold(&mut self, bytes: &[u8]) -> Result<(), LineFault<L::Kind>>
        requires { has_lf bytes.now ≡ false }
        ensures ok { OnOk result (self.new.rest ≡ self.old.rest ++ bytes.now) }
        ensures err { IfErr result (λ fault. L.is_memory fault.kind ≡ true) }
        ensures lines { self.new.said ≡ self.old.said }
        ensures line { self.new.line ≡ self.old.line }
    {
        match self.held.extend_from_slice(bytes) {
            Ok(()) => Ok(()),
            Err(_) => Err(self.fault(L::no_memory())),
        }
    }

    /// Adds the line that ends with these bytes.
    fn end_line(&mut self, bytes: &[u8]) -> Result<(), LineFault<L::Kind>>
        requires { has_lf bytes.now ≡ false }
        ensures ok { (before : L.said) → L.says self.old.said before →
            OnOk result (Took L.says (within L.overlong L.after before (self.old.rest ++ bytes.now)) self.new.said) }
        ensures next { OnOk result (self.new.line ≡ line_after self.old.line) }
        ensures held { OnOk result (self.new.rest ≡ []) }
        ensures err { (before : L.said) → L.says self.old.said before → IfErr result (λ fault. L.is_memory fault.kind ≡ false →
            (fault.line ≡ self.old.line) × UnlessMemory L.is_memory fault.kind (within L.overlong L.after before (self.old.rest ++ bytes.now))) }
    {
        if self.held.is_empty() {
            take(&mut self.lines, self.line, bytes)?;
        } else {
            self.hold(bytes)?;
            take(&mut self.lines, self.line, &self.held)?;
            self.held.clear();
        }
        self.line = self.line.saturating_add(1);
        Ok(())
    }

    /// Adds each line that ends in the piece, and holds the rest.
    fn take_in(&mut self, piece: &[u8]) -> Result<(), LineFault<L::Kind>>
        ensures ok { (before : SoFar L.said) → Stands L.says self.old before →
            OnOk result ((next : SoFar L.said) × (with_more (within L.overlong L.after) before piece.now ≡ Ok next) × Stands L.says self.new next) }
        ensures err { (before : SoFar L.said) → Stands L.says self.old before →
            IfErr result (λ fault. UnlessMemory (λ f. L.is_memory f.kind) fault (with_more (within L.overlong L.after) before piece.now)) }
    {
        let _held = &self.held;
        let mut rest = piece;
        'lines: while let Some((line, behind)) = cut(rest, b'\n') {
            self.end_line(line)?;
            rest = behind;
        }
        self.hold(rest)
    }

    /// The fault of the line that has not ended, if the text ends in it.
    fn cut_off(&self) -> LineFault<L::Kind>
        ensures { (before : L.said) → L.says self.now.said before →
            result ≡ record { kind = end_within L.overlong L.unended before self.now.rest; line = self.now.line } }
    {
        if self.held.len() > LONGEST_LINE {
            return self.fault(self.lines.overlong());
        }
        self.fault(self.lines.unended(&self.held))
    }

    /// Reads the next piece of the text. A refusal consumes the reader. Every text that continues
    /// these bytes has the same fault, however it is split. It keeps at most `LONGEST_LINE` bytes
    /// of a line after each call, so that an endless line doesn't use more memory.
    pub fn feed(mut self, piece: &[u8]) -> Result<Self, LineFault<L::Kind>>
        ensures ok { (start : L.said) (text : List ℕ) → StandsFor L.says (within L.overlong L.after) start self text →
            IfOk result (λ reader. StandsFor L.says (within L.overlong L.after) start reader (text ++ piece.now)) }
        ensures err { (start : L.said) (text : List ℕ) → StandsFor L.says (within L.overlong L.after) start self text → (more : List ℕ) →
            IfErr result (λ fault. UnlessMemory (λ f. L.is_memory f.kind) fault (read_text L.overlong L.after L.unended L.lacks start (text ++ piece.now ++ more))) }
    {
        self.take_in(piece)?;
        if self.held.len() > LONGEST_LINE {
            return Err(self.cut_off());
        }
        Ok(self)
    }

    /// The content of the lines if the text may end here, or the fault of a text that ends here.
    /// Allocates no memory.
    pub fn finish(self) -> Result<L, LineFault<L::Kind>>
        ensures { (start : L.said) (text : List ℕ) → StandsFor L.says (within L.overlong L.after) start self text → MatchResult result
            (λ lines. Took L.says (read_text L.overlong L.after L.unended L.lacks start text) lines)
            (λ fault. read_text L.overlong L.after L.unended L.lacks start text ≡ Err fault) }
    {
        if !self.held.is_empty() {
            return Err(self.cut_off());
        }
        match self.lines.lacks() {
            None => Ok(self.lines),
            Some(kind) => Err(self.fault(kind)),
        }
    }
}
