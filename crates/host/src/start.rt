//! The arguments of a program, and what it reports if it can't begin.

ghost use Rattle.std.specs.Prelude.{◌≡◌, ◌⊎◌};

use audit_model::{Sink, put_all};
use std::rt::Env;
use std::{env, io};

/// The arguments of the program, including its name.
pub fn arguments<R: Env + AllocGlobal>(rt: &R) -> io::Result<Vec<String>> {
    let mut arguments = Vec::new(rt.alloc());
    for argument in env::args(rt)? {
        arguments.push(argument)?;
    }
    Ok(arguments)
}

/// Writes a line that begins with the program's name. A failure is ignored.
fn put_line<W: Sink>(program: &str, line: &[u8], err: &mut W) {
    let _ = put_all(err, program.as_bytes());
    let _ = put_all(err, line);
}

/// Reports that memory is out, and returns the exit status 3.
pub fn refuse_memory<W: Sink>(program: &str, err: &mut W) -> u8
    ensures { result ≡ 3 }
{
    put_line(program, b": out of memory\n", err);
    3
}

/// Reports that the system returns no random bytes, and returns the exit status 4.
pub fn refuse_seed<W: Sink>(program: &str, err: &mut W) -> u8
    ensures { result ≡ 4 }
{
    put_line(program, b": the system gives no random bytes\n", err);
    4
}

/// Reports why the arguments can't be read, and returns the exit status: 3 if memory is out, or
/// else 5, since one isn't UTF-8.
pub fn refuse_arguments<W: Sink>(program: &str, error: &io::Error, err: &mut W) -> u8
    ensures { (result ≡ 3) ⊎ (result ≡ 5) }
{
    if error.kind() == io::ErrorKind::OutOfMemory {
        return refuse_memory(program, err);
    }
    put_line(program, b": a word is not UTF-8\n", err);
    5
}
