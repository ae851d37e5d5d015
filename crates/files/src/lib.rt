//! Files for the programs: a whole file into a buffer, and the first bytes of a buffer printed.
//! What the system refuses is said on standard error, in a line that names the file and the reason;
//! that such a line is not written can be told to nobody.
#![tactic(auto)]

ghost use Rattle.std.specs.Prelude.{◌↔◌, ◌<◌, length, IfOk, IsErrOf};
ghost use Rattle.io.specs.Counts.{IsPrefixLen};

use std::io::{ErrorKind, Read};
use std::rt::Files;
use std::{fs, io, str};

/// Reads as much of a file as the buffer takes, and returns how many bytes it put at the start of
/// the buffer; an absent file reads as empty. Any other that cannot be opened or read to its end,
/// as a directory or one without permission, is an `Err`, which is also said. So is one whose path
/// is not UTF-8, which std does not open.
pub fn read_file(rt: &(impl Files + Eprint), path: &[u8], buffer: &mut [u8]) -> io::Result<usize>
    ensures { IfOk result (λ n. IsPrefixLen n buffer.new) }
{
    let read = read_path(rt, path, buffer);
    if let Err(reason) = &read {
        let _ = eprintln!(rt; "{}: {reason}", path.escape_ascii());
    }
    read
}

// The same, with nothing said.
fn read_path(files: &impl Files, path: &[u8], buffer: &mut [u8]) -> io::Result<usize>
    ensures { IfOk result (λ n. IsPrefixLen n buffer.new) }
{
    let Ok(name) = str::from_utf8(path) else {
        return Err(io::Error::new(ErrorKind::InvalidInput, "the path is not UTF-8"));
    };
    match fs::open(files, name) {
        Ok(mut file) => read_full(&mut file, buffer),
        Err(reason) if reason.kind() == ErrorKind::NotFound => Ok(0),
        Err(reason) => Err(reason),
    }
}

// Reads until the buffer is full or the input ends, and returns how many bytes it put at the start
// of the buffer. A `while`, since no count leads: the system says how many bytes each read gives.
fn read_full(file: &mut impl Read, buffer: &mut [u8]) -> io::Result<usize>
    ensures { IfOk result (λ n. IsPrefixLen n buffer.new) }
{
    let mut done = 0;
    while done < buffer.len() {
        let n = file.read(&mut buffer[done..])?;
        if n == 0 {
            break;
        }
        done += n;
    }
    Ok(done)
}

/// Why bytes were not printed.
#[derive(Clone, Copy, Debug, PartialEq, Eq)]
pub enum PrintError {
    /// There are fewer than were to be printed: none is.
    TooFew,
    /// The system took only some of them, or none.
    Refused,
}

/// Prints the first n bytes. Where the system does not take them all, that is said. What it does
/// with them is outside the logic.
pub fn print(rt: &(impl Print + Eprint), bytes: &[u8], n: u32) -> Result<(), PrintError>
    ensures { IsErrOf result PrintError.TooFew ↔ (length bytes.now < n) }
{
    let Some(first) = bytes.get(..n as usize) else {
        return Err(PrintError::TooFew);
    };
    if let Err(reason) = rt.write_all(first) {
        let _ = eprintln!(rt; "standard output: {reason}");
        return Err(PrintError::Refused);
    }
    Ok(())
}
