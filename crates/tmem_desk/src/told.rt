// What is told, and printed once it is durable.
ghost use Rattle.std.specs.Prelude.{◌≡◌, ◌≤◌, ◌++◌, ℕ, List, [], length, OnOk, OnErr, IfOk, IfErr};
ghost use Rattle.std.specs.Io.KnownBytes.{Appends};
ghost use Rattle.tmem_desk.specs.Failing.{EndsBy, IsUnprinted, MayPrint};
ghost use Rattle.tmem_desk.specs.declared.failure.DeskFailure.TheVariants.{Output};
ghost use Rattle.tmem_desk.specs.Told.{told_line, told_lines};

use crate::desk::Desk;
use crate::failure::DeskFailure;
use crate::naming::ServedNaming;
use std::io::{self, ErrorKind, Write};
use tmem_answers::AnswerLine;
use tmem_fault::Fault;
use tmem_requests::NoRequestLine;

/// What a client is told, by a line.
#[derive(Drop)]
pub enum Told {
    /// What a request is answered.
    Answer(AnswerLine),
    /// That a line is no request.
    NoRequest(NoRequestLine),
}

impl<N: ServedNaming> Desk<N> {
    /// Prints what is told, by one write.
    pub(crate) fn print<W: Write>(&self, told: &[Told], out: &mut W) -> Result<(), DeskFailure>
        requires { MayPrint N.name.start self.now.pass told.now }
        ensures printed { OnOk result (Appends (W.contents out.old) (W.contents out.new) (told_lines told.now)) }
        ensures ends { IfErr result (EndsBy (Appends (W.contents out.old) (W.contents out.new))) }
        ensures err { IfErr result (IsUnprinted (Appends (W.contents out.old) (W.contents out.new)) told.now) }
    {
        let mut text = Vec::new(self.alloc);
        if spell_all(told, &mut text).is_err() {
            return Err(DeskFailure::Fault(Fault::Memory));
        }
        write_flushed(&text, out)
    }
}

// Writes these bytes, and flushes them. Where that fails, the beginning of them was written at most.
fn write_flushed<W: Write>(bytes: &[u8], out: &mut W) -> Result<(), DeskFailure>
    ensures written { OnOk result (Appends (W.contents out.old) (W.contents out.new) bytes.now) }
    ensures part { OnErr result ((part : List ℕ) × (rest : List ℕ) × (bytes.now ≡ part ++ rest) × Appends (W.contents out.old) (W.contents out.new) part) }
    ensures failed { IfErr result (λ e. e ≡ Output) }
{
    let mut rest = bytes;
    for _ in 0..u64::MAX {
        if rest.is_empty() {
            out.flush()?;
            return Ok(());
        }
        rest = write_some(rest, out)?;
    }
    Err(DeskFailure::Output)
}

// Writes some of these bytes, and answers the others: all of them where a signal came between.
fn write_some<'a, W: Write>(bytes: &'a [u8], out: &mut W) -> Result<&'a [u8], DeskFailure>
    requires { 1 ≤ length bytes.now }
    ensures written { IfOk result (λ rest. (part : List ℕ) × (bytes.now ≡ part ++ rest.now) × Appends (W.contents out.old) (W.contents out.new) part) }
    ensures none { OnErr result (Appends (W.contents out.old) (W.contents out.new) []) }
    ensures failed { IfErr result (λ e. e ≡ Output) }
{
    match out.write(bytes) {
        Ok(0) => Err(DeskFailure::Output),
        Ok(count) => Ok(&bytes[count..]),
        Err(error) if error.kind() == ErrorKind::Interrupted => Ok(bytes),
        Err(_) => Err(DeskFailure::Output),
    }
}

// Puts the lines of what is told behind a text.
fn spell_all(told: &[Told], text: &mut Vec<u8>) -> io::Result<()>
    ensures { OnOk result (text.new.items ≡ text.old.items ++ told_lines told.now) }
{
    for one in told {
        spell(one, text)?;
    }
    Ok(())
}

// Puts a line behind a text.
fn spell(one: &Told, text: &mut Vec<u8>) -> io::Result<()>
    ensures { OnOk result (text.new.items ≡ text.old.items ++ told_line one.now) }
{
    match one {
        Told::Answer(line) => writeln!(text, "{line}"),
        Told::NoRequest(line) => writeln!(text, "{line}"),
    }
}
