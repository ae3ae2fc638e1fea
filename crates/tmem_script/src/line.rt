//! What is printed: one line for each reply.
ghost use Rattle.std.specs.Prelude.{◌++◌, Some};
ghost use Rattle.std.specs.Fmt.{DisplaysOnOk, decimal};
ghost use Rattle.tmem_script.specs.Lines.{numbers_joined, line_of, settled_line};

use std::fmt::{self, Display};
use tmem_event::{Reply, Settled};

/// The line of a reply, without its newline.
#[derive(Drop)]
pub struct ReplyLine(pub Reply);

impl fmt::Display for ReplyLine {
    ghost output = { λ line. Some (line_of line.0) };

    fn fmt<W: fmt::Write>(&self, f: &mut fmt::Formatter<W>) -> fmt::Result {
        match &self.0 {
            Reply::Begun => f.write_str("begun"),
            Reply::Read { var, value } => write!(f, "read {var} {value}"),
            Reply::Probed { name, held: true } => write!(f, "probe {name} yes"),
            Reply::Probed { name, held: false } => write!(f, "probe {name} no"),
            Reply::Ended => f.write_str("ended"),
            Reply::Idle => f.write_str("idle"),
            Reply::Settled(settled) => write_settled(f, settled),
            Reply::Durable(number) => write_count(f, "durable ", *number),
            Reply::Checkpointed => f.write_str("checkpointed"),
            Reply::Looked(number) => write_count(f, "look ", *number),
            Reply::Opened(count) => write_count(f, "opened ", *count),
            Reply::Fault(fault) => fault.fmt(f),
        }
    }
}

// A number behind these words.
fn write_count<W: fmt::Write>(f: &mut fmt::Formatter<W>, words: &str, count: u64) -> fmt::Result
    ensures { DisplaysOnOk W.write_str_gives f.old result (Some (words.now ++ decimal count)) f.new }
{
    f.write_str(words)?;
    write!(f, "{count}")
}

// What a transaction was answered.
fn write_settled<W: fmt::Write>(f: &mut fmt::Formatter<W>, settled: &Settled) -> fmt::Result
    ensures { DisplaysOnOk W.write_str_gives f.old result (Some (settled_line settled.now)) f.new }
{
    match settled {
        Settled::Committed { number, .. } => write_count(f, "committed ", *number),
        Settled::Seen { at, registers } => {
            write!(f, "seen {at} ")?;
            write_joined(f, registers)
        }
        Settled::Retry => f.write_str("retry"),
        Settled::Aborted(code) => write_count(f, "aborted ", u64::from(*code)),
        Settled::Refused(name) => write!(f, "refused {name}"),
    }
}

// Numbers, with a comma between any two.
fn write_joined<W: fmt::Write>(f: &mut fmt::Formatter<W>, numbers: &[i64]) -> fmt::Result
    ensures { DisplaysOnOk W.write_str_gives f.old result (Some (numbers_joined numbers.now)) f.new }
{
    if let Some((first, others)) = numbers.split_first() {
        write!(f, "{first}")?;
        for other in others {
            write!(f, ",{other}")?;
        }
    }
    Ok(())
}
