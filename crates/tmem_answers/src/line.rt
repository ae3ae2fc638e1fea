//! The lines of answers, and the first line.
ghost use Rattle.std.specs.Prelude.{◌≡◌, ◌++◌, Some, codes};
ghost use Rattle.std.specs.Fmt.{DisplaysOnOk, decimal};
ghost use Rattle.tmem_answers.specs.Answers.{answer_line, answer_text, numbers_text, pairs_text, settled_text, state_members, stats_text, without_last_zeros, word_text};

use crate::answer::{Answer, Stats};
use crate::array::Joined;
use crate::fault::write_fault;
use std::fmt;
use tmem_fault::Name;
use tmem_tree::Settled;

/// The line of an answer to the request of this id, without its line break.
#[derive(Drop)]
pub struct AnswerLine {
    pub id: i64,
    pub answer: Answer,
}

impl fmt::Display for AnswerLine {
    ghost output = { λ line. Some (answer_line line.id line.answer) };

    fn fmt<W: fmt::Write>(&self, f: &mut fmt::Formatter<W>) -> fmt::Result {
        write!(f, "{{\"id\":{},{}}}", self.id, Behind(&self.answer))
    }
}

// What stands behind the id.
#[derive(Drop)]
struct Behind<'a>(&'a Answer);

impl<'a> fmt::Display for Behind<'a> {
    ghost output = { λ it. Some (answer_text it.0.now) };

    fn fmt<W: fmt::Write>(&self, f: &mut fmt::Formatter<W>) -> fmt::Result {
        match self.0 {
            Answer::Settled(settled) => write_settled(f, settled),
            Answer::Refused { name, because } => write_refusal(f, name, because),
            Answer::Values { count, values } => write_values(f, *count, values),
            Answer::State {
                count,
                names,
                values,
            } => write_state(f, *count, names, values),
            Answer::Cancelled => f.write_str("\"cancelled\":true"),
            Answer::Found(true) => f.write_str("\"found\":true"),
            Answer::Found(false) => f.write_str("\"found\":false"),
            Answer::Kept(word) => write!(f, "\"kept\":\"{word}\""),
            Answer::Durable(number) => write!(f, "\"durable\":{number}"),
            Answer::Checkpointed => f.write_str("\"checkpointed\":true"),
            Answer::Stats(stats) => write_stats(f, stats),
            Answer::Fault(fault) => write_fault(f, fault),
        }
    }
}

// That an invariant refused it, and what the failing test saw.
fn write_refusal<W: fmt::Write>(
    f: &mut fmt::Formatter<W>,
    name: &Name,
    because: &[(u16, i64)],
) -> fmt::Result
    ensures { DisplaysOnOk W.write_str_gives f.old result (Some (codes "\"refused\":" ++ word_text name.now ++ codes ",\"because\":" ++ pairs_text because.now)) f.new }
{
    write!(
        f,
        "\"refused\":\"{name}\",\"because\":[{}]",
        Joined(because)
    )
}

// Variables and their values after so many transactions.
fn write_values<W: fmt::Write>(
    f: &mut fmt::Formatter<W>,
    count: u64,
    values: &[(u16, i64)],
) -> fmt::Result
    ensures { DisplaysOnOk W.write_str_gives f.old result (Some (codes "\"count\":" ++ decimal count ++ codes ",\"values\":" ++ pairs_text values.now)) f.new }
{
    write!(f, "\"count\":{count},\"values\":[{}]", Joined(values))
}

// How a transaction ended.
fn write_settled<W: fmt::Write>(f: &mut fmt::Formatter<W>, settled: &Settled) -> fmt::Result
    ensures { DisplaysOnOk W.write_str_gives f.old result (Some (settled_text settled.now)) f.new }
{
    match settled {
        Settled::Committed { number, registers } => write_end(f, "committed", *number, registers),
        Settled::Seen { at, registers } => write_end(f, "seen", *at, registers),
        Settled::Retry => f.write_str("\"retry\":true"),
        Settled::Aborted(code) => write!(f, "\"aborted\":{code}"),
        Settled::Refused(name) => write!(f, "\"refused\":\"{name}\""),
    }
}

// A number at this key, and registers without the zeros at their end.
fn write_end<W: fmt::Write>(
    f: &mut fmt::Formatter<W>,
    key: &str,
    number: u64,
    registers: &[i64],
) -> fmt::Result
    ensures { DisplaysOnOk W.write_str_gives f.old result
        (Some (codes "\"" ++ key.now ++ codes "\":" ++ decimal number ++ codes ",\"registers\":" ++ numbers_text (without_last_zeros registers.now))) f.new }
{
    let registers = Joined(without_last_zeros(registers));
    write!(f, "\"{key}\":{number},\"registers\":[{registers}]")
}

// Numbers, without the zeros at their end.
fn without_last_zeros(numbers: &[i64]) -> &[i64]
    ensures { result.now ≡ without_last_zeros numbers.now }
{
    let mut len = numbers.len();
    'zeros: while len > 0 && numbers[len - 1] == 0 {
        len -= 1;
    }
    &numbers[..len]
}

// The whole state.
fn write_state<W: fmt::Write>(
    f: &mut fmt::Formatter<W>,
    count: u64,
    names: &[Name],
    values: &[i64],
) -> fmt::Result
    ensures { DisplaysOnOk W.write_str_gives f.old result (Some (state_members count names.now values.now)) f.new }
{
    write!(
        f,
        "\"count\":{count},\"names\":[{}],\"values\":[{}]",
        Joined(names),
        Joined(values)
    )
}

// What was counted.
fn write_stats<W: fmt::Write>(f: &mut fmt::Formatter<W>, stats: &Stats) -> fmt::Result
    ensures { DisplaysOnOk W.write_str_gives f.old result (Some (stats_text stats.now)) f.new }
{
    write!(
        f,
        "\"stats\":{{\"committed\":{},\"refused\":{}",
        stats.committed, stats.refused
    )?;
    write!(
        f,
        ",\"conflicts\":{},\"flushes\":{}",
        stats.conflicts, stats.flushes
    )?;
    write!(
        f,
        ",\"checkpoints\":{},\"waiting\":{}",
        stats.checkpoints, stats.waiting
    )?;
    write!(
        f,
        ",\"kept\":{},\"free_slots\":{}}}",
        stats.kept, stats.free_slots
    )
}
