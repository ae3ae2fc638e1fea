// A piece of input: its lines, those that wait, and then all that is told, once that is durable.
ghost use Rattle.std.specs.Prelude.{◌≡◌, ◌≢◌, ◌++◌, ℕ, List, [], None, map, OnOk, IfOk, IfErr, IfSome, IsErr, IsNone, unwrap_or};
ghost use Rattle.std.specs.Io.KnownBytes.{Appends};
ghost use Rattle.tmem_seats.specs.Settling.{SeesMore};
ghost use Rattle.tmem_spine.specs.History.{count};
ghost use Rattle.tmem_lines.specs.Lines.{HoldsRestOf};
ghost use Rattle.tmem_lines.specs.Views.{LinesView};
ghost use Rattle.tmem_desk.specs.Asking.{store};
ghost use Rattle.tmem_desk.specs.Desks.{DeskView};
ghost use Rattle.tmem_desk.specs.Failing.{EndsBy, IsLast, IsUnprinted, IsMemoryOrOutput, OrMemory, PassesAll, TakesPart, TakesRest, TellsAll, TellsWhy, TriesUntil};
ghost use Rattle.tmem_desk.specs.Held.{desk_view};
ghost use Rattle.tmem_desk.specs.Serving.{by, Finishes, Splits, TakesAll, RunsPiece, ServesPiece, TakesLast, RunsLast, RunsEnd, ServesEnd, with_closed};
ghost use Rattle.tmem_desk.specs.Told.{rests_within, told_last, told_lines};

use crate::desk::Desk;
use crate::failure::DeskFailure;
use crate::naming::ServedNaming;
use crate::served::ServedStore;
use crate::told::Told;
use std::alloc::{AllocError, Global};
use std::collections::VecDeque;
use std::io::Write;
use std::mem;
use std::sync::Wait;
use tmem_answers::{Answer, AnswerLine};
use tmem_core::Settled;
use tmem_fault::Fault;
use tmem_lines::{Cut, Lines};

impl<N: ServedNaming> Desk<N> {
    /// Takes a piece of input, and answers all its lines and those that need not wait any more, by one write, once all that is told is
    /// durable. Where the store cannot go on, each request that has no answer yet is told its answer if that rests on durable transactions
    /// alone, and else why; and the same is the refusal. But where that is `Memory`, none is told anything else, and some may not be told.
    /// Refused with `Output` where the answers could not be printed.
    pub fn serve<V: ServedStore<N>, W: Write>(
        &mut self,
        service: &V,
        lines: &mut Lines,
        piece: &[u8],
        out: &mut W,
    ) -> Result<(), DeskFailure>
        ensures ends { IfErr result (EndsBy (Appends (W.contents out.old) (W.contents out.new))) }
        ensures told { IfErr result (λ e. (text : List ℕ) → HoldsRestOf lines.old text → TellsAll (store N.name.start N.opening N.program N.arities N.always) (λ texts. Splits (text ++ piece.now) texts lines.new) (RunsPiece (store N.name.start N.opening N.program N.arities N.always) (text ++ piece.now) lines.new (desk_view self.old)) (desk_view self.old) (desk_view self.new) (Appends (W.contents out.old) (W.contents out.new)) e) }
        ensures serves { OnOk result ((text : List ℕ) → HoldsRestOf lines.old text → ServesPiece (store N.name.start N.opening N.program N.arities N.always) (text ++ piece.now) lines.new (desk_view self.old) (desk_view self.new) (Appends (W.contents out.old) (W.contents out.new))) }
    {
        if lines.add(piece).is_err() {
            return Err(DeskFailure::Fault(Fault::Memory));
        }
        match self.run(service, lines) {
            Ok(()) => self.give(out),
            Err(fault) => self.fail(service, lines, fault, out),
        }
    }

    // Takes each line that has ended, tries again those that wait, and makes all durable.
    fn run<V: ServedStore<N>>(&mut self, service: &V, lines: &mut Lines) -> Result<(), Fault>
        ensures durable { OnOk result (self.new.pass.seen ≡ self.new.pass.known) }
        ensures runs { OnOk result ((text : List ℕ) → HoldsRestOf lines.old text → RunsPiece (store N.name.start N.opening N.program N.arities N.always) text lines.new (desk_view self.old) (desk_view self.new)) }
        ensures err { IfErr result (λ f. (text : List ℕ) → HoldsRestOf lines.old text → OrMemory f (TakesPart (store N.name.start N.opening N.program N.arities N.always) text lines.new (desk_view self.old) (desk_view self.new))) }
    {
        self.take_lines(service, lines)?;
        self.finish(service)
    }

    // Tries again those that wait, and makes all durable.
    fn finish<V: ServedStore<N>>(&mut self, service: &V) -> Result<(), Fault>
        ensures ok { OnOk result (Finishes (store N.name.start N.opening N.program N.arities N.always) (desk_view self.old) (desk_view self.new)) }
        ensures err { IfErr result (λ f. OrMemory f (TriesUntil (store N.name.start N.opening N.program N.arities N.always) (desk_view self.old) (desk_view self.new))) }
    {
        self.wake(service)?;
        self.harden(service)
    }

    // Makes durable all that the pass knows.
    fn harden<V: ServedStore<N>>(&mut self, service: &V) -> Result<(), Fault>
        ensures all { OnOk result (self.new.pass.seen ≡ self.new.pass.known) }
        ensures sees { SeesMore self.old.pass self.new.pass }
        ensures desk { desk_view self.new ≡ by (desk_view self.old) self.new.pass }
    {
        service.flush_all(&mut self.pass)?;
        Ok(())
    }

    // Takes each line that has ended.
    fn take_lines<V: ServedStore<N>>(&mut self, service: &V, lines: &mut Lines) -> Result<(), Fault>
        ensures ok { OnOk result ((text : List ℕ) → HoldsRestOf lines.old text → TakesAll (store N.name.start N.opening N.program N.arities N.always) text lines.new (desk_view self.old) (desk_view self.new)) }
        ensures err { IfErr result (λ f. (text : List ℕ) → HoldsRestOf lines.old text → OrMemory f (TakesPart (store N.name.start N.opening N.program N.arities N.always) text lines.new (desk_view self.old) (desk_view self.new))) }
    {
        for _ in service.runtime().forever() {
            match lines.cut() {
                Cut::Line => self.take_line(service, lines.line())?,
                Cut::TooLong => self.take_long_line()?,
                Cut::Nothing => return Ok(()),
            }
        }
        unreachable!()
    }

    // Prints all that is told. All that the pass knows is durable then.
    fn give<W: Write>(&mut self, out: &mut W) -> Result<(), DeskFailure>
        requires { self.old.pass.seen ≡ self.old.pass.known }
        ensures printed { OnOk result (Appends (W.contents out.old) (W.contents out.new) (told_lines self.old.told.items)) }
        ensures desk { OnOk result (desk_view self.new ≡ record (desk_view self.old) { told = [] }) }
        ensures pass { self.new.pass ≡ self.old.pass }
        ensures ends { IfErr result (EndsBy (Appends (W.contents out.old) (W.contents out.new))) }
        ensures err { IfErr result (IsUnprinted (Appends (W.contents out.old) (W.contents out.new)) self.old.told.items) }
    {
        self.print(&self.told, out)?;
        self.told.clear();
        Ok(())
    }

    /// Ends serving at the end of the input: takes what is left as a line that lacks its line break, tries again those that wait, and
    /// answers those that still do that the store is closed. Otherwise as `serve`.
    pub fn end<V: ServedStore<N>, W: Write>(
        &mut self,
        service: &V,
        lines: &mut Lines,
        out: &mut W,
    ) -> Result<(), DeskFailure>
        ensures ends { IfErr result (EndsBy (Appends (W.contents out.old) (W.contents out.new))) }
        ensures told { IfErr result (λ e. (text : List ℕ) → HoldsRestOf lines.old text → TellsAll (store N.name.start N.opening N.program N.arities N.always) (IsLast text) (RunsEnd (store N.name.start N.opening N.program N.arities N.always) text (desk_view self.old)) (desk_view self.old) (desk_view self.new) (Appends (W.contents out.old) (W.contents out.new)) e) }
        ensures serves { OnOk result ((text : List ℕ) → HoldsRestOf lines.old text → ServesEnd (store N.name.start N.opening N.program N.arities N.always) text (desk_view self.old) (desk_view self.new) (Appends (W.contents out.old) (W.contents out.new))) }
    {
        match self.run_last(service, lines) {
            Ok(()) => {
                self.close_waiting()?;
                self.give(out)
            }
            Err(fault) => self.fail(service, lines, fault, out),
        }
    }

    // Takes what is left at the end of the input, tries again those that wait, and makes all durable.
    fn run_last<V: ServedStore<N>>(&mut self, service: &V, lines: &mut Lines) -> Result<(), Fault>
        ensures durable { OnOk result (self.new.pass.seen ≡ self.new.pass.known) }
        ensures runs { OnOk result ((text : List ℕ) → HoldsRestOf lines.old text → RunsLast (store N.name.start N.opening N.program N.arities N.always) text (desk_view self.old) (desk_view self.new)) }
        ensures err { IfErr result (λ f. (text : List ℕ) → HoldsRestOf lines.old text → OrMemory f (TakesRest (store N.name.start N.opening N.program N.arities N.always) text (desk_view self.old) (desk_view self.new))) }
        ensures rest { HoldsRestOf lines.new [] }
    {
        self.take_last(service, lines)?;
        self.finish(service)
    }

    // Takes what is left at the end of the input.
    fn take_last<V: ServedStore<N>>(&mut self, service: &V, lines: &mut Lines) -> Result<(), Fault>
        ensures ok { OnOk result ((text : List ℕ) → HoldsRestOf lines.old text → TakesLast (store N.name.start N.opening N.program N.arities N.always) text (desk_view self.old) (desk_view self.new)) }
        ensures err { IfErr result (λ f. (text : List ℕ) → HoldsRestOf lines.old text → OrMemory f (TakesRest (store N.name.start N.opening N.program N.arities N.always) text (desk_view self.old) (desk_view self.new))) }
        ensures rest { HoldsRestOf lines.new [] }
    {
        match lines.cut_last() {
            Cut::Line => self.take_line(service, lines.line()),
            Cut::TooLong => self.take_long_line(),
            Cut::Nothing => Ok(()),
        }
    }

    // Tells those that wait that the store is closed.
    fn close_waiting(&mut self) -> Result<(), Fault>
        ensures told { OnOk result (desk_view self.new ≡ with_closed (desk_view self.old)) }
        ensures pass { OnOk result (self.new.pass ≡ self.old.pass) }
        ensures err { IfErr result (λ f. f ≡ Fault.Memory) }
    {
        let waiting = mem::replace(&mut self.waiting, VecDeque::new(self.alloc));
        for one in waiting {
            self.tell(one.id, Answer::Fault(Fault::Closed))?;
        }
        Ok(())
    }

    // Tells each request that has no answer yet its answer, if that rests on durable transactions alone, or why the store cannot go on.
    fn fail<V: ServedStore<N>, W: Write>(
        &mut self,
        service: &V,
        lines: &mut Lines,
        fault: Fault,
        out: &mut W,
    ) -> Result<(), DeskFailure>
        ensures never { IsErr result }
        ensures ends { IfErr result (EndsBy (Appends (W.contents out.old) (W.contents out.new))) }
        ensures memory { fault ≡ Fault.Memory → IfErr result (IsMemoryOrOutput (Appends (W.contents out.old) (W.contents out.new))) }
        ensures told { IfErr result (λ e. (text : List ℕ) → HoldsRestOf lines.old text → TellsWhy (store N.name.start N.opening N.program N.arities N.always) (λ texts. Splits text texts lines.new) (desk_view self.old) (desk_view self.new) (Appends (W.contents out.old) (W.contents out.new)) e) }
    {
        let fault = why_ended(fault, service.fault());
        self.pass_over(service, lines)?;
        self.close_waiting()?;
        self.give_last(service, fault, out)
    }

    // Prints all that is told at last, where the store cannot go on for this fault.
    fn give_last<V: ServedStore<N>, W: Write>(
        &mut self,
        service: &V,
        fault: Fault,
        out: &mut W,
    ) -> Result<(), DeskFailure>
        ensures never { IsErr result }
        ensures ends { IfErr result (EndsBy (Appends (W.contents out.old) (W.contents out.new))) }
        ensures memory { fault ≡ Fault.Memory → IfErr result (IsMemoryOrOutput (Appends (W.contents out.old) (W.contents out.new))) }
        ensures told { IfErr result (λ e. (text : List ℕ) (held : LinesView) (mid over : DeskView) (passes : PassesAll (store N.name.start N.opening N.program N.arities N.always) text held mid over) → desk_view self.old ≡ with_closed over → TellsWhy (store N.name.start N.opening N.program N.arities N.always) (λ texts. Splits text texts held) mid (desk_view self.new) (Appends (W.contents out.old) (W.contents out.new)) e) }
    {
        let durable = self.durable_at_last(service, &fault);
        let told = mem::replace(&mut self.told, Vec::new(self.alloc));
        let Ok(last) = all_last(self.alloc, told, durable, &fault) else {
            return Err(DeskFailure::Fault(Fault::Memory));
        };
        let printed = self.print(&last, out);
        drop(last);
        match printed {
            Ok(()) => Err(DeskFailure::Fault(fault)),
            Err(failure) => Err(failure),
        }
    }

    // How many transactions are durable, where the store cannot go on. `None` where memory did not suffice: what was told by then is open.
    fn durable_at_last<V: ServedStore<N>>(&mut self, service: &V, fault: &Fault) -> Option<u64>
        ensures memory { fault.now ≡ Fault.Memory → result ≡ None }
        ensures none { IsNone result → fault.now ≡ Fault.Memory }
        ensures counts { IfSome result (λ n. n ≡ count N.name.start self.new.pass.seen) }
        ensures sees { SeesMore self.old.pass self.new.pass }
        ensures desk { desk_view self.new ≡ by (desk_view self.old) self.new.pass }
    {
        match fault {
            Fault::Memory => None,
            _ => Some(service.look(&mut self.pass)),
        }
    }

    // Takes each line that has ended, and runs none.
    fn pass_over<V: ServedStore<N>>(&mut self, service: &V, lines: &mut Lines) -> Result<(), Fault>
        ensures ok { OnOk result ((text : List ℕ) → HoldsRestOf lines.old text → PassesAll (store N.name.start N.opening N.program N.arities N.always) text lines.new (desk_view self.old) (desk_view self.new)) }
        ensures err { IfErr result (λ f. f ≡ Fault.Memory) }
    {
        for _ in service.runtime().forever() {
            match lines.cut() {
                Cut::Line => self.pass_line_over(service, lines.line())?,
                Cut::TooLong => self.take_long_line()?,
                Cut::Nothing => return Ok(()),
            }
        }
        unreachable!()
    }
}

// Why serving ends: what the store says, unless memory did not suffice.
fn why_ended(fault: Fault, of_store: Option<Fault>) -> Fault
    ensures memory { fault ≡ Fault.Memory → result ≡ Fault.Memory }
    ensures first { fault ≢ Fault.Memory → result ≡ unwrap_or of_store fault }
{
    match fault {
        Fault::Memory => Fault::Memory,
        other => of_store.unwrap_or(other),
    }
}

// What is told at last where so many are durable, and the store cannot go on for this fault.
fn all_last(
    alloc: Global,
    told: Vec<Told>,
    durable: Option<u64>,
    fault: &Fault,
) -> Result<Vec<Told>, AllocError>
    ensures { IfOk result (λ all. all.items ≡ map (told_last durable fault.now) told.items) }
{
    let mut all = Vec::with_capacity(alloc, told.len())?;
    for one in told {
        all.push(last_told(one, durable, fault))?;
    }
    Ok(all)
}

// The same of one.
fn last_told(told: Told, durable: Option<u64>, fault: &Fault) -> Told
    ensures { result ≡ told_last durable fault.now told }
{
    match (told, durable) {
        (Told::Answer(line), Some(count)) if is_within(&line.answer, count) => {
            Told::Answer(line)
        }
        (Told::Answer(AnswerLine { id, .. }), _) => Told::Answer(AnswerLine {
            id,
            answer: Answer::Fault(*fault),
        }),
        (Told::NoRequest(line), _) => Told::NoRequest(line),
    }
}

// Whether an answer names how many transactions it rests on, all of which are among the first so many.
fn is_within(answer: &Answer, count: u64) -> bool
    ensures { result ≡ rests_within count answer.now }
{
    match answer {
        Answer::Settled(Settled::Committed { number, .. }) => *number < count,
        Answer::Settled(Settled::Seen { at: number, .. })
        | Answer::Values { count: number, .. }
        | Answer::State { count: number, .. }
        | Answer::Durable(number) => *number <= count,
        _ => false,
    }
}
