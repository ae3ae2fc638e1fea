//! A row as far as it was read.
ghost use Rattle.tmem_event.specs.Events.{NamesAttempt};

use crate::row::{Events, Handed, Numbers, Row, RowAct, RowJob, RowPart, RowTask};
use std::alloc::Global;
use std::mem;
use tmem_event::Event;
use tmem_forms::FormError;

/// What a row does so far, and the session that is still open.
#[derive(Drop)]
pub(crate) struct Draft {
    alloc: Global,
    /// The numbers that the row begins with.
    pub(crate) numbers: Numbers,
    acts: Vec<RowAct>,
    opening: Option<(Handed, Numbers)>,
    parts: Vec<RowPart>,
    // the events behind these parts
    events: Events,
}

impl Draft {
    pub(crate) fn new(alloc: Global, numbers: Numbers) -> Draft {
        Draft {
            alloc,
            numbers,
            acts: Vec::new(alloc),
            opening: None,
            parts: Vec::new(alloc),
            events: Events::new(alloc),
        }
    }

    pub(crate) fn add_event(&mut self, event: Event) -> Result<(), FormError>
        requires { NamesAttempt event }
    {
        self.need_session()?;
        self.events.push(event)?;
        Ok(())
    }

    pub(crate) fn add_part(&mut self, part: RowPart) -> Result<(), FormError> {
        self.need_session()?;
        self.end_events()?;
        self.parts.push(part)?;
        Ok(())
    }

    pub(crate) fn add_act(&mut self, act: RowAct) -> Result<(), FormError> {
        self.end_session()?;
        self.acts.push(act)?;
        Ok(())
    }

    pub(crate) fn open(&mut self, handed: Handed, numbers: Numbers) -> Result<(), FormError> {
        self.end_session()?;
        self.opening = Some((handed, numbers));
        Ok(())
    }

    /// The whole row.
    pub(crate) fn finish(mut self) -> Result<Row, FormError> {
        self.end()?;
        Ok(self.into_row())
    }

    fn end(&mut self) -> Result<(), FormError> {
        if self.acts.is_empty() {
            self.need_session()?;
        }
        self.end_session()
    }

    fn into_row(self) -> Row {
        let Draft { numbers, acts, .. } = self;
        Row { numbers, acts }
    }

    // A row that begins with something for a world opens the device as the program does.
    fn need_session(&mut self) -> Result<(), FormError> {
        if self.opening.is_some() {
            return Ok(());
        }
        if !self.acts.is_empty() {
            return Err(FormError::NoForm);
        }
        self.opening = Some((Handed::Builtin, self.numbers));
        Ok(())
    }

    fn end_events(&mut self) -> Result<(), FormError> {
        if !self.events.list.is_empty() {
            let events = mem::replace(&mut self.events, Events::new(self.alloc));
            self.parts.push(RowPart::Events(events))?;
        }
        Ok(())
    }

    fn end_session(&mut self) -> Result<(), FormError> {
        self.end_events()?;
        if let Some((handed, numbers)) = self.opening.take() {
            let parts = mem::replace(&mut self.parts, Vec::new(self.alloc));
            let job = RowJob::Session(parts);
            self.acts.push(RowAct::Do(RowTask {
                handed,
                numbers,
                job,
            }))?;
        }
        Ok(())
    }
}
