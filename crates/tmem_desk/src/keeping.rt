// Transactions that are kept, and run by a word.
ghost use Rattle.std.specs.Prelude.{◌≡◌, ◌⊎◌, None, position, bytes_eq, OnOk, IfErr};
ghost use Rattle.tmem_requests.specs.declared.request.RequestBody.TheVariants.{Do, Keep, Stats as StatsOf};
ghost use Rattle.tmem_desk.specs.Asking.{store};
ghost use Rattle.tmem_desk.specs.Failing.{LearnsOnly, OrMemory};
ghost use Rattle.tmem_desk.specs.Held.{desk_view};
ghost use Rattle.tmem_desk.specs.Keeping.{kept_under};
ghost use Rattle.tmem_desk.specs.Numbering.{with_numbers};
ghost use Rattle.tmem_desk.specs.Serving.{Takes, Runs, HasNoPlan, MayWait, kept_as};

use crate::copying::copy_of;
use crate::desk::Desk;
use crate::held::WaitCondition;
use crate::leading::begins_with_puts;
use crate::naming::ServedNaming;
use crate::ready::Ready;
use crate::served::ServedStore;
use tmem_answers::{Answer, Stats};
use tmem_fault::{Fault, Name};
use tmem_tree::Tx;

/// The most transactions that are kept.
pub const MOST_KEPT: usize = 256;

/// A transaction that is kept under a word.
#[derive(Drop)]
pub(crate) struct Kept<N: ServedNaming> {
    pub(crate) word: Name,
    pub(crate) ready: Ready<N>,
}

impl<N: ServedNaming> Desk<N> {
    // Keeps a transaction under a word, in place of one that was kept under it.
    pub(crate) fn keep<V: ServedStore<N>>(
        &mut self,
        service: &V,
        id: i64,
        word: Name,
        tx: Tx,
    ) -> Result<(), Fault>
        ensures ok { OnOk result (Takes (store N.name.start N.opening N.program N.arities N.always) id (Keep word tx) (desk_view self.old) (desk_view self.new)) }
        ensures err { IfErr result (λ f. f ≡ Fault.Memory) }
    {
        match service.plan(tx) {
            Ok(ready) => self.keep_ready(id, word, ready),
            Err(cause) => self.tell(id, Answer::Fault(Fault::BadPlan(cause))),
        }
    }

    // Keeps a plan under a word.
    fn keep_ready(&mut self, id: i64, word: Name, ready: Ready<N>) -> Result<(), Fault>
        ensures ok { OnOk result (desk_view self.new ≡ kept_as id word ready.plan.tree (desk_view self.old)) }
        ensures err { IfErr result (λ f. f ≡ Fault.Memory) }
    {
        match self.index_kept(&word) {
            Some(index) => {
                self.kept[index] = Kept { word, ready };
                self.tell(id, Answer::Kept(word))
            }
            None => self.keep_more(id, word, ready),
        }
    }

    // Keeps one more, unless as many are kept as may be.
    fn keep_more(&mut self, id: i64, word: Name, ready: Ready<N>) -> Result<(), Fault>
        requires { position (λ k. bytes_eq k.word word) self.old.kept.items ≡ None }
        ensures ok { OnOk result (desk_view self.new ≡ kept_as id word ready.plan.tree (desk_view self.old)) }
        ensures err { IfErr result (λ f. f ≡ Fault.Memory) }
    {
        if self.kept.len() >= MOST_KEPT {
            return self.tell(id, Answer::Fault(Fault::Full));
        }
        self.kept.push(Kept { word, ready })?;
        self.tell(id, Answer::Kept(word))
    }

    // Where a transaction is kept under a word.
    fn index_kept(&self, word: &Name) -> Option<usize>
        ensures { result ≡ position (λ k. bytes_eq k.word word.now) self.now.kept.items }
    {
        self.kept.iter().position(|one| one.word == *word)
    }

    // Runs the transaction that is kept under a word as `do`, with these numbers for those of the `Put`s that it begins with.
    pub(crate) fn run_kept<V: ServedStore<N>>(
        &mut self,
        service: &V,
        id: i64,
        word: &Name,
        numbers: &[i64],
    ) -> Result<(), Fault>
        ensures ok { OnOk result (Runs (store N.name.start N.opening N.program N.arities N.always) id numbers.now (kept_under word.now (desk_view self.old).kept) (desk_view self.old) (desk_view self.new)) }
        ensures err { IfErr result (λ f. OrMemory f (LearnsOnly (desk_view self.old) (desk_view self.new))) }
    {
        let Some(index) = self.index_kept(word) else {
            return self.tell(id, Answer::Found(false));
        };
        let tree = self.kept[index].ready.plan.tree();
        if !begins_with_puts(tree, numbers.len()) {
            return self.tell(id, Answer::Found(false));
        }
        let copy = copy_of(self.alloc, tree)?;
        self.run_copy(service, id, copy, numbers)
    }

    // Runs a copy of a transaction that was kept, with these numbers.
    fn run_copy<V: ServedStore<N>>(
        &mut self,
        service: &V,
        id: i64,
        copy: Tx,
        numbers: &[i64],
    ) -> Result<(), Fault>
        ensures ok { OnOk result (HasNoPlan (store N.name.start N.opening N.program N.arities N.always) id copy (desk_view self.old) (desk_view self.new) ⊎ MayWait (store N.name.start N.opening N.program N.arities N.always) id (Do (with_numbers numbers.now copy)) (desk_view self.old) (desk_view self.new)) }
        ensures err { IfErr result (λ f. OrMemory f (LearnsOnly (desk_view self.old) (desk_view self.new))) }
    {
        match service.plan(copy) {
            Ok(mut ready) => {
                ready.set_numbers(numbers);
                self.take_held(service, id, WaitCondition::Plan(ready))
            }
            Err(cause) => self.tell(id, Answer::Fault(Fault::BadPlan(cause))),
        }
    }

    // Tells what was counted.
    pub(crate) fn tell_stats<V: ServedStore<N>>(
        &mut self,
        service: &V,
        id: i64,
    ) -> Result<(), Fault>
        ensures ok { OnOk result (Takes (store N.name.start N.opening N.program N.arities N.always) id StatsOf (desk_view self.old) (desk_view self.new)) }
        ensures err { IfErr result (λ f. f ≡ Fault.Memory) }
    {
        let log = service.log();
        let stats = Stats {
            committed: self.counts.committed,
            refused: self.counts.refused,
            conflicts: self.counts.conflicts,
            flushes: log.flushes,
            checkpoints: log.checkpoints,
            waiting: self.waiting.len() as u64,
            kept: self.kept.len() as u64,
            free_slots: u64::from(log.free_slots),
        };
        self.tell(id, Answer::Stats(stats))
    }
}
