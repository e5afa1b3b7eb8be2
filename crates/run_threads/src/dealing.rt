//! Members that are dealt to workers in turn.
ghost use Rattle.std.specs.Prelude.{◌≡◌, ◌<◌, ◌≤◌, ◌+◌, [], length, vec_len, vec_capacity, IfOk, OnOk};
ghost use Rattle.run_threads.specs.Dealing.{AreIdle, AreNumbered, DealtMore, LastPartMoved, PartsCollected};

use crew_members::Hand;
use cs_base::no_memory::NoMemory;
use std::alloc::Global;
use worker_rounds::Worker;

/// So many workers without members.
pub(crate) fn idle_workers<M: Drop>(alloc: Global, count: u32) -> Result<Vec<Worker<M>>, NoMemory>
    ensures { IfOk result (λ workers. AreIdle count workers.items) }
{
    let mut workers = Vec::new(alloc);
    for number in 0..count {
        workers.push(Worker::new(number, Vec::new(alloc)))?;
    }
    Ok(workers)
}

/// One member more, with this number: it goes to the worker whose number is the same modulo the number of workers.
pub(crate) fn deal<M: Drop>(
    workers: &mut [Worker<M>],
    number: usize,
    member: M,
) -> Result<(), NoMemory>
    requires { 0 < length workers.old }
    ensures dealt { OnOk result (DealtMore number member workers.old workers.new) }
    ensures numbered { OnOk result (AreNumbered workers.old → AreNumbered workers.new) }
{
    let place = number % workers.len();
    workers[place].add(member)?;
    Ok(())
}

/// Moves the last member of a worker, where it is a component, to the end of a list that has room for it.
fn move_last_part<C: Drop, O: Drop, I: Drop>(worker: &mut Worker<Hand<C, O, I>>, parts: &mut Vec<C>)
    requires { vec_len parts.old < vec_capacity parts.old }
    ensures moved { LastPartMoved worker.old.members parts.old.items
        worker.new.members parts.new.items }
    ensures one_more { vec_len parts.new ≤ vec_len parts.old + 1 }
    ensures room { vec_capacity parts.new ≡ vec_capacity parts.old }
{
    if let Some(Hand::Component(part)) = worker.take_last() {
        parts.push_reserved(part);
    }
}

/// Takes so many components that were dealt to workers back, from the last one down, into a list that has room for them.
pub(crate) fn collect_parts<C: Drop, O: Drop, I: Drop>(
    workers: &mut [Worker<Hand<C, O, I>>],
    count: usize,
    parts: &mut Vec<C>,
)
    requires some_worker { 0 < length workers.old }
    requires none { parts.old.items ≡ [] }
    requires room { count ≤ vec_capacity parts.old }
    ensures { PartsCollected count workers.old parts.new.items }
{
    let mut number = count;
    'numbers: while number > 0 {
        number -= 1;
        let from = number % workers.len();
        move_last_part(&mut workers[from], parts);
    }
}
