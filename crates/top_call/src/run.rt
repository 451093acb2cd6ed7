ghost use Rattle.std.specs.Prelude.{◌≡◌, ◌↔◌, ◌⊎◌, ℕ, ◌<◌, ◌≤◌, List, [], length, Option, Some, None, true, false};
ghost use Rattle.io_edge.specs.Rose.{Rose};
ghost use Rattle.io_edge.specs.Gained.{Gained, GainedFront};
ghost use Rattle.query_core.specs.Answers.{answers};
ghost use Rattle.sql_print.specs.Text.{text};
ghost use Rattle.task_read.specs.Told.{WhenReady, WhenFaulty};
ghost use Rattle.task_read.specs.Task.{task_told};
ghost use Rattle.task_read.specs.declared.fault.TaskFault.{TaskFault as Fault};
ghost use Rattle.command_line.specs.Command.{command, file_of};
ghost use Rattle.command_line.specs.declared.request.Request.TheVariants.{Run, Plain};
ghost use Rattle.top_call.specs.Need.{need, is_allowed};
ghost use Rattle.top_call.specs.Size.{has_few_skeletons};
ghost use Rattle.top_call.specs.Line.{line};
ghost use Rattle.top_call.specs.Listing.{Runs, RunsWords, lists_plainly};
ghost use Rattle.top_call.specs.Promise.{is_plain, asks_plainly, asked, IsReadIn, NoneUnread, UnlessReadFault, IsUnwritten, IfReady, IsRefused, RefusedAs, AnswersTask};
ghost use Rattle.top_call.specs.declared.end.End.TheVariants.{Listed, Empty, Usage, BadTask, ReadFault, WriteFault, OutOfMemory, TooMany, OverBudget};

use crate::end::End;
use crate::line::write_line;
use crate::listing::{Engine, Listing, answer};
use command_line::{Request, command};
use io_edge::{Folder, Gate, Sink};
use std::alloc::Global;
use std::thread::Threads;
use task_read::{TaskEnd, read_task};
use value_core::Bytes;

// The end of a run whose task wasn't read.
fn end_of(unread: TaskEnd) -> End
    ensures read { (file : List ℕ) → unread ≡ TaskEnd.ReadFault file → result ≡ End.ReadFault file }
    ensures bad { (fault : Fault) → unread ≡ TaskEnd.Bad fault → result ≡ End.BadTask fault }
    ensures memory { (result ≡ End.OutOfMemory) ↔ (unread ≡ TaskEnd.OutOfMemory) }
{
    match unread {
        TaskEnd::ReadFault { file } => End::ReadFault { file },
        TaskEnd::Bad(fault) => End::BadTask(fault),
        TaskEnd::OutOfMemory => End::OutOfMemory,
    }
}

// Reads the task of a file, lists its answers and writes its text.
fn run_file<R: Threads + Sync, F: Folder, K: Sink>(
    alloc: Global,
    file: &Bytes,
    listing: &Listing<'_, R>,
    folder: &mut F,
    out: &mut K,
) -> End
    ensures runs { Runs (F.told folder.old) (F.faults folder.old) (F.faults folder.new) (lists_plainly listing.now.engine) file.now (K.written out.old) (K.written out.new) (K.faults out.old) (K.faults out.new) result }
    ensures still { UnlessReadFault result ((n : List ℕ) → F.faults folder.new n ≡ F.faults folder.old n) }
{
    match read_task(alloc, folder, file.as_slice()) {
        Ok(task) => answer(alloc, &task, listing, out),
        Err(unread) => end_of(unread),
    }
}

// Does what is asked for. For now no number of workers changes anything.
fn run_request<R: Threads + Sync, F: Folder, K: Sink>(
    rt: &R,
    alloc: Global,
    request: &Request,
    folder: &mut F,
    out: &mut K,
) -> End
    ensures runs { Runs (F.told folder.old) (F.faults folder.old) (F.faults folder.new) (is_plain request.now) (file_of request.now) (K.written out.old) (K.written out.new) (K.faults out.old) (K.faults out.new) result }
    ensures still { UnlessReadFault result ((n : List ℕ) → F.faults folder.new n ≡ F.faults folder.old n) }
{
    match request {
        Request::Run { file, .. } => {
            run_file(alloc, file, &Listing::of(rt, Engine::Search), folder, out)
        }
        Request::Plain { file } => {
            run_file(alloc, file, &Listing::of(rt, Engine::Plain), folder, out)
        }
    }
}

// Runs what the words ask for.
fn run<R: Threads + Sync, F: Folder, K: Sink>(
    rt: &R,
    alloc: Global,
    words: &[Bytes],
    folder: &mut F,
    out: &mut K,
) -> End
    ensures runs { RunsWords (F.told folder.old) (F.faults folder.old) (F.faults folder.new) (command words.now) (K.written out.old) (K.written out.new) (K.faults out.old) (K.faults out.new) result }
    ensures still { UnlessReadFault result ((n : List ℕ) → F.faults folder.new n ≡ F.faults folder.old n) }
{
    let Ok(request) = command(alloc, words) else {
        return End::OutOfMemory;
    };
    match request {
        Some(request) => run_request(rt, alloc, &request, folder, out),
        None => End::Usage,
    }
}

/// Runs the program on its words: `run FILE` reads the task of a file and writes the text of its answers, best first; `plain FILE` writes the same text, whatever the task's budget.
///
/// `words` are those after the program's name. The text goes to `out`, and the line of any other end to `err`.
pub fn scythe<R: Threads + Sync, F: Folder, K: Sink, E: Sink, G: Gate + Sync>(
    rt: &R,
    alloc: Global,
    words: &[Bytes],
    folder: &mut F,
    out: &mut K,
    err: &mut E,
    gate: &G,
) -> End
    // The headline: the text is that of the task, and the number is that of its answers.
    ensures listed { (n : ℕ) → result ≡ Listed n → WhenReady (asked (F.told folder.old) words.now) (λ task. ((n ≡ length (answers task)) × (0 < n)) × Gained (K.written out.old) (K.written out.new) (text task)) }
    ensures empty { result ≡ Empty → WhenReady (asked (F.told folder.old) words.now) (λ task. (answers task ≡ []) × Gained (K.written out.old) (K.written out.new) (text task)) }

    // When each other end comes.
    ensures usage { result ≡ Usage → command words.now ≡ None }
    ensures not_understood { command words.now ≡ None → (result ≡ Usage) ⊎ (result ≡ OutOfMemory) }
    ensures bad_task { (fault : Fault) → result ≡ BadTask fault → WhenFaulty (asked (F.told folder.old) words.now) (λ first. fault ≡ first) }
    ensures too_many { result ≡ TooMany → WhenReady (asked (F.told folder.old) words.now) (λ task. has_few_skeletons task ≡ false) }
    ensures over_budget { result ≡ OverBudget → WhenReady (asked (F.told folder.old) words.now) (λ task. (has_few_skeletons task ≡ true) × (task.budget < need task)) }
    ensures plain_never_over { (file : List ℕ) → command words.now ≡ Some (Plain file) → ¬ (result ≡ OverBudget) }
    ensures read { (file : List ℕ) → result ≡ ReadFault file → IsReadIn (F.told folder.old) words.now file × Rose (F.faults folder.old file) (F.faults folder.new file) }
    ensures write { result ≡ WriteFault → Rose (K.faults out.old) (K.faults out.new) }
    ensures write_last { result ≡ WriteFault → WhenReady (asked (F.told folder.old) words.now) (λ task. (has_few_skeletons task ≡ true) × (is_allowed (asks_plainly (command words.now)) task ≡ true)) }

    // At every end but `ReadFault`, also where a write failed, no read had failed.
    ensures still { UnlessReadFault result ((file : List ℕ) → F.faults folder.new file ≡ F.faults folder.old file) }

    // Where no read failed, a task that its budget allows is answered unless a write failed or memory ran out, by `plain FILE` whatever its budget, and what is wrong is told.
    ensures complete { NoneUnread (F.told folder.old) (F.faults folder.old) (F.faults folder.new) words.now → ¬ Rose (K.faults out.old) (K.faults out.new) → IfReady (asked (F.told folder.old) words.now) (λ task. has_few_skeletons task ≡ true → need task ≤ task.budget → AnswersTask task result) }
    ensures plain { (file : List ℕ) → command words.now ≡ Some (Plain file) → NoneUnread (F.told folder.old) (F.faults folder.old) (F.faults folder.new) words.now → ¬ Rose (K.faults out.old) (K.faults out.new) → IfReady (task_told (F.told folder.old) file) (λ task. has_few_skeletons task ≡ true → AnswersTask task result) }
    ensures refused { NoneUnread (F.told folder.old) (F.faults folder.old) (F.faults folder.new) words.now → RefusedAs (asked (F.told folder.old) words.now) result }
    ensures overrun { (file : List ℕ) (workers : ℕ) → command words.now ≡ Some (Run file workers) → NoneUnread (F.told folder.old) (F.faults folder.old) (F.faults folder.new) words.now → IfReady (task_told (F.told folder.old) file) (λ task. has_few_skeletons task ≡ true → task.budget < need task → (result ≡ OverBudget) ⊎ (result ≡ OutOfMemory)) }

    // What was written.
    ensures out_front { IfReady (asked (F.told folder.old) words.now) (λ task. GainedFront (K.written out.old) (K.written out.new) (text task)) }
    ensures out_refused { IsRefused (asked (F.told folder.old) words.now) → K.written out.new ≡ K.written out.old }
    ensures out_unasked { command words.now ≡ None → K.written out.new ≡ K.written out.old }
    ensures out_kept { IsUnwritten result → K.written out.new ≡ K.written out.old }
    ensures err_front { GainedFront (E.written err.old) (E.written err.new) (line result) }
    ensures err_whole { Gained (E.written err.old) (E.written err.new) (line result) ⊎ Rose (E.faults err.old) (E.faults err.new) }
{
    let _ = gate;
    let end = run(rt, alloc, words, folder, out);
    let _ = write_line(err, &end);
    end
}
