//! What is done for a task before anything is written.
ghost use Rattle.std.specs.Prelude.{◌≡◌, ◌≢◌, IfOk, IfErr, IfSome, None, Err, false};
ghost use Rattle.command_words.specs.Items.{texts_of};
ghost use Rattle.job_text.specs.Fault.{cause_of};
ghost use Rattle.gluon_top.specs.Tasks.{task_of, reads_input, runs_program, has_order, HasNoBudget, BeginsAs};
ghost use Rattle.gluon_top.specs.Meaning.{Answer, meaning_of, OfInput};
ghost use Rattle.gluon_top.specs.Outcome.{Finds, WordsRefused, Counts, IfMeant, LeftAfter};
ghost use Rattle.gluon_top.specs.Prepared.{IsGood, IsReady, IsFree, AsksFirst, is_run};
ghost use Rattle.program_runs.specs.Programs.{root_of};

use crate::answers::Answers;
use crate::owners::owners;
use crate::proxies::proxies;
use crate::shares::load_shares;
use crate::task::{Task, read_task};
use command_words::RunWords;
use graph_maker::make;
use io_edge::{Picker, Source};
use job_text::Fault;
use program_runs::Program;
use proxy_graph::LocalGraph;
use std::alloc::Global;
use trial_runs::run_trial;

/// What was prepared for a task: all that can be a fault of words and bytes is known.
#[derive(Drop)]
pub(crate) enum Prepared {
    /// A program, how it is to be run, and the local graph of each host.
    Run(Program, RunWords, Vec<LocalGraph>),
    /// What a task that is no run came to.
    Told(Answers),
}

/// What the task that the words ask for needs, over the graph that the source gives where it reads one; or the
/// first fault. For a run, and for a trial, the picker begins from the order that the words ask for; a trial is
/// run here, and asks it for picks.
pub(crate) fn prepare<S: Source, P: Picker>(
    alloc: Global,
    words: &[String],
    source: &mut S,
    picker: &mut P,
) -> Result<Prepared, Fault>
    ensures means { OfInput (texts_of words.now) (S.left source.old) (λ bytes.
        Finds result (S.left source.new) (meaning_of (texts_of words.now) bytes)) }
    ensures answered { IfOk result (λ prepared. (answer : Answer) × IsReady prepared answer) }
    ensures good { IfOk result IsGood }
    ensures kind { IfOk result (λ prepared. is_run prepared ≡ runs_program (task_of (texts_of words.now))) }
    ensures free { IfOk result (λ prepared. HasNoBudget (task_of (texts_of words.now)) → IsFree prepared) }
    ensures words { result ≡ Err Fault.Words → task_of (texts_of words.now) ≡ None }
    ensures refused { task_of (texts_of words.now) ≡ None → WordsRefused result }
    ensures unread { reads_input (task_of (texts_of words.now)) ≡ false → S.left source.new ≡ S.left source.old }
    ensures taken { IfErr result (λ fault. IfMeant (cause_of fault) (IfSome (S.left source.old) (λ bytes.
        LeftAfter bytes fault (S.left source.new)))) }
    ensures counts { Counts result (S.faults source.old) (S.faults source.new) }
    ensures begun { result ≢ Err Fault.Memory → BeginsAs (task_of (texts_of words.now)) (P.begun picker.old) (P.begun picker.new) }
    ensures unbegun { has_order (task_of (texts_of words.now)) ≡ false → P.begun picker.new ≡ P.begun picker.old }
    ensures asked { AsksFirst (task_of (texts_of words.now)) result (P.asked picker.old) (P.asked picker.new) }
{
    match read_task(alloc, words)? {
        Task::Run { program, run } => {
            picker.start(run.order);
            let root = root_of(program);
            let graphs = load_shares(alloc, root, run.hosts, run.rules, run.way, source)?;
            Ok(Prepared::Run(program, run, graphs))
        }
        Task::Make { size, number } => Ok(Prepared::Told(Answers::Made(make(
            alloc, size, number,
        )?))),
        Task::Owners { hosts, rules } => {
            let owned = owners(alloc, hosts, rules, source)?;
            Ok(Prepared::Told(Answers::Owned(owned.0, owned.1)))
        }
        Task::Proxies { hosts, rules, way } => {
            let divided = proxies(alloc, hosts, rules, way, source)?;
            Ok(Prepared::Told(Answers::Divided(divided)))
        }
        Task::Selfrun {
            size,
            number,
            hosts,
            rules,
            order,
        } => {
            picker.start(order);
            let trial = run_trial(alloc, size, number, rules, hosts, picker)?;
            Ok(Prepared::Told(Answers::Tried(trial)))
        }
    }
}

/// The root of a program, where it has one.
fn root_of(program: Program) -> Option<u32>
    ensures { result ≡ root_of program }
{
    match program {
        Program::Bfs { root } | Program::Sssp { root } => Some(root),
        Program::Cc | Program::Kcore { .. } => None,
    }
}
