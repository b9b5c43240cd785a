//! What is to be done.
ghost use Rattle.std.specs.Prelude.{◌≡◌, ◌⊎◌, None, Some, Err, IfOk, IfErr};
ghost use Rattle.command_words.specs.Items.{texts_of};
ghost use Rattle.gluon_top.specs.Tasks.{task_of_job, task_of};

use command_words::{Job, RunWords, WordsFault, read_words};
use edge_owner::Rules;
use graph_model::Way;
use job_text::Fault;
use program_runs::Program;
use std::alloc::Global;

/// What is to be done.
#[derive(Clone, Copy, Debug, PartialEq, Eq)]
pub enum Task {
    /// Run a program over hosts.
    Run {
        /// The program.
        program: Program,
        /// How it is to be run.
        run: RunWords,
    },
    /// Write the file of the graph that is made of a size and a number.
    Make {
        /// The number of nodes, from 1 to 1,000,000.
        size: u32,
        /// The number that draws the edges.
        number: u64,
    },
    /// Tell the master of each vertex and the owner of each edge.
    Owners {
        /// The number of hosts, from 1 to 64.
        hosts: u16,
        /// The rules by which the graph is shared out.
        rules: Rules,
    },
    /// Tell the proxies of each host, and the lists that hosts agree on.
    Proxies {
        /// The number of hosts, from 1 to 64.
        hosts: u16,
        /// The rules by which the graph is shared out.
        rules: Rules,
        /// How edges are followed.
        way: Way,
    },
    /// Run the four programs over hosts on the graph that is made of a size and a number, and tell what they
    /// find.
    Selfrun {
        /// The number of nodes, from 1 to 1,000,000.
        size: u32,
        /// The number that draws the edges.
        number: u64,
        /// The number of hosts, from 1 to 64.
        hosts: u16,
        /// The rules by which the graph is shared out.
        rules: Rules,
        /// The number that chooses the order of events.
        order: u64,
    },
}

/// The task that the words ask for.
pub(crate) fn read_task(alloc: Global, words: &[String]) -> Result<Task, Fault>
    ensures task { IfOk result (λ task. task_of (texts_of words.now) ≡ Some task) }
    ensures refused { result ≡ Err Fault.Words → task_of (texts_of words.now) ≡ None }
    ensures faults { IfErr result (λ fault. (fault ≡ Fault.Words) ⊎ (fault ≡ Fault.Memory)) }
{
    match read_words(alloc, words) {
        Ok(job) => Ok(task_of_job(job)),
        Err(WordsFault::Refused) => Err(Fault::Words),
        Err(WordsFault::Memory) => Err(Fault::Memory),
    }
}

/// The task of a job.
fn task_of_job(job: Job) -> Task
    ensures { result ≡ task_of_job job }
{
    match job {
        Job::Bfs { root, run } => Task::Run {
            program: Program::Bfs { root },
            run,
        },
        Job::Sssp { root, run } => Task::Run {
            program: Program::Sssp { root },
            run,
        },
        Job::Cc { run } => Task::Run {
            program: Program::Cc,
            run,
        },
        Job::Kcore { k, run } => Task::Run {
            program: Program::Kcore { k },
            run,
        },
        Job::Owners { hosts, rules } => Task::Owners { hosts, rules },
        Job::Proxies { hosts, rules, way } => Task::Proxies { hosts, rules, way },
        Job::Make { size, number } => Task::Make { size, number },
        Job::Selfrun {
            size,
            number,
            hosts,
            rules,
            order,
        } => Task::Selfrun {
            size,
            number,
            hosts,
            rules,
            order,
        },
    }
}
