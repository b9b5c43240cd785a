//! The top call.
ghost use Rattle.std.specs.Prelude.{◌≡◌, ◌≢◌, ◌&&◌, [], ◌∷◌, Contains, Some, None, IfSome, IsOk, IfOk, OnOk, OnErr, false, is_some, nat_eq, Result, Ok, Err};
ghost use Rattle.io_edge.specs.Faults.{Rose, IsQuiet};
ghost use Rattle.io_edge.specs.Bytes.{Gains, GainsPrefix};
ghost use Rattle.command_words.specs.Items.{texts_of};
ghost use Rattle.job_text.specs.declared.fault.Fault.{Fault};
ghost use Rattle.gluon_top.specs.Tasks.{task_of, reads_input, runs_program, has_order, HasNoBudget, BeginsAs};
ghost use Rattle.job_text.specs.Fault.{fault_line};
ghost use Rattle.gluon_top.specs.Meaning.{Answer, IsText, meaning_of, OfInput};
ghost use Rattle.gluon_top.specs.Answers.{text_of, AreFew};
ghost use Rattle.gluon_top.specs.Prepared.{IsGood, IsMeant, GoesAs, RunsAs, will_run};
ghost use Rattle.gluon_top.specs.Outcome.{
  WritesMeaning,
  HasInputFault,
  SpendsBudget,
  LeavesAfterFault,
  RefusesWords,
  WritesFront,
  ReadsFail,
  Writes,
  Completes,
};

use crate::answers::Answers;
use crate::prepared::{Prepared, prepare};
use crate::runs::finish_run;
use gr_writer::write_graph;
use io_edge::{Picker, Sink, SinkFault, Source};
use job_text::{
    DONE, Fault, INPUT_REFUSED, Lines, NO_MEMORY, READ_FAILED, ROUNDS_SPENT, WORDS_REFUSED,
    WRITE_FAILED, write_lines,
};
use program_runs::{LastRun, programs_end};
use std::alloc::Global;

/// How a call ended.
#[derive(Drop)]
pub struct Outcome {
    /// The status with which the program ends: [`DONE`], [`WORDS_REFUSED`], [`INPUT_REFUSED`], [`NO_MEMORY`],
    /// [`ROUNDS_SPENT`], [`WRITE_FAILED`] or [`READ_FAILED`].
    pub status: u8,
    /// The cluster of a run that is done, after its last round; none in all other cases.
    pub last: Option<LastRun>,
}

/// Does the job that the words name, on the graph that the source gives where it reads one, and writes its text
/// or the line of the first fault to the sink, in whole pages. For a run, and for a trial, the picker begins once
/// from the number that the words give, and picks the order of events.
pub fn gluon_main<S: Source, K: Sink, P: Picker>(
    alloc: Global,
    words: &[String],
    source: &mut S,
    sink: &mut K,
    picker: &mut P,
) -> Outcome
    // Whatever bytes come in, what is written is what words and bytes mean, if no read or write fails.
    ensures headline { result.status ≢ NO_MEMORY → IsQuiet (S.faults source.old) (S.faults source.new) →
        IsQuiet (K.faults sink.old) (K.faults sink.new) → OfInput (texts_of words.now) (S.left source.old) (λ bytes.
        WritesMeaning (texts_of words.now) bytes result.status (K.held sink.old) (K.held sink.new)) }
    // A job that is to be done is done, unless memory runs out, and the input is read to its last field.
    ensures complete { OfInput (texts_of words.now) (S.left source.old) (λ bytes.
        IsOk (meaning_of (texts_of words.now) bytes) →
        IsQuiet (S.faults source.old) (S.faults source.new) → IsQuiet (K.faults sink.old) (K.faults sink.new) →
        Completes (meaning_of (texts_of words.now) bytes) result.status (S.left source.new)
        (K.held sink.old) (K.held sink.new)) }
    // Without a number of rounds a run always comes to its end.
    ensures free { HasNoBudget (task_of (texts_of words.now)) → result.status ≢ ROUNDS_SPENT }
    // A run goes by hosts: the cluster that is handed back stands for its last round, and the picker was asked
    // for each event. So do the runs of a trial.
    ensures hosts { OfInput (texts_of words.now) (S.left source.old) (λ bytes.
        RunsAs (meaning_of (texts_of words.now) bytes) result.status result.last (P.asked picker.old) (P.asked picker.new)) }
    // Where the words are refused, or ask for a job that needs no input, none is read.
    ensures unread { reads_input (task_of (texts_of words.now)) ≡ false → S.left source.new ≡ S.left source.old }

    // No other status comes.
    ensures known { Contains
        (DONE ∷ WORDS_REFUSED ∷ INPUT_REFUSED ∷ NO_MEMORY ∷ ROUNDS_SPENT ∷ WRITE_FAILED ∷ READ_FAILED ∷ []) result.status }
    // 2 comes exactly where the words are refused, no write failed and memory sufficed.
    ensures words_only { result.status ≡ WORDS_REFUSED → task_of (texts_of words.now) ≡ None }
    ensures words { task_of (texts_of words.now) ≡ None →
        RefusesWords result.status (K.held sink.old) (K.held sink.new) }
    // 3 comes exactly where the input has a fault, and no read or write failed.
    ensures input_only { result.status ≡ INPUT_REFUSED → OfInput (texts_of words.now) (S.left source.old) (λ bytes.
        HasInputFault (meaning_of (texts_of words.now) bytes)) }
    ensures input { OfInput (texts_of words.now) (S.left source.old) (λ bytes.
        HasInputFault (meaning_of (texts_of words.now) bytes) → result.status ≢ NO_MEMORY →
        result.status ≢ WRITE_FAILED → result.status ≢ READ_FAILED → result.status ≡ INPUT_REFUSED) }
    // After it, what follows the section with the fault is left.
    ensures taken { result.status ≡ INPUT_REFUSED → OfInput (texts_of words.now) (S.left source.old) (λ bytes.
        LeavesAfterFault (meaning_of (texts_of words.now) bytes) bytes (S.left source.new)) }
    // 5 comes exactly where the graph calls for more rounds than a run may have, and no read or write failed.
    ensures spent_only { result.status ≡ ROUNDS_SPENT → OfInput (texts_of words.now) (S.left source.old) (λ bytes.
        SpendsBudget (meaning_of (texts_of words.now) bytes)) }
    ensures spent { OfInput (texts_of words.now) (S.left source.old) (λ bytes.
        SpendsBudget (meaning_of (texts_of words.now) bytes) → result.status ≢ NO_MEMORY →
        result.status ≢ WRITE_FAILED → result.status ≢ READ_FAILED → result.status ≡ ROUNDS_SPENT) }
    // Where memory ran out, nothing was written.
    ensures memory { result.status ≡ NO_MEMORY → K.held sink.new ≡ K.held sink.old }
    // 6 comes exactly where a write failed, and then a front of the text was written.
    ensures write_only { result.status ≡ WRITE_FAILED → Rose (K.faults sink.old) (K.faults sink.new) }
    ensures write { result.status ≢ WRITE_FAILED → K.faults sink.new ≡ K.faults sink.old }
    ensures front { result.status ≡ WRITE_FAILED → WritesFront (texts_of words.now) (S.left source.old)
        (S.faults source.old) (S.faults source.new) (K.held sink.old) (K.held sink.new) }
    // 7 comes exactly where a read failed and no write did, and then its line alone was written.
    ensures read_only { result.status ≡ READ_FAILED →
        ReadsFail (S.faults source.old) (S.faults source.new) (K.held sink.old) (K.held sink.new) }
    ensures read { result.status ≢ WRITE_FAILED → result.status ≢ READ_FAILED →
        S.faults source.new ≡ S.faults source.old }

    // The cluster of a run is handed back exactly where it is done.
    ensures last { is_some result.last ≡ (nat_eq result.status 0 && runs_program (task_of (texts_of words.now))) }
    // For a run and for a trial the picker begins from its order; other jobs leave it alone.
    ensures begun { result.status ≢ NO_MEMORY →
        BeginsAs (task_of (texts_of words.now)) (P.begun picker.old) (P.begun picker.new) }
    ensures unbegun { has_order (task_of (texts_of words.now)) ≡ false → P.begun picker.new ≡ P.begun picker.old }
    ensures unasked { has_order (task_of (texts_of words.now)) ≡ false → P.asked picker.new ≡ P.asked picker.old }
{
    programs_end();
    let prepared = prepare(alloc, words, source, picker);
    finish(alloc, prepared, sink, picker)
}

/// Writes what is meant by what was prepared, and answers how the call ended.
fn finish<K: Sink, P: Picker>(
    alloc: Global,
    prepared: Result<Prepared, Fault>,
    sink: &mut K,
    picker: &mut P,
) -> Outcome
    requires { IfOk prepared IsGood }
    ensures written { (meaning : Result Answer Fault) → IsMeant prepared meaning → Writes meaning
        (K.faults sink.old) (K.faults sink.new) (K.held sink.old) (K.held sink.new) result.status }
    ensures hosts { (meaning : Result Answer Fault) → IsMeant prepared meaning → GoesAs meaning
        result.status result.last (P.asked picker.old) (P.asked picker.new) }
    ensures last { is_some result.last ≡ (nat_eq result.status 0 && will_run prepared) }
    ensures unasked { will_run prepared ≡ false → P.asked picker.new ≡ P.asked picker.old }
    ensures begun { P.begun picker.new ≡ P.begun picker.old }
{
    match prepared {
        Ok(Prepared::Run(program, run, graphs)) => {
            finish_run(alloc, program, run, graphs, sink, picker)
        }
        Ok(Prepared::Told(answers)) => Outcome {
            status: write_told(sink, &answers),
            last: None,
        },
        Err(fault) => Outcome {
            status: write_fault(sink, fault),
            last: None,
        },
    }
}

/// The status of a task that is no run: done, once its text was written, or that of a write that failed.
fn write_told<K: Sink>(sink: &mut K, answers: &Answers) -> u8
    requires { AreFew answers.now }
    ensures { (answer : Answer) → IsText answer (text_of answers.now) → Writes (Ok answer)
        (K.faults sink.old) (K.faults sink.new) (K.held sink.old) (K.held sink.new) result }
{
    status_after(write_answers(sink, answers), DONE)
}

/// The status of a fault whose line was written, or that of a write that failed. Want of memory has no line.
fn write_fault<K: Sink>(sink: &mut K, fault: Fault) -> u8
    ensures { Writes (Err fault) (K.faults sink.old) (K.faults sink.new) (K.held sink.old) (K.held sink.new) result }
{
    let status = fault.status();
    if status == NO_MEMORY {
        return status;
    }
    status_after(write_lines(sink, Lines::Fault(fault)), status)
}

/// This status, or that of a write that failed.
fn status_after(written: Result<(), SinkFault>, status: u8) -> u8
    ensures ok { OnOk written (result ≡ status) }
    ensures failed { OnErr written (result ≡ WRITE_FAILED) }
{
    match written {
        Ok(()) => status,
        Err(SinkFault) => WRITE_FAILED,
    }
}

/// Writes the text of what a task came to, in whole pages.
fn write_answers<K: Sink>(sink: &mut K, answers: &Answers) -> Result<(), SinkFault>
    requires { AreFew answers.now }
    ensures whole { OnOk result (Gains (K.held sink.old) (K.held sink.new) (text_of answers.now)) }
    ensures quiet { OnOk result (K.faults sink.new ≡ K.faults sink.old) }
    ensures rose { OnErr result (Rose (K.faults sink.old) (K.faults sink.new)) }
    ensures prefix { OnErr result (GainsPrefix (K.held sink.old) (K.held sink.new) (text_of answers.now)) }
{
    match answers {
        Answers::Made(graph) => write_graph(sink, graph, 4),
        Answers::Owned(list, plan) => write_lines(sink, Lines::Owners(list, plan)),
        Answers::Divided(divided) => write_lines(
            sink,
            Lines::Divided {
                graphs: &divided.graphs,
                memos: &divided.memos,
                way: divided.way,
            },
        ),
        Answers::Tried(trial) => write_lines(sink, Lines::Trial(*trial)),
    }
}
