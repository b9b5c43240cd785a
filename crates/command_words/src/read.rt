//! From words to a job.
ghost use Rattle.std.specs.Prelude.{◌≡◌, IfOk, Err, None, Some, codes};
ghost use Rattle.std.specs.List.{list_any};
ghost use Rattle.std.specs.Str.{bytes_eq};
ghost use Rattle.command_words.specs.Items.{texts_of};
ghost use Rattle.command_words.specs.Found.{said_by, says_only};
ghost use Rattle.command_words.specs.Values.{number_needed};
ghost use Rattle.command_words.specs.Jobs.{job_of, job_said, job_named as job_of_name, run_said, hosts_said, rules_said, rounds_said, order_said, size_said, made_number_said, greatest};

use crate::command::{parsed, text};
use crate::fault::WordsFault;
use crate::job::{Job, RunWords};
use crate::job_name::{JobName, job_name, options};
use crate::values::{masters, number, number_or, owner, way};
use clap::ArgMatches;
use edge_owner::Rules;
use graph_model::Way;
use std::alloc::Global;

/// The labels of all options and flags.
static LABELS: [&str; 13] = [
    "root",
    "k",
    "way",
    "hosts",
    "masters",
    "owner",
    "threshold",
    "rounds",
    "order",
    "size",
    "number",
    "report",
    "trace",
];

/// The job that the words after the program's name ask for.
pub fn read_words(alloc: Global, words: &[String]) -> Result<Job, WordsFault>
    ensures means { IfOk result (λ job. job_of (texts_of words.now) ≡ Some job) }
    ensures refused { result ≡ Err WordsFault.Refused → job_of (texts_of words.now) ≡ None }
{
    let matches = parsed(alloc, words)?;
    job(&matches).ok_or(WordsFault::Refused)
}

/// The job that is said.
fn job(matches: &ArgMatches<'_>) -> Option<Job>
    ensures { result ≡ job_said (said_by matches.now) }
{
    let name = job_name(text(matches, "job")?)?;
    if has_only(&LABELS, options(name), matches) {
        job_named(name, matches)
    } else {
        None
    }
}

/// Whether of these labels none is said but the options.
#[tactic(auto, unfolding(crate::specs::Found::says_only))]
fn has_only(labels: &[&str], options: &[&str], matches: &ArgMatches<'_>) -> bool
    ensures { result ≡ says_only labels.now options.now (said_by matches.now) }
{
    labels.iter().all(|label| is_among(label, options) || text(matches, label).is_none())
}

/// Whether a text is one of these.
fn is_among(text: &str, texts: &[&str]) -> bool
    ensures { result ≡ list_any (λ other. bytes_eq other.now text.now) texts.now }
{
    texts.iter().any(|other| *other == text)
}

fn job_named(name: JobName, matches: &ArgMatches<'_>) -> Option<Job>
    ensures { result ≡ job_of_name name (said_by matches.now) }
{
    match name {
        JobName::Bfs => Some(Job::Bfs {
            root: whole(matches, "root")?,
            run: run(matches, Way::Outward)?,
        }),
        JobName::Sssp => Some(Job::Sssp {
            root: whole(matches, "root")?,
            run: run(matches, Way::Outward)?,
        }),
        JobName::Cc => Some(Job::Cc {
            run: run(matches, Way::Both)?,
        }),
        JobName::Kcore => Some(Job::Kcore {
            k: whole(matches, "k")?,
            run: run(matches, Way::Outward)?,
        }),
        JobName::Owners => Some(Job::Owners {
            hosts: hosts(matches)?,
            rules: rules(matches)?,
        }),
        JobName::Proxies => Some(Job::Proxies {
            hosts: hosts(matches)?,
            rules: rules(matches)?,
            way: way(text(matches, "way"), Way::Outward)?,
        }),
        JobName::Make => Some(Job::Make {
            size: size(matches)?,
            number: made_number(matches)?,
        }),
        JobName::Selfrun => Some(Job::Selfrun {
            size: size(matches)?,
            number: made_number(matches)?,
            hosts: hosts(matches)?,
            rules: rules(matches)?,
            order: order(matches)?,
        }),
    }
}

/// How a vertex program is run, by its own way.
fn run(matches: &ArgMatches<'_>, auto: Way) -> Option<RunWords>
    ensures { result ≡ run_said auto (said_by matches.now) }
{
    Some(RunWords {
        hosts: hosts(matches)?,
        rules: rules(matches)?,
        way: way(text(matches, "way"), auto)?,
        rounds: rounds(matches)?,
        order: order(matches)?,
        report: text(matches, "report").is_some(),
        trace: text(matches, "trace").is_some(),
    })
}

fn hosts(matches: &ArgMatches<'_>) -> Option<u16>
    ensures { result ≡ hosts_said (said_by matches.now) }
{
    Some(number_or(4, text(matches, "hosts"), 1, 64)? as u16)
}

fn rules(matches: &ArgMatches<'_>) -> Option<Rules>
    ensures { result ≡ rules_said (said_by matches.now) }
{
    let masters = masters(text(matches, "masters"))?;
    let threshold = number_or(1000, text(matches, "threshold"), 0, 4294967295)? as u32;
    let owner = owner(text(matches, "owner"), threshold)?;
    Some(Rules { masters, owner })
}

fn rounds(matches: &ArgMatches<'_>) -> Option<Option<u32>>
    ensures { result ≡ rounds_said (said_by matches.now (codes "rounds")) }
{
    match text(matches, "rounds") {
        Some(text) => Some(Some(number(text, 1, 4294967295)? as u32)),
        None => Some(None),
    }
}

fn order(matches: &ArgMatches<'_>) -> Option<u64>
    ensures { result ≡ order_said (said_by matches.now) }
{
    number_or(0, text(matches, "order"), 0, u64::MAX)
}

fn size(matches: &ArgMatches<'_>) -> Option<u32>
    ensures { result ≡ size_said (said_by matches.now) }
{
    Some(number(text(matches, "size")?, 1, 1_000_000)? as u32)
}

fn made_number(matches: &ArgMatches<'_>) -> Option<u64>
    ensures { result ≡ made_number_said (said_by matches.now) }
{
    number_or(1, text(matches, "number"), 0, u64::MAX)
}

/// A number of 32 bits that must be said.
fn whole(matches: &ArgMatches<'_>, label: &str) -> Option<u32>
    ensures { result ≡ number_needed 0 greatest (said_by matches.now label.now) }
{
    Some(number(text(matches, label)?, 0, 4294967295)? as u32)
}
