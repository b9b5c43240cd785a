//! The eight jobs by name, and the options that each has.
ghost use Rattle.std.specs.Prelude.{◌≡◌, map};
ghost use Rattle.command_words.specs.Jobs.{job_name_of, options_of};

/// The name of a job.
#[derive(Clone, Copy, Debug, PartialEq, Eq)]
pub(crate) enum JobName {
    Bfs,
    Sssp,
    Cc,
    Kcore,
    Owners,
    Proxies,
    Make,
    Selfrun,
}

static SEARCH_OPTIONS: [&str; 10] = [
    "root",
    "way",
    "hosts",
    "masters",
    "owner",
    "threshold",
    "rounds",
    "order",
    "report",
    "trace",
];

static CC_OPTIONS: [&str; 9] = [
    "way",
    "hosts",
    "masters",
    "owner",
    "threshold",
    "rounds",
    "order",
    "report",
    "trace",
];

static KCORE_OPTIONS: [&str; 10] = [
    "k",
    "way",
    "hosts",
    "masters",
    "owner",
    "threshold",
    "rounds",
    "order",
    "report",
    "trace",
];

static OWNERS_OPTIONS: [&str; 4] = ["hosts", "masters", "owner", "threshold"];

static PROXIES_OPTIONS: [&str; 5] = ["way", "hosts", "masters", "owner", "threshold"];

static MAKE_OPTIONS: [&str; 2] = ["size", "number"];

static SELFRUN_OPTIONS: [&str; 7] = [
    "size",
    "number",
    "hosts",
    "masters",
    "owner",
    "threshold",
    "order",
];

/// The job that a job word names.
pub(crate) fn job_name(word: &str) -> Option<JobName>
    ensures { result ≡ job_name_of word.now }
{
    match word {
        "bfs" => Some(JobName::Bfs),
        "sssp" => Some(JobName::Sssp),
        "cc" => Some(JobName::Cc),
        "kcore" => Some(JobName::Kcore),
        "owners" => Some(JobName::Owners),
        "proxies" => Some(JobName::Proxies),
        "make" => Some(JobName::Make),
        "selfrun" => Some(JobName::Selfrun),
        _ => None,
    }
}

/// The names of the options and flags that the job has.
pub(crate) fn options(name: JobName) -> &'static [&'static str]
    ensures { map (λ option. option.now) result.now ≡ options_of name }
{
    match name {
        JobName::Bfs | JobName::Sssp => &SEARCH_OPTIONS,
        JobName::Cc => &CC_OPTIONS,
        JobName::Kcore => &KCORE_OPTIONS,
        JobName::Owners => &OWNERS_OPTIONS,
        JobName::Proxies => &PROXIES_OPTIONS,
        JobName::Make => &MAKE_OPTIONS,
        JobName::Selfrun => &SELFRUN_OPTIONS,
    }
}
