//! What answers come to.
ghost use Rattle.std.specs.Prelude.{◌≡◌, ◌<◌, ◌≤◌, ◌^◌, None, All, length};
ghost use Rattle.std.specs.List.{slice_index_or};
ghost use Rattle.std.specs.Option.{ForSome};
ghost use Rattle.graph_maker.specs.Summary.{summary_of};
ghost use Rattle.trial_runs.specs.Trials.{own_labels};

use graph_maker::Summary;

/// The summary of answers.
pub(crate) fn summarize(answers: &[Option<u64>]) -> Summary
    requires few { length answers.now ≤ 1000000 }
    requires small { All (λ answer. ForSome answer (λ x. x < 2 ^ 32)) answers.now }
    ensures { result ≡ summary_of answers.now }
{
    let mut summary = Summary::new();
    for answer in answers {
        summary.add(*answer);
    }
    summary
}

/// How many vertices have their own number for their label.
pub(crate) fn count_own(labels: &[Option<u64>]) -> u64
    ensures { result ≡ own_labels (length labels.now) (λ v. slice_index_or labels.now v None) }
{
    let mut count = 0;
    for (v, label) in labels.iter().enumerate() {
        if *label == Some(v as u64) {
            count += 1;
        }
    }
    count
}
