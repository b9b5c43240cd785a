//! What the answers of a graph come to.
ghost use Rattle.std.specs.Prelude.{◌≡◌, ◌+◌, ◌^◌, ◌<◌, List, [], ◌∷◌, ◌++◌, Option, IfNone, IfSome, max, ℕ};
ghost use Rattle.std.specs.Option.{ForSome};

/// What values come to, of which some may be missing: a missing value has no part in it.
#[derive(Clone, Copy, Debug, PartialEq, Eq)]
pub struct Summary {
    /// How many values are there. Where values are distances, these are the nodes that walks reach.
    pub reached: u64,

    /// Their sum.
    pub sum: u64,

    /// The greatest of them, and 0 where there is none.
    pub greatest: u64,
}

impl Summary {
    ghost use Rattle.graph_maker.specs.Summary.{summary_of};

    /// The summary of no values.
    pub fn new() -> Summary
        ensures zeros { result ≡ record { reached = 0; sum = 0; greatest = 0 } }
        ensures none { result ≡ summary_of [] }
    {
        Summary {
            reached: 0,
            sum: 0,
            greatest: 0,
        }
    }

    /// Takes one more value into the summary. A missing one changes nothing.
    pub fn add(&mut self, value: Option<u64>)
        requires count_fits { ForSome value (λ _. self.old.reached + 1 < 2 ^ 64) }
        requires sum_fits { ForSome value (λ x. self.old.sum + x < 2 ^ 64) }
        ensures missing { IfNone value (self.new ≡ self.old) }
        ensures reached { IfSome value (λ _. self.new.reached ≡ self.old.reached + 1) }
        ensures sum { IfSome value (λ x. self.new.sum ≡ self.old.sum + x) }
        ensures greatest { IfSome value (λ x. self.new.greatest ≡ max self.old.greatest x) }

        // Values added one by one give the summary of their list.
        ensures of_list { (values : List (Option ℕ)) → self.old ≡ summary_of values
            → self.new ≡ summary_of (values ++ value ∷ []) }
    {
        if let Some(x) = value {
            self.reached += 1;
            self.sum += x;
            self.greatest = self.greatest.max(x);
        }
    }
}
