//! The values of options: numbers and choices.
ghost use Rattle.std.specs.Prelude.{◌≡◌, ◌≤◌, option_map};
ghost use Rattle.std.specs.Char.{is_ascii_digit};
ghost use Rattle.std.specs.List.{list_all};
ghost use Rattle.command_words.specs.Values.{number_of, number_or, way_of, masters_of, owner_of};

use cusp_rules::MasterRule;
use edge_owner::OwnerRule;
use graph_model::Way;

/// The number that a text writes in one to twenty digits, where it lies from `least` to `most`.
pub(crate) fn number(text: &str, least: u64, most: u64) -> Option<u64>
    ensures { result ≡ number_of least most text.now }
{
    if text.len() > 20 || !are_digits(text.as_bytes()) {
        return None;
    }
    let value = text.parse::<u64>().ok()?;
    if value < least || value > most {
        return None;
    }
    Some(value)
}

/// Whether all of these bytes are digits.
fn are_digits(bytes: &[u8]) -> bool
    ensures { result ≡ list_all is_ascii_digit bytes.now }
{
    bytes.iter().all(u8::is_ascii_digit)
}

/// The same of an option that may be left out.
pub(crate) fn number_or(default: u64, text: Option<&str>, least: u64, most: u64) -> Option<u64>
    ensures { result ≡ number_or default least most (option_map (λ given. given.now) text.entry) }
{
    match text {
        Some(text) => number(text, least, most),
        None => Some(default),
    }
}

/// The way that a value names, where `auto` stands for this one.
pub(crate) fn way(text: Option<&str>, auto: Way) -> Option<Way>
    ensures { result ≡ way_of auto (option_map (λ given. given.now) text.entry) }
{
    match text {
        None | Some("auto") => Some(auto),
        Some("out") => Some(Way::Outward),
        Some("in") => Some(Way::Inward),
        Some("both") => Some(Way::Both),
        Some(_) => None,
    }
}

/// The rule for masters that a value names.
pub(crate) fn masters(text: Option<&str>) -> Option<MasterRule>
    ensures { result ≡ masters_of (option_map (λ given. given.now) text.entry) }
{
    match text {
        None | Some("edges") => Some(MasterRule::Edges),
        Some("nodes") => Some(MasterRule::Nodes),
        Some(_) => None,
    }
}

/// The rule for owners that a value names, with the threshold where that rule has one.
pub(crate) fn owner(text: Option<&str>, threshold: u32) -> Option<OwnerRule>
    ensures { result ≡ owner_of threshold (option_map (λ given. given.now) text.entry) }
{
    match text {
        None | Some("source") => Some(OwnerRule::Source),
        Some("dest") => Some(OwnerRule::Dest),
        Some("hybrid") => Some(OwnerRule::Hybrid(threshold)),
        Some("cartesian") => Some(OwnerRule::Cartesian),
        Some(_) => None,
    }
}
