//! The numbers and flags of options.
ghost use Rattle.std.specs.Prelude.{◌≡◌, ◌<◌, ◌^◌, ℕ, IfNone, IfSome};
ghost use Rattle.usi_arguments.specs.CommandLine.{HasNoNumber, HasNumber, IsNumber, is_set, options_in};

use clap::ArgMatches;

/// The number below 2 to the power 64 that a text writes in decimal digits alone. `parse` would
/// also take a leading `+`.
fn digits_alone(text: &str) -> Option<usize>
    ensures some { IfSome result (λ n. IsNumber text.now n) }
    ensures if_none { IfNone result ((n : ℕ) → n < 2 ^ 64 → IsNumber text.now n → ⊥) }
{
    if text.as_bytes().first() == Some(&b'+') {
        return None;
    }
    text.parse::<usize>().ok()
}

/// The number of an option, if it is in digits alone and from 1 to `most`.
pub(crate) fn number_of(options: &ArgMatches<'_>, name: &str, most: usize) -> Option<usize>
    ensures some { IfSome result (HasNumber name.now most (options_in options.now)) }
    ensures if_none { IfNone result (HasNoNumber name.now most (options_in options.now)) }
{
    let text = options.get_str(name)?;
    let n = digits_alone(text)?;
    if n >= 1 && n <= most { Some(n) } else { None }
}

/// Whether an option without a value is there.
pub(crate) fn is_set(options: &ArgMatches<'_>, name: &str) -> bool
    ensures { result ≡ is_set name.now (options_in options.now) }
{
    match options.get_str(name) {
        Some(text) => text == "true",
        None => false,
    }
}
