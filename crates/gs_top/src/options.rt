//! The words of a command: each of its options in a fixed order, followed by one value.
ghost use Rattle.std.specs.Prelude.{◌≡◌, map, string_bytes};
ghost use Rattle.std.specs.List.{list_any};
ghost use Rattle.std.specs.Str.{bytes_eq};
ghost use Rattle.gs_top.specs.Job.{are_given, are_names, value_of};

/// Whether the words are these options in this order, each followed by one value.
pub(crate) fn are_given(options: &[&str], words: &[String]) -> bool
    ensures { result ≡ are_given (map (λ o. o.now) options.now) (map string_bytes words.now) }
{
    if options.is_empty() {
        return words.is_empty();
    }
    if words.len() < 2 {
        return false;
    }
    words[0].as_str() == options[0] && are_given(&options[1..], &words[2..])
}

/// The value of an option among words of options and their values; empty where it isn't given.
pub(crate) fn value_of<'a>(words: &'a [String], option: &str) -> &'a str
    ensures { result.now ≡ value_of option.now (map string_bytes words.now) }
{
    if words.len() < 2 {
        return "";
    }
    if words[0].as_str() == option {
        return words[1].as_str();
    }
    value_of(&words[2..], option)
}

/// Whether the name is among these.
fn is_among(name: &str, names: &[&str]) -> bool
    ensures { result ≡ list_any (bytes_eq name.now) (map (λ n. n.now) names.now) }
{
    if names.is_empty() {
        return false;
    }
    name == names[0] || is_among(name, &names[1..])
}

/// Whether no name is empty, and all differ.
pub(crate) fn are_names(names: &[&str]) -> bool
    ensures { result ≡ are_names (map (λ n. n.now) names.now) }
{
    if names.is_empty() {
        return true;
    }
    let (first, rest) = (names[0], &names[1..]);
    !first.is_empty() && !is_among(first, rest) && are_names(rest)
}
