// Completers that are there or not.

// The completer, if the flag is set.
pub(crate) fn completer_if(flag: bool, completer: &'static str) -> &'static str {
    if flag { completer } else { "" }
}
