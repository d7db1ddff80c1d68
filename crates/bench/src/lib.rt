#![tactic(auto)]

// No code: the bench sheets of `model` and the sheet of traces of `trace` hold of the definitions, computed line by line. They stand apart from
// the definitions, beside which short sheets are proved, so that an edit of these is refused in seconds.
