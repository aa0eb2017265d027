// What the arguments of the program ask for.

/// How the verdict on a report is written.
#[derive(Clone, Copy, Debug, PartialEq, Eq)]
pub enum Form {
    /// In words: `line 3: sound`.
    Words,
    /// As JSON: `{"line":3,"sound":true,..}`.
    Json,
    /// As one object of JSON about all pools, from which a page draws them.
    Html,
}

/// What the lines of the input are.
#[derive(Clone, Copy, Debug, PartialEq, Eq)]
pub enum Lines {
    /// Reports, one on each line.
    Reports,
    /// Those of a log, with reports in some of them.
    Log,
}

/// What is asked for.
#[derive(Clone, Copy, Debug, PartialEq, Eq)]
pub struct Asked<'a> {
    pub form: Form,
    pub lines: Lines,
    /// The name of the pool whose reports alone are audited; None for all.
    pub pool: Option<&'a str>,
}

impl<'a> Asked<'a> {
    /// What the arguments ask for, if they are understood: each may be left out, and they come in
    /// this order.
    pub fn of(words: &[&'a str]) -> Option<Asked<'a>> {
        let (lines, words) = match words {
            ["--find", rest @ ..] => (Lines::Log, rest),
            _ => (Lines::Reports, words),
        };
        let (pool, words) = match words {
            ["--pool", name, rest @ ..] => (Some(*name), rest),
            _ => (None, words),
        };
        let form = match words {
            [] => Form::Words,
            ["--json"] => Form::Json,
            ["--html"] => Form::Html,
            _ => return None,
        };
        Some(Asked { form, lines, pool })
    }
}
