use trace_condition::Rule;

/// What is said of the hosts whose names match an expression.
#[derive(Debug, Drop)]
pub(crate) struct HostsSaying<'a> {
    pub hosts: &'a str,
    pub rule: Rule<&'a str>,
}

/// A word HOSTS=EXPRESSION, cut at its first `=`.
#[derive(Debug, Drop)]
pub(crate) struct WordParts<'a> {
    pub hosts: &'a str,
    pub expression: &'a str,
}
