//! The lines at which a block begins and ends.
ghost use Rattle.std.specs.Prelude.{◌≡◌, ◌≢◌, ◌+◌, ◌++◌, ◌==◌, ◌<◌, ◌≤◌, ℕ, List, length, IfNone, IfSome};
ghost use Rattle.std.specs.List.{position};
ghost use Rattle.cms_pem.specs.Pem.{HasNoEdge, IsFirstEdge, after_line, begins_line, dashes, line_at, trimmed};

use crate::octet::is_blank;

/// A line at which a block begins or ends.
#[derive(Drop)]
pub(crate) struct Edge<'a> {
    /// The label in it.
    pub(crate) label: &'a [u8],
    /// Where it begins.
    pub(crate) at: usize,
    /// Where the next line begins, or the end of the text.
    pub(crate) after: usize,
}

/// The first line from the place `from` on that begins with `word` and ends with dashes.
pub(crate) fn first_edge<'a>(word: &[u8], text: &'a [u8], from: usize) -> Option<Edge<'a>>
    ensures some { IfSome result (λ e. IsFirstEdge word.now e.label.now text.now from e.at) }
    ensures after { IfSome result (λ e. e.after ≡ after_line text.now e.at) }
    ensures none { IfNone result (HasNoEdge word.now text.now from (length text.now)) }
{
    for at in from..text.len() {
        if begins_line(text, at) {
            let line = line_at(text, at);
            if let Some(label) = label_in(word, line) {
                let after = (at + line.len()).saturating_add(1).min(text.len());
                return Some(Edge { label, at, after });
            }
        }
    }
    None
}

fn begins_line(text: &[u8], at: usize) -> bool
    requires { at < length text.now }
    ensures { result ≡ begins_line text.now at }
{
    at == 0 || text[at - 1] == b'\n'
}

/// The line that begins at a place, without the line feed at its end.
fn line_at(text: &[u8], at: usize) -> &[u8]
    requires { at ≤ length text.now }
    ensures value { result.now ≡ line_at text.now at }
    ensures bound { at + length result.now ≤ length text.now }
{
    let rest = &text[at..];
    let n = first_feed(rest).unwrap_or(rest.len());
    &rest[..n]
}

fn first_feed(rest: &[u8]) -> Option<usize>
    ensures value { result ≡ position (λ b. b == 10) rest.now }
    ensures bound { IfSome result (λ at. at < length rest.now) }
{
    rest.iter().position(|octet| *octet == b'\n')
}

/// The label in a line that begins with `word` and ends with dashes, and maybe white space after them.
fn label_in<'a>(word: &[u8], line: &'a [u8]) -> Option<&'a [u8]>
    ensures some { IfSome result (λ label. trimmed line.now ≡ word.now ++ label.now ++ dashes) }
    ensures none { IfNone result ((label : List ℕ)
        → trimmed line.now ≢ word.now ++ label ++ dashes) }
{
    trimmed(line).strip_prefix(word)?.strip_suffix(b"-----")
}

/// A line without the white space at its end.
fn trimmed(line: &[u8]) -> &[u8]
    ensures { result.now ≡ trimmed line.now }
{
    let mut n = line.len();
    while n > 0 && is_blank(line[n - 1]) {
        n -= 1;
    }
    &line[..n]
}
