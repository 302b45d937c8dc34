//! Parts of octets that are kept elsewhere.
ghost use Rattle.std.specs.Prelude.{◌≡◌};
ghost use Rattle.cms_tlv.specs.Spans.{octets_in};

/// A part of some octets: from `start` up to but not including `end`, counted from 0.
#[derive(Clone, Copy, Debug, PartialEq, Eq)]
pub struct Span {
    pub start: usize,
    pub end: usize,
}

impl Span {
    /// The octets of `kept` that the span names; none if `kept` ends before the span does, or `end` comes before `start`.
    pub fn octets<'a>(&self, kept: &'a [u8]) -> &'a [u8]
        ensures { result.now ≡ octets_in kept.now self.now.start self.now.end }
    {
        if self.start <= self.end && self.end <= kept.len() {
            &kept[self.start..self.end]
        } else {
            &[]
        }
    }
}
