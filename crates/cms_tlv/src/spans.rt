//! Lists of spans that are small: content may be in millions of segments of one octet.
ghost use Rattle.std.specs.Prelude.{◌≡◌, ◌++◌, ◌∷◌, List, [], length, map, slice_get, IfOk, IfSome, OnOk, OnErr};
ghost use Rattle.cms_tlv.specs.declared.span.Span.{Span};
ghost use Rattle.cms_tlv.specs.Spans.{borrowed_spans, span_of, spans_in};

use crate::span::Span;
use std::alloc::{AllocError, Global};
use std::marker::Model;
use std::slice::from_ref;

/// A span whose places are below 4 GiB, in half the memory.
#[derive(Clone, Copy)]
pub struct NearSpan {
    start: u32,
    end: u32,
}

impl NearSpan {
    fn new(span: Span) -> Option<NearSpan>
        ensures { IfSome result (λ near. span_of near ≡ span) }
    {
        Some(NearSpan {
            start: u32::try_from(span.start).ok()?,
            end: u32::try_from(span.end).ok()?,
        })
    }

    fn span(&self) -> Span
        ensures { result ≡ span_of self.now }
    {
        Span {
            start: self.start as usize,
            end: self.end as usize,
        }
    }
}

#[derive(Drop)]
enum Places {
    Empty,
    One(Span),
    Near(Vec<NearSpan>),
    Far(Vec<Span>),
}

/// Spans in the order in which they were added. One takes no memory of its own; more take 8 octets each
/// if all are below 4 GiB, and otherwise 16.
#[derive(Drop)]
pub struct Spans {
    places: Places,
    alloc: Global,
}

impl Model for Spans {
    ghost Value = { List Span };

    ghost view = { λ s. spans_in s.places };
}

impl Spans {
    /// No spans.
    pub fn new(alloc: Global) -> Spans
        ensures { result ≡ [] }
    {
        Spans {
            places: Places::Empty,
            alloc,
        }
    }

    /// One span.
    pub fn one(alloc: Global, span: Span) -> Spans
        ensures { result ≡ span ∷ [] }
    {
        Spans {
            places: Places::One(span),
            alloc,
        }
    }

    /// Adds a span at the end. An error means out of memory.
    pub fn push(&mut self, span: Span) -> Result<(), AllocError>
        ensures ok { OnOk result (self.new ≡ self.old ++ span ∷ []) }
        ensures err { OnErr result (self.new ≡ self.old) }
    {
        let places = match &mut self.places {
            Places::Empty => Places::One(span),
            Places::One(first) => both(*first, span, self.alloc)?,
            Places::Near(spans) => match NearSpan::new(span) {
                Some(near) => return Ok(spans.push(near)?),
                None => {
                    let mut far = widened(spans, self.alloc)?;
                    far.push(span)?;
                    Places::Far(far)
                }
            },
            Places::Far(spans) => return Ok(spans.push(span)?),
        };
        self.places = places;
        Ok(())
    }

    /// The spans, borrowed.
    pub fn borrowed(&self) -> BorrowedSpans<'_>
        ensures { borrowed_spans result ≡ self.now }
    {
        match &self.places {
            Places::Empty => BorrowedSpans::Far(&[]),
            Places::One(span) => BorrowedSpans::Far(from_ref(span)),
            Places::Near(spans) => BorrowedSpans::Near(spans),
            Places::Far(spans) => BorrowedSpans::Far(spans),
        }
    }
}

/// Two spans. An error means out of memory.
fn both(first: Span, second: Span, alloc: Global) -> Result<Places, AllocError>
    ensures { IfOk result (λ places. spans_in places ≡ first ∷ second ∷ []) }
{
    if let (Some(first), Some(second)) = (NearSpan::new(first), NearSpan::new(second)) {
        let mut near = Vec::new(alloc);
        near.push(first)?;
        near.push(second)?;
        return Ok(Places::Near(near));
    }
    let mut far = Vec::new(alloc);
    far.push(first)?;
    far.push(second)?;
    Ok(Places::Far(far))
}

/// The spans with places of the common width. An error means out of memory.
fn widened(near: &[NearSpan], alloc: Global) -> Result<Vec<Span>, AllocError>
    ensures { IfOk result (λ far. far.items ≡ map span_of near.now) }
{
    let mut far = Vec::with_capacity(alloc, near.len())?;
    for span in near {
        far.push(span.span())?;
    }
    Ok(far)
}

/// Spans that are borrowed, in their order.
#[derive(Clone, Copy)]
pub enum BorrowedSpans<'a> {
    /// In half the memory.
    Near(&'a [NearSpan]),
    /// Wherever they lie.
    Far(&'a [Span]),
}

impl<'a> BorrowedSpans<'a> {
    /// The spans of a slice.
    pub fn new(spans: &'a [Span]) -> BorrowedSpans<'a>
        ensures { borrowed_spans result ≡ spans.now }
    {
        BorrowedSpans::Far(spans)
    }

    /// How many spans there are.
    pub fn len(&self) -> u64
        ensures { result ≡ length (borrowed_spans self.now) }
    {
        match self {
            BorrowedSpans::Near(spans) => spans.len() as u64,
            BorrowedSpans::Far(spans) => spans.len() as u64,
        }
    }

    /// The span with the index `i`; the first is 0.
    pub fn get(&self, i: u64) -> Option<Span>
        ensures { result ≡ slice_get (borrowed_spans self.now) i }
    {
        match self {
            BorrowedSpans::Near(spans) => Some(spans.get(i as usize)?.span()),
            BorrowedSpans::Far(spans) => spans.get(i as usize).copied(),
        }
    }
}
