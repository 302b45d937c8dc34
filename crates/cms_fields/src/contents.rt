//! Contents, put together from fields, and their end (X.690, 8.1.4 and 8.1.5).
ghost use Rattle.std.specs.Prelude.{◌≡◌, true, false, None, Option, OnOk, option_map, length};
ghost use Rattle.cms_tlv.specs.State.{Answers};
ghost use Rattle.cms_tlv.specs.Refines.{Refines};
ghost use Rattle.cms_tlv.specs.Reading.{may_be, optional_of, ends_here};
ghost use Rattle.cms_fields.specs.Grammar.{last, last_optional, optional_then, then_by};

use crate::field::{Field, Fields};
use crate::sink::{Sink, Stop};
use crate::write::Write;
use cms_tlv::{Bound, Fault, Input, Source};

/// The field `A`, then the fields `B`.
#[derive(Drop)]
pub struct Then<A, B>(pub A, pub B);

impl<A: Write, B: Write> Write for Then<A, B> {
    ghost Value = { A.Value × B.Value };

    ghost grammar = { then_by A.grammar B.grammar };

    ghost value = { λ k x. (A.value k x.0, B.value k x.1) };

    fn emit<S: Sink>(&self, kept: &[u8], sink: &mut S) -> Result<(), Stop> {
        S::law();
        self.1.emit(kept, sink)?;
        self.0.emit(kept, sink)
    }

    fn law() {
        A::law();
        B::law();
    }
}

impl<A: Field, B: Fields> Fields for Then<A, B> {
    fn read_to_end<R: Input>(source: &mut Source<R>, bound: Bound) -> Result<Then<A, B>, Fault> {
        let first = A::read(source, &bound)?;
        let rest = B::read_to_end(source, bound)?;
        Ok(Then(first, rest))
    }
}

/// A field that may be absent, then the others, which begin with other octets.
#[derive(Drop)]
pub struct OptionalThen<A, B>(pub Option<A>, pub B);

impl<A: Write, B: Write> Write for OptionalThen<A, B> {
    ghost Value = { Option A.Value × B.Value };

    ghost grammar = { optional_then A.grammar B.grammar };

    ghost value = { λ k x. (option_map (A.value k) x.0, B.value k x.1) };

    fn emit<S: Sink>(&self, kept: &[u8], sink: &mut S) -> Result<(), Stop> {
        Then(&self.0, &self.1).emit(kept, sink)
    }

    fn law() {
        A::law();
        B::law();
    }
}

impl<A: Field, B: Fields> Fields for OptionalThen<A, B> {
    fn read_to_end<R: Input>(
        source: &mut Source<R>,
        bound: Bound,
    ) -> Result<OptionalThen<A, B>, Fault> {
        let first = read_optional::<R, A>(source, &bound)?;
        let rest = B::read_to_end(source, bound)?;
        Ok(OptionalThen(first, rest))
    }
}

/// The last field.
#[derive(Drop)]
pub struct Last<A>(pub A);

impl<A: Write> Write for Last<A> {
    ghost Value = { A.Value };

    ghost grammar = { last A.grammar };

    ghost value = { λ k x. A.value k x.0 };

    fn emit<S: Sink>(&self, kept: &[u8], sink: &mut S) -> Result<(), Stop> {
        self.0.emit(kept, sink)
    }

    fn law() {
        A::law();
    }
}

impl<A: Field> Fields for Last<A> {
    fn read_to_end<R: Input>(source: &mut Source<R>, bound: Bound) -> Result<Last<A>, Fault> {
        let last = A::read(source, &bound)?;
        source.close(bound)?;
        Ok(Last(last))
    }
}

/// A value that may be absent. If it is absent, it is written as nothing.
impl<T: Write> Write for Option<T> {
    ghost Value = { Option T.Value };

    ghost grammar = { last_optional T.grammar };

    ghost value = { λ k x. option_map (T.value k) x };

    fn emit<S: Sink>(&self, kept: &[u8], sink: &mut S) -> Result<(), Stop> {
        match self {
            Some(x) => x.emit(kept, sink),
            None => {
                S::law();
                Ok(())
            }
        }
    }

    fn law() {
        T::law();
    }
}

/// The last field, which may be absent.
impl<A: Field> Fields for Option<A> {
    fn read_to_end<R: Input>(source: &mut Source<R>, bound: Bound) -> Result<Option<A>, Fault> {
        let last = read_optional::<R, A>(source, &bound)?;
        source.close(bound)?;
        Ok(last)
    }
}

/// Reads a field if it may begin with the next octet.
fn read_optional<R: Input, A: Field>(
    source: &mut Source<R>,
    bound: &Bound,
) -> Result<Option<A>, Fault>
    requires no_fault { source.old.fault ≡ None }
    ensures accounted { Answers source.old source.new result }
    ensures clear { OnOk result ((ends_here bound.now (length source.old.done) ≡ true
        → source.old.ahead ≡ None) → ends_here bound.now (length source.new.done) ≡ true
        → source.new.ahead ≡ None) }
    ensures refines { Refines (λ s o. option_map (λ v. A.value s.done v) o)
        (optional_of A.grammar.first A.grammar.reader bound.now) source.old source.new result }
{
    let next = source.peek(bound)?;
    if begins::<A>(next) {
        let field = A::read(source, bound)?;
        Ok(Some(field))
    } else {
        Ok(None)
    }
}

/// Whether a field may begin with the next octet.
pub(crate) fn begins<A: Field>(next: Option<u8>) -> bool
    ensures { result ≡ may_be A.grammar.first next }
{
    match next {
        Some(octet) => A::begins_with(octet),
        None => false,
    }
}
