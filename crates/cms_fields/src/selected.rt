//! Contents of one of two kinds, selected by the value of their first field.
ghost use Rattle.std.specs.Prelude.{◌⊎◌, ℕ, List};
ghost use Rattle.cms_tlv.specs.Spans.{octets_in};
ghost use Rattle.cms_fields.specs.Choices.{choice_value};
ghost use Rattle.cms_fields.specs.Grammar.{selected};

use crate::choice::Choice;
use crate::field::Fields;
use crate::primitive::{Primitive, Scalar, read_scalar};
use crate::sink::{Sink, Stop};
use crate::write::Write;
use cms_tlv::{Bound, Fault, Input, Source};
use std::marker::PhantomData;

/// A test of the contents octets of a first field, which says of what kind the fields after it are.
pub trait Selector: Drop {
    ghost use Rattle.std.specs.Prelude.{◌≡◌, ℕ, List, Bool};

    ghost test: { List ℕ → Bool };

    /// Whether these contents octets select the first kind.
    fn selects(octets: &[u8]) -> bool
        ensures { result ≡ test octets.now };
}

/// A primitive field with the identifier octet `ID` whose contents are of the kind `K`, then the fields
/// `A` if `S` selects them by its contents octets, else the fields `B`.
///
/// The first field is primitive, so that values that are the same have the same contents octets, and what is
/// written is of the kind that was read.
#[derive(Drop)]
pub struct Selected<const ID: u8, K, S, A, B>(
    pub Primitive<ID, K>,
    pub Choice<A, B>,
    PhantomData<S>,
);

impl<const ID: u8, K: Scalar, S: Selector, A: Write, B: Write> Write for Selected<ID, K, S, A, B> {
    ghost Value = { List ℕ × (A.Value ⊎ B.Value) };

    ghost grammar = { selected ID K.is K.test K.malformed S.test A.grammar B.grammar };

    ghost value = { λ k x.
        (octets_in k x.0.0.span.start x.0.0.span.end, choice_value (A.value k) (B.value k) x.1) };

    fn emit<O: Sink>(&self, kept: &[u8], sink: &mut O) -> Result<(), Stop> {
        O::law();
        self.1.emit(kept, sink)?;
        self.0.emit(kept, sink)
    }

    fn law() {
        Primitive::<ID, K>::law();
        A::law();
        B::law();
    }
}

impl<const ID: u8, K: Scalar, S: Selector, A: Fields, B: Fields> Fields
    for Selected<ID, K, S, A, B> {
    fn read_to_end<R: Input>(
        source: &mut Source<R>,
        bound: Bound,
    ) -> Result<Selected<ID, K, S, A, B>, Fault> {
        let first = read_scalar::<R, ID, K>(source, &bound)?;
        if S::selects(source.bytes(first.0.span)) {
            let rest = A::read_to_end(source, bound)?;
            Ok(Selected(first, Choice::First(rest), PhantomData))
        } else {
            let rest = B::read_to_end(source, bound)?;
            Ok(Selected(first, Choice::Second(rest), PhantomData))
        }
    }
}
