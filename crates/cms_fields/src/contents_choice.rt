//! Contents of one of two kinds, distinguished by the first octet.
//!
//! The first kind is a field and the fields after it, since no octet says that contents which may be
//! empty are there.
ghost use Rattle.std.specs.Prelude.{◌⊎◌};
ghost use Rattle.cms_fields.specs.Choices.{choice_value};
ghost use Rattle.cms_fields.specs.Grammar.{contents_choice};

use crate::choice::Choice;
use crate::contents::{Then, begins};
use crate::field::{Field, Fields};
use crate::sink::{Sink, Stop};
use crate::write::Write;
use cms_tlv::{Bound, Fault, Input, Source};

/// The field `A` and the fields `R`, or else the fields `B`, which begin with other octets than `A`. If
/// the next octet does not begin `A`, the refusal is that of `B`.
#[derive(Drop)]
pub struct ContentsChoice<A, R, B>(pub Choice<Then<A, R>, B>);

impl<A: Write, R: Write, B: Write> Write for ContentsChoice<A, R, B> {
    ghost Value = { A.Value × R.Value ⊎ B.Value };

    ghost grammar = { contents_choice A.grammar R.grammar B.grammar };

    ghost value = { λ k x. choice_value (λ y. (A.value k y.0, R.value k y.1)) (B.value k) x.0 };

    fn emit<S: Sink>(&self, kept: &[u8], sink: &mut S) -> Result<(), Stop> {
        self.0.emit(kept, sink)
    }

    fn law() {
        A::law();
        R::law();
        B::law();
    }
}

impl<A: Field, R: Fields, B: Fields> Fields for ContentsChoice<A, R, B> {
    fn read_to_end<I: Input>(
        source: &mut Source<I>,
        bound: Bound,
    ) -> Result<ContentsChoice<A, R, B>, Fault> {
        let next = source.peek(&bound)?;
        if begins::<A>(next) {
            let first = Then::<A, R>::read_to_end(source, bound)?;
            Ok(ContentsChoice(Choice::First(first)))
        } else {
            let second = B::read_to_end(source, bound)?;
            Ok(ContentsChoice(Choice::Second(second)))
        }
    }
}
