//! BOOLEAN DEFAULT FALSE (X.690, 11.5).
ghost use mathlib.Core.Bool.{beq};
ghost use Rattle.std.specs.Prelude.{◌≡◌, Bool, false, option_map};
ghost use Rattle.cms_scalars.specs.Booleans.{default_false, is_set, unless_false};
ghost use Rattle.cms_fields.specs.Grammar.{unread};
ghost use Rattle.cms_scalars.specs.Grammar.{boolean_type, default_false_then};

use crate::booleans::{Boolean, emit_true};
use cms_fields::{Fields, OptionalThen, Sink, Stop, Then, Write};
use cms_tlv::{Bound, Fault, Input, Source};

/// A BOOLEAN that is FALSE if it is absent, then the other fields, which begin with other octets. In
/// DER it is left out if it is FALSE (X.690, 11.5).
#[derive(Drop)]
pub struct DefaultFalseThen<B>(pub bool, pub B);

impl<B: Write> Write for DefaultFalseThen<B> {
    ghost Value = { Bool × B.Value };

    ghost grammar = { default_false_then B.grammar };

    ghost value = { λ k x. (x.0, B.value k x.1) };

    fn emit<S: Sink>(&self, kept: &[u8], sink: &mut S) -> Result<(), Stop> {
        Then(DefaultFalse(self.0), &self.1).emit(kept, sink)
    }

    fn law() {
        Boolean::law();
        B::law();
    }
}

/// The BOOLEAN alone. It is part of contents, and is never read by itself.
#[derive(Drop)]
struct DefaultFalse(bool);

impl Write for DefaultFalse {
    ghost Value = { Bool };

    ghost grammar = { record (unread default_false (λ v. Unit {0}) beq) {
      assembled = unless_false boolean_type.assembled;
    } };

    ghost value = { λ k x. x.0 };

    fn emit<S: Sink>(&self, kept: &[u8], sink: &mut S) -> Result<(), Stop> {
        S::law();
        if self.0 {
            emit_true(kept, sink)
        } else {
            Ok(())
        }
    }

    fn law() {}
}

impl<B: Fields> Fields for DefaultFalseThen<B> {
    fn read_to_end<R: Input>(
        source: &mut Source<R>,
        bound: Bound,
    ) -> Result<DefaultFalseThen<B>, Fault> {
        let OptionalThen(flag, rest) = OptionalThen::<Boolean, B>::read_to_end(source, bound)?;
        Ok(DefaultFalseThen(is_set(&flag), rest))
    }
}

/// Whether it is present and TRUE.
fn is_set(flag: &Option<Boolean>) -> bool
    ensures { result ≡ is_set (option_map (λ b. b.0) flag.now) }
{
    match flag {
        Some(Boolean(truth)) => *truth,
        None => false,
    }
}
