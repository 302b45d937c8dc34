//! Primitive elements (X.690, 8.1.1.5), whose contents are recognised by tests.
ghost use Rattle.std.specs.Prelude.{◌≡◌, ◌==◌, ℕ, List, true, None, IfOk, OnOk};
ghost use Rattle.cms_tlv.specs.State.{Answers, Progresses, FaultIsSticky};
ghost use Rattle.cms_tlv.specs.Spans.{octets_in, LiesIn};
ghost use Rattle.cms_tlv.specs.Spelling.{element};
ghost use Rattle.cms_tlv.specs.Refines.{Refines};
ghost use Rattle.cms_tlv.specs.Reading.{scalar_of};
ghost use Rattle.cms_fields.specs.Grammar.{primitive, constrained};

use crate::element::Tagged;
use crate::field::Field;
use crate::received::{Kind, Received};
use crate::sink::{Sink, Stop};
use crate::write::Write;
use cms_tlv::{Bound, Fault, Input, Reason, Source};
use std::marker::PhantomData;

/// Contents octets of a kind that a test recognises.
pub trait Scalar: Kind + Drop {
    ghost use Rattle.std.specs.Prelude.{◌≡◌, ◌≢◌, ℕ, List, Bool, true};
    ghost use Rattle.cms_tlv.specs.Headers.{AreOctets};
    ghost use Rattle.cms_tlv.specs.declared.fault.Reason.{Reason};
    ghost use Rattle.cms_tlv.specs.declared.fault.Reason.TheVariants.{Truncated};

    ghost test: { List ℕ → Bool };

    ghost malformed: { Reason };

    /// Whether the octets are of the kind.
    fn passes(octets: &[u8]) -> bool
        ensures { result ≡ test octets.now };

    /// Why octets of another kind are refused, after the last of them.
    fn reason() -> Reason
        ensures { result ≡ malformed };

    /// Does nothing. Its contract says that the test recognises the kind.
    fn law()
        ensures known { (v : List ℕ) → AreOctets v → test v ≡ true → Self.is v }
        ensures tested { (v : List ℕ) → Self.is v → AreOctets v × (test v ≡ true) }
        ensures told { malformed ≢ Truncated };
}

/// A primitive element with the identifier octet `ID` whose contents are of the kind `K`.
#[derive(Drop)]
pub struct Primitive<const ID: u8, K>(pub Received<K>);

impl<const ID: u8, K: Scalar> Write for Primitive<ID, K> {
    ghost Value = { List ℕ };

    ghost grammar = { primitive ID K.is K.test K.malformed };

    ghost value = { λ k x. octets_in k x.0.span.start x.0.span.end };

    fn emit<S: Sink>(&self, kept: &[u8], sink: &mut S) -> Result<(), Stop> {
        Tagged::<ID, _>(&self.0).emit(kept, sink)
    }

    fn law() {
        K::law();
    }
}

pub(crate) fn read_scalar<R: Input, const ID: u8, K: Scalar>(
    source: &mut Source<R>,
    bound: &Bound,
) -> Result<Primitive<ID, K>, Fault>
    ensures sticky { FaultIsSticky source.old source.new result }
    ensures accounted { source.old.fault ≡ None → Answers source.old source.new result }
    ensures ok { OnOk result (Progresses source.old source.new) }
    ensures clear { OnOk result (source.new.ahead ≡ None) }
    ensures span { IfOk result (λ s. LiesIn s.0.span source.new) }
    ensures refines { source.old.fault ≡ None
        → Refines (λ s v. octets_in s.done v.0.span.start v.0.span.end)
        (scalar_of ID K.test K.malformed bound.now) source.old source.new result }
{
    let contents = source.primitive(bound, ID)?;
    K::law();
    if K::passes(source.bytes(contents)) {
        Ok(Primitive(Received::new(contents)))
    } else {
        Err(source.refuse(K::reason()))
    }
}

impl<const ID: u8, K: Scalar> Field for Primitive<ID, K> {
    fn read<R: Input>(source: &mut Source<R>, bound: &Bound) -> Result<Primitive<ID, K>, Fault> {
        read_scalar::<R, ID, K>(source, bound)
    }

    fn begins_with(octet: u8) -> bool {
        octet == ID
    }
}

/// A further constraint on contents octets of the kind `K`, decided by a test.
pub trait Constraint<K: Scalar>: Drop {
    ghost use Rattle.std.specs.Prelude.{◌≡◌, ◌≢◌, ℕ, List, Bool, true};
    ghost use Rattle.cms_tlv.specs.declared.fault.Reason.{Reason};
    ghost use Rattle.cms_tlv.specs.declared.fault.Reason.TheVariants.{Truncated};

    ghost is: { List ℕ → Type 0 };

    ghost test: { List ℕ → Bool };

    ghost refusal: { Reason };

    /// Whether the contents octets meet the constraint.
    fn passes(octets: &[u8]) -> bool
        ensures { result ≡ test octets.now };

    /// Why octets that do not meet it are refused, after the last of them.
    fn reason() -> Reason
        ensures { result ≡ refusal };

    /// Does nothing. Its contract says that the test decides the constraint for octets of the kind.
    fn law()
        ensures known { (v : List ℕ) → K.is v → test v ≡ true → is v }
        ensures tested { (v : List ℕ) → K.is v → is v → test v ≡ true }
        ensures told { refusal ≢ Truncated };
}

/// A primitive element with the identifier octet `ID` whose contents are of the kind `K` and meet `C`.
#[derive(Drop)]
pub struct Constrained<const ID: u8, K, C>(pub Primitive<ID, K>, PhantomData<C>);

impl<const ID: u8, K: Scalar, C: Constraint<K>> Write for Constrained<ID, K, C> {
    ghost Value = { List ℕ };

    ghost grammar = { constrained ID K.is K.test K.malformed C.is C.test C.refusal };

    ghost value = { λ k x. octets_in k x.0.0.span.start x.0.0.span.end };

    fn emit<S: Sink>(&self, kept: &[u8], sink: &mut S) -> Result<(), Stop> {
        self.0.emit(kept, sink)
    }

    fn law() {
        K::law();
        Primitive::<ID, K>::law();
        C::law();
    }
}

impl<const ID: u8, K: Scalar, C: Constraint<K>> Field for Constrained<ID, K, C> {
    fn read<R: Input>(
        source: &mut Source<R>,
        bound: &Bound,
    ) -> Result<Constrained<ID, K, C>, Fault> {
        C::law();
        let field = read_scalar::<R, ID, K>(source, bound)?;
        if C::passes(source.bytes(field.0.span)) {
            Ok(Constrained(field, PhantomData))
        } else {
            Err(source.refuse(C::reason()))
        }
    }

    fn begins_with(octet: u8) -> bool {
        octet == ID
    }
}
