//! BOOLEAN (X.690, 8.2 and 11.1).
//!
//! What was read is kept as its truth, and not as a span, since TRUE is written as FF whatever its
//! octet was.
ghost use Rattle.std.specs.Prelude.{◌≡◌, ◌==◌, ◌++◌, ◌∷◌, [], length, Bool, None, true, false, IfOk, IfErr, OnOk, OnErr, bytes_eq};
ghost use Rattle.cms_tlv.specs.State.{Answers, Progresses, FaultIsSticky};
ghost use Rattle.cms_tlv.specs.Refines.{Refines, plain};
ghost use Rattle.cms_tlv.specs.Clauses.{Found, Faults, IsWithin};
ghost use Rattle.cms_tlv.specs.Law.{rules_of};
ghost use Rattle.cms_tlv.specs.RefusalReasons.{SaysWhy};
ghost use Rattle.cms_tlv.specs.Spelling.{der};
ghost use Rattle.cms_tlv.specs.declared.tags.TheConstants.{BOOLEAN};
ghost use mathlib.Core.Bool.{beq};
ghost use Rattle.cms_fields.specs.Assembly.{all_made};
ghost use Rattle.cms_fields.specs.Sinks.{Emits, MayStop};
ghost use Rattle.cms_scalars.specs.Booleans.{boolean, boolean_of, is_one_octet, is_true, IsTrueInDer};
ghost use Rattle.cms_scalars.specs.Grammar.{boolean_type};

use cms_fields::{Field, Kind, Primitive, Scalar, Sink, Stop, Write};
use cms_tlv::{BOOLEAN, Bound, Fault, Input, Reason, Source};
use std::alloc::AllocError;

/// Reads a BOOLEAN: 00 is false, and any other octet is true. E10, after its contents, if they are not
/// one octet. Under a strict bound the length is judged by DER, but the octet of TRUE is not.
pub fn read_bool<R: Input>(source: &mut Source<R>, bound: &Bound) -> Result<bool, Fault>
    ensures sticky { FaultIsSticky source.old source.new result }
    ensures accounted { source.old.fault ≡ None → Answers source.old source.new result }
    ensures ok { OnOk result (Progresses source.old source.new) }
    ensures clear { OnOk result (source.new.ahead ≡ None) }
    ensures refines { source.old.fault ≡ None
        → Refines plain (boolean_of bound.now) source.old source.new result }
    ensures found { IfOk result (λ v.
        Found (boolean (rules_of bound.now.strict)) source.old source.new v) }
    ensures faults { source.old.fault ≡ None → IfErr result
        (Faults (boolean (rules_of bound.now.strict)) bound.now source.old source.new) }
    ensures within { OnOk result (IsWithin bound.now source.new) }
    ensures why { source.old.fault ≡ None
        → IfErr result (SaysWhy true boolean_type.malformed source.old source.new) }
{
    let contents = source.primitive(bound, BOOLEAN)?;
    if is_one(source.bytes(contents)) {
        Ok(is_true(source.bytes(contents)))
    } else {
        Err(source.refuse(Reason::BooleanMalformed))
    }
}

/// Whether there is one octet.
fn is_one(octets: &[u8]) -> bool
    ensures { result ≡ is_one_octet octets.now }
{
    octets.len() == 1
}

/// Whether the first octet is not 00.
fn is_true(octets: &[u8]) -> bool
    ensures { result ≡ is_true octets.now }
{
    match octets {
        [] => false,
        [octet, ..] => *octet != 0,
    }
}

/// A BOOLEAN: whether it is TRUE.
#[derive(Clone, Copy, Debug, PartialEq, Eq)]
pub struct Boolean(pub bool);

impl Write for Boolean {
    ghost Value = { Bool };

    ghost grammar = { boolean_type };

    ghost value = { λ k x. x.0 };

    fn emit<S: Sink>(&self, kept: &[u8], sink: &mut S) -> Result<(), Stop> {
        if self.0 {
            emit_true(kept, sink)
        } else {
            emit_false(kept, sink)
        }
    }

    fn law() {}
}

impl Field for Boolean {
    fn read<R: Input>(source: &mut Source<R>, bound: &Bound) -> Result<Boolean, Fault> {
        match read_bool(source, bound) {
            Ok(truth) => Ok(Boolean(truth)),
            Err(fault) => Err(fault),
        }
    }

    fn begins_with(octet: u8) -> bool {
        octet == BOOLEAN
    }
}

/// The contents octets of TRUE in DER (X.690, 11.1).
#[derive(Drop)]
pub struct TrueOctets;

impl Kind for TrueOctets {
    ghost is = { IsTrueInDer };
}

impl Scalar for TrueOctets {
    ghost use Rattle.cms_tlv.specs.declared.fault.Reason.TheVariants.{BooleanMalformed};

    ghost test = { λ octets. bytes_eq octets (0xff ∷ []) };

    ghost malformed = { BooleanMalformed };

    fn passes(octets: &[u8]) -> bool {
        octets == b"\xff".as_slice()
    }

    fn reason() -> Reason {
        Reason::BooleanMalformed
    }

    fn law() {}
}

/// Where the contents of a BOOLEAN lie that is TRUE in DER: what a BOOLEAN DEFAULT FALSE is if it is not
/// absent (X.690, 11.5).
pub type TrueSpan = Primitive<BOOLEAN, TrueOctets>;

/// Appends TRUE in DER (X.690, 11.1). If memory runs out, `out` is as it was.
pub fn put_true(out: &mut Vec<u8>) -> Result<(), AllocError>
    ensures ok { OnOk result (out.new.items ≡ out.old.items ++ (0x01 ∷ 0x01 ∷ 0xff ∷ [])) }
    ensures spells { boolean der (0x01 ∷ 0x01 ∷ 0xff ∷ []) true }
    ensures err { OnErr result (out.new.items ≡ out.old.items) }
{
    out.extend_from_slice(b"\x01\x01\xff")
}

/// Gives a sink TRUE in DER.
pub(crate) fn emit_true<S: Sink>(kept: &[u8], sink: &mut S) -> Result<(), Stop>
    ensures ok { OnOk result (Emits S.taking (boolean der) (all_made (boolean der)) beq true
        kept.now sink.old sink.new) }
    ensures stops { OnErr result (MayStop S.taking (boolean der) beq true
        (S.taking.count sink.old)) }
{
    sink.octets(kept, b"\x01\x01\xff")
}

/// Gives a sink FALSE in DER.
fn emit_false<S: Sink>(kept: &[u8], sink: &mut S) -> Result<(), Stop>
    ensures ok { OnOk result (Emits S.taking (boolean der) (all_made (boolean der)) beq false
        kept.now sink.old sink.new) }
    ensures stops { OnErr result (MayStop S.taking (boolean der) beq false
        (S.taking.count sink.old)) }
{
    sink.octets(kept, b"\x01\x01\x00")
}
