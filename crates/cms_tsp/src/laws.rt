//! The laws of requests, responses and TSTInfos, in terms of their definitions.
ghost use Rattle.std.specs.Prelude.{◌≡◌, ◌≢◌, ◌==◌, ℕ, List, true};
ghost use Rattle.cms_tlv.specs.Frames.{Frame};
ghost use Rattle.cms_tlv.specs.Spelling.{Rules, der};
ghost use Rattle.cms_tlv.specs.declared.bound.Bound.{Bound};
ghost use Rattle.cms_tlv.specs.RefusalReasons.{Explained};
ghost use Rattle.cms_tlv.specs.Law.{IsField, Reads, ReadsTo};
ghost use Rattle.cms_fields.specs.Canonical.{IsByDer};
ghost use Rattle.cms_fields.specs.Received.{ArePartsOf, CountedAlike};
ghost use Rattle.cms_tsp.specs.Requests.{TimeStampReq, imprint, time_stamp_req, time_stamp_req_fields};
ghost use Rattle.cms_tsp.specs.Responses.{time_stamp_resp, time_stamp_resp_fields};
ghost use Rattle.cms_tsp.specs.TstInfo.{TstInfo, tst_info};
ghost use Rattle.cms_tsp.specs.Received.{in_time_stamp_req, in_time_stamp_resp};

use crate::request::{TimeStampReqFields, TimeStampReqSpans};
use crate::response::{TimeStampRespFields, TimeStampRespSpans};
use crate::tst_info::TstInfoSpans;
use cms_fields::Write;
use cms_message::received_octets_are_kept;
use cms_tlv::SEQUENCE;

/// Does nothing. Its contract says of a TimeStampReq what `Write::law` says of a field, in terms of the
/// definition of TimeStampReq.
pub fn request_laws()
    ensures is_field { (m : Rules)
        → IsField (λ t. (t == SEQUENCE) ≡ true) (time_stamp_req.spelled m) }
    ensures reads { (m : Rules) → m ≢ der
        → Reads m (time_stamp_req.spelled m) time_stamp_req.reader }
    ensures reads_fields { (m : Rules) → m ≢ der
        → ReadsTo m (time_stamp_req_fields.spelled m) (λ v. v) time_stamp_req_fields.reader }
    ensures by_der { IsByDer time_stamp_req.same time_stamp_req.spelled }
    ensures explained { (bd : Bound)
        → Explained true time_stamp_req_fields.malformed 0 bd (time_stamp_req_fields.reader bd) }
{
    TimeStampReqFields::law();
    TimeStampReqSpans::law();
}

/// Does nothing. Its contract says the same of a TimeStampResp.
pub fn response_laws()
    ensures is_field { (m : Rules)
        → IsField (λ t. (t == SEQUENCE) ≡ true) (time_stamp_resp.spelled m) }
    ensures reads { (m : Rules) → m ≢ der
        → Reads m (time_stamp_resp.spelled m) time_stamp_resp.reader }
    ensures reads_fields { (m : Rules) → m ≢ der
        → ReadsTo m (time_stamp_resp_fields.spelled m) (λ v. v) time_stamp_resp_fields.reader }
    ensures by_der { IsByDer time_stamp_resp.same time_stamp_resp.spelled }
    ensures explained { (bd : Bound)
        → Explained true time_stamp_resp_fields.malformed 0 bd (time_stamp_resp_fields.reader bd) }
{
    TimeStampRespFields::law();
    TimeStampRespSpans::law();
}

/// Does nothing. Its contract says of a TimeStampReq: what is opaque in it, the parameters of its
/// hashAlgorithm and its extensions, lies in what spells it, octet for octet. It says of two that are
/// the same: each of these lies in the one as often as in the other, and they ask for the same imprint.
pub fn request_octets_are_kept()
    ensures are_parts { (m : Rules) → ArePartsOf (time_stamp_req.spelled m) in_time_stamp_req }
    ensures counted { CountedAlike time_stamp_req.is_value time_stamp_req.same in_time_stamp_req }
    ensures imprint { (v w : TimeStampReq) → time_stamp_req.same v w ≡ true
        → imprint v ≡ imprint w }
{}

/// Does nothing. Its contract says of a TimeStampResp: what is opaque in it, its statusString and what
/// `received_octets_are_kept` names in its token, lies in what spells it, octet for octet. It says of
/// two that are the same: each of these lies in the one as often as in the other.
pub fn response_octets_are_kept()
    ensures are_parts { (m : Rules) → ArePartsOf (time_stamp_resp.spelled m) in_time_stamp_resp }
    ensures counted { CountedAlike time_stamp_resp.is_value time_stamp_resp.same
        in_time_stamp_resp }
{
    received_octets_are_kept();
}

/// Does nothing. Its contract says: octets are in DER at most one TSTInfo, and it is a frame.
pub fn tst_infos_are_one()
    ensures one { (b : List ℕ) (t u : TstInfo) → tst_info b t → tst_info b u → t ≡ u }
    ensures frame { (b : List ℕ) (t : TstInfo) → tst_info b t → Frame b }
{
    TstInfoSpans::law();
}
