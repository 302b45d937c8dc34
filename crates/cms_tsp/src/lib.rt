//! Time-stamping requests and responses, and what a token says (RFC 3161, sections 2.4.1 and 2.4.2):
//! the places of their parts in the kept octets, and the views that lend them. Some are types of their
//! own around their terms, as in `cms_message`. And the certificate that a signing-certificate attribute
//! names (RFC 5035).
#![tactic(auto)]

mod cert_id;
mod laws;
mod request;
mod response;
mod tst_info;

pub use cert_id::{CertId, first_cert_id};
pub use laws::{
    request_laws, request_octets_are_kept, response_laws, response_octets_are_kept,
    tst_infos_are_one,
};
pub use request::{
    ExtensionsSpan, MessageImprint, MessageImprintSpans, TimeStampReq, TimeStampReqFields,
    TimeStampReqSpans, TimeStampReqTail, read_request,
};
pub use response::{
    PkiFreeTextSpan, PkiStatusInfo, PkiStatusInfoSpans, TimeStampResp, TimeStampRespFields,
    TimeStampRespSpans, read_response,
};
pub use tst_info::{
    Accuracy, AccuracySpans, AfterAccuracy, AfterOrdering, ImprintSpans, TstFault, TstInfo,
    TstInfoSpans, tst_info_spans,
};
