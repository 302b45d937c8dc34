//! All fields of a message as JSON, as the package for Python writes them. tests/test_show_json.py asks
//! more of it.

use crate::asserts::assert_same;
use crate::listings::{EMPTY_FIELDS, TOKEN};
use crate::samples::{REQUEST, message_of};
use cms_canon::json_of_message;
use std::test::Fail;

const JSON_OF_EMPTY_FIELDS: &str = "\
{\"kind\": \"signed-data\", \"version\": 1, \"digest_algorithms\": [], \
\"content_type\": \"1.2.840.113549.1.7.1\", \"content\": \"616263\", \"certificates\": [], \
\"crls\": [], \"signers\": [{\"version\": 3, \"issuer\": null, \"serial_number\": null, \
\"subject_key_identifier\": \"\", \"digest_algorithm\": {\"oid\": \"1.2.3.4\", \
\"parameters\": null}, \"signed_attributes\": null, \
\"signature_algorithm\": {\"oid\": \"1.2.3.4\", \"parameters\": \"0500\"}, \
\"signature\": \"aabbcc\", \"unsigned_attributes\": [{\"oid\": \"1.2.840.113549.1.9.6\", \
\"values\": [], \"countersignatures\": [{\"version\": 3, \"issuer\": null, \
\"serial_number\": null, \"subject_key_identifier\": \"22\", \
\"digest_algorithm\": {\"oid\": \"1.2.3.4\", \"parameters\": null}, \
\"signed_attributes\": null, \"signature_algorithm\": {\"oid\": \"1.2.3.4\", \
\"parameters\": null}, \"signature\": \"bb\", \"unsigned_attributes\": null}, \
{\"version\": 3, \"issuer\": null, \"serial_number\": null, \
\"subject_key_identifier\": \"22\", \"digest_algorithm\": {\"oid\": \"1.2.3.4\", \
\"parameters\": null}, \"signed_attributes\": null, \
\"signature_algorithm\": {\"oid\": \"1.2.3.4\", \"parameters\": null}, \
\"signature\": \"bb\", \"unsigned_attributes\": null}]}]}], \"tst_info\": null}
";

const JSON_OF_TOKEN: &str = "\
{\"kind\": \"signed-data\", \"version\": 3, \"digest_algorithms\": [], \
\"content_type\": \"1.2.840.113549.1.9.16.1.4\", \
\"content\": \"303402010106028837300b300706052b0e03021a04000201ff181331393639313233313233353935392e3132355a3003800101020100\", \
\"certificates\": null, \"crls\": null, \"signers\": [], \"tst_info\": {\"version\": 1, \
\"policy\": \"2.999\", \"imprint\": {\"hash_algorithm\": {\"oid\": \"1.3.14.3.2.26\", \
\"parameters\": null}, \"hashed_message\": \"\"}, \"serial_number\": -1, \
\"gen_time_text\": \"19691231235959.125Z\", \
\"gen_time\": \"1969-12-31T23:59:59.125000+00:00\", \"accuracy\": {\"seconds\": null, \
\"millis\": 1, \"micros\": null}, \"ordering\": false, \"nonce\": 0, \"tsa\": null, \
\"extensions\": null}}
";

const JSON_OF_REQUEST: &str = "\
{\"kind\": \"request\", \"request\": {\"version\": 1, \
\"imprint\": {\"hash_algorithm\": {\"oid\": \"2.16.840.1.101.3.4.2.1\", \
\"parameters\": null}, \"hashed_message\": \"0102\"}, \"policy\": \"1.2.3.4\", \
\"nonce\": 7, \"cert_req\": true, \"extensions\": \"a0023000\"}}
";

#[test]
fn json_of_messages(rt: HostRuntime) -> Result<(), Fail> {
    for (input, wanted) in [
        (EMPTY_FIELDS, JSON_OF_EMPTY_FIELDS),
        (TOKEN, JSON_OF_TOKEN),
        (REQUEST, JSON_OF_REQUEST),
    ] {
        let json = json_of_message(rt.alloc(), &message_of(rt.alloc(), input)?)?;
        assert_same(&rt, json.as_str(), wanted, input);
    }
    Ok(())
}
