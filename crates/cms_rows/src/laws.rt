//! What signatures cover, as the fields of a message say it.
ghost use Rattle.std.specs.Prelude.{◌≡◌, ℕ, List, [], Option, option_map, option_to_list};
ghost use Rattle.std.specs.List.{flat_map};
ghost use Rattle.cms_message.specs.ContentInfo.{content};
ghost use Rattle.cms_message.specs.Cover.{covers};
ghost use Rattle.cms_message.specs.SignedData.{SignedData};
ghost use Rattle.cms_tsp.specs.Requests.{TimeStampReq};
ghost use Rattle.cms_tsp.specs.Responses.{TimeStampResp, token};
ghost use Rattle.cms_rows.specs.Covers.{covers_said, known_of};
ghost use Rattle.cms_rows.specs.Fields.{of_request, of_response, of_signed_data};

/// Does nothing. Its contract says: from the fields of a SignedData, taken one after another, follows
/// what each of its signatures and countersignatures covers, whatever detached content is given; and so
/// from the fields of a response what those of its token cover. The fields of a request speak of none.
pub fn fields_say_covers()
    ensures signed_data { (level : ℕ) (detached : Option (List ℕ)) (v : SignedData)
        → covers_said (known_of detached) (of_signed_data level v) ≡ covers v detached }
    ensures request { (level : ℕ) (detached : Option (List ℕ)) (v : TimeStampReq)
        → covers_said (known_of detached) (of_request level v) ≡ [] }
    ensures response { (level : ℕ) (detached : Option (List ℕ)) (v : TimeStampResp)
        → covers_said (known_of detached) (of_response level v)
        ≡ flat_map (λ s. covers s detached) (option_to_list (option_map content (token v))) }
{}
