ghost use Rattle.std.specs.Prelude.{IsTrue};
ghost use Rattle.wg_machine.specs.Fitting.{IsLawful};
ghost use Rattle.wg_machine.specs.GoodShape.{IsGoodShape};
ghost use Rattle.wg_code.specs.CodeMeaning.{code_made};
ghost use Rattle.wg_code.specs.Valid.{valid};
ghost use Rattle.wg_code.specs.declared.code.RawCode.{RawCode as Raw};

use wg_worlds::{
    completions_stay_lawful, each_request_has_its_grant, launches_begin_lawful,
    lawful_worlds_keep_laws, requests_stay_lawful, written_buffers_stay_lawful,
    written_inputs_stay_lawful, written_records_stay_lawful, written_words_keep_lengths,
};

/// Launches of valid code keep to the laws on every good shape.
pub fn code_keeps_laws()
    ensures { (code : Raw) → IsTrue (valid code) → IsGoodShape code.shape → IsLawful code.shape (code_made code) }
{
    launches_begin_lawful();
    requests_stay_lawful();
    each_request_has_its_grant();
    completions_stay_lawful();
    written_records_stay_lawful();
    written_inputs_stay_lawful();
    written_buffers_stay_lawful();
    written_words_keep_lengths();
    lawful_worlds_keep_laws();
}
