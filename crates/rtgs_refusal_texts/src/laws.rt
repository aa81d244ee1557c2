//! Laws of what is said of refusals. Each function does nothing: its contract is the law.
ghost use Rattle.std.specs.Prelude.{◌≡◌, IsTrue, length, map, take};
ghost use Rattle.std.specs.List.{Any};
ghost use Rattle.rtgs_refusals.specs.Table.{entry_of};
ghost use Rattle.rtgs_refusals.specs.declared.refusal_kind.RefusalKind.{RefusalKind};
ghost use Rattle.rtgs_refusal_texts.specs.Texts.{head_of, rise, text_of};
ghost use Rattle.rtgs_refusal_texts.specs.declared.kinds.TheConstants.{KINDS};

/// What is said of a refusal begins with its number and its name.
pub fn texts_begin_with_numbers_and_names()
    ensures { (kind : RefusalKind) → take (length (head_of kind)) (text_of kind) ≡ head_of kind }
{}

/// Each refusal is listed.
pub fn each_is_listed()
    ensures { (kind : RefusalKind) → Any (λ listed. listed ≡ kind) KINDS }
{}

/// The numbers of those that are listed rise, so that each is listed once.
pub fn listed_numbers_rise()
    ensures { IsTrue (rise (map (λ kind. (entry_of kind).number) KINDS)) }
{}
