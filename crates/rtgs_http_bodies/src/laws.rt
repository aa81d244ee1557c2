//! What the bodies of replies look like, as laws over the definitions.
ghost use Rattle.std.specs.Prelude.{◌≡◌};
ghost use Rattle.serde_json.specs.Written.{compact_text};
ghost use Rattle.rtgs_book.specs.declared.answer.WholeAnswer.{WholeAnswer};
ghost use Rattle.rtgs_http_bodies.specs.Answers.{answer_data};
ghost use Rattle.rtgs_http_bodies.specs.Spellings.{answer_text};

/// The body of each answer, with what was resolved after the command, byte for byte.
pub fn answers_are_spelled()
    ensures { (answer : WholeAnswer) → compact_text (answer_data answer) ≡ answer_text answer }
{}
