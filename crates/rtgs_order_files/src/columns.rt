//! Columns of order files.
ghost use Rattle.std.specs.Prelude.{◌≡◌, ◌≢◌, ◌∷◌, ℕ, List, Some, None, IfSome, Option, option_map};
ghost use Rattle.csv.specs.Records.{fields_of};
ghost use Rattle.rtgs_order_files.specs.declared.columns.Columns.{Columns};
ghost use Rattle.rtgs_order_files.specs.OrderFile.{FitsColumns, due_fields, field_or_none, header};

use csv::ByteRecord;
use rtgs_money::BusinessDate;

/// The columns of an order file, which its header names.
#[derive(Clone, Copy, Debug, PartialEq, Eq)]
pub enum Columns {
    /// `reference,to,amount`
    WithoutDue,
    /// `reference,to,amount,due`
    WithDue,
}

impl Columns {
    /// The columns that these fields name, if they are a header of an order file.
    pub(crate) fn named(fields: &ByteRecord) -> Option<Columns>
        ensures value { IfSome result (λ columns. fields_of fields.now ≡ header columns) }
        ensures found { (columns : Columns) → fields_of fields.now ≡ header columns → result ≡ Some columns }
    {
        let (first, second, third, fourth) = split(fields)?;
        if first != b"reference".as_slice()
            || second != b"to".as_slice()
            || third != b"amount".as_slice()
        {
            return None;
        }
        match fourth {
            None => Some(Columns::WithoutDue),
            Some(fourth) if fourth == b"due".as_slice() => Some(Columns::WithDue),
            Some(_) => None,
        }
    }

    /// The due date, or that there is none, by the field after the amount. Nothing where the field is missing, is one
    /// too many, or spells no date.
    pub(crate) fn due(self, field: Option<&[u8]>) -> Option<Option<BusinessDate>>
        ensures value { IfSome result (λ due. FitsColumns self due
            × (field_or_none (option_map (λ f. f.now) field.entry) ≡ due_fields self due)) }
        ensures found { (due : Option ℕ) → FitsColumns self due
            → field_or_none (option_map (λ f. f.now) field.entry) ≡ due_fields self due → result ≡ Some due }
    {
        match (self, field) {
            (Columns::WithoutDue, None) => Some(None),
            (Columns::WithDue, Some(text)) if text.is_empty() => Some(None),
            (Columns::WithDue, Some(text)) => Some(Some(BusinessDate::read(text).ok()?)),
            (Columns::WithoutDue, Some(_)) | (Columns::WithDue, None) => None,
        }
    }
}

/// The first three fields of a record and the fourth, if it has one, where it has these alone.
#[tactic(auto, using(crate::proofs::Fields::missing, crate::proofs::Fields::up_to_four))]
pub(crate) fn split(fields: &ByteRecord) -> Option<(&[u8], &[u8], &[u8], Option<&[u8]>)>
    ensures value { IfSome result (λ (first, second, third, fourth). fields_of fields.now
        ≡ first.now ∷ second.now ∷ third.now ∷ field_or_none (option_map (λ f. f.now) fourth)) }
    ensures none { result ≡ None → (first second third : List ℕ) (fourth : Option (List ℕ))
        → fields_of fields.now ≢ first ∷ second ∷ third ∷ field_or_none fourth }
{
    if fields.len() > 4 {
        return None;
    }
    Some((
        fields.get(0)?,
        fields.get(1)?,
        fields.get(2)?,
        fields.get(3),
    ))
}
