//! The body of an order: its members, and the order that they spell.
ghost use Rattle.std.specs.Prelude.{◌≡◌, ◌≢◌, ℕ, List, Option, None, IfSome, codes, option_map};
ghost use Rattle.serde_json.specs.Data.{Members, member, string};
ghost use Rattle.serde_json.specs.View.{members_view, view};
ghost use Rattle.rtgs_http_requests.specs.OrderBody.{OrderValues, HasOrder, SpellsOrder, SpellsDue};
ghost use Rattle.rtgs_http_requests.specs.OrderBody.{perhaps_text};

use crate::http_fault::HttpFault;
use crate::members::{Left, are_all_taken, text_under, whole_under};
use crate::spelling::spell_date;
use rtgs_book::NewOrder;
use rtgs_money::{Amount, BusinessDate, Code, Lexical, Reference};
use serde_json::Value;
use std::marker::Model;

/// What the body of an order holds, each value not yet judged by its form.
#[derive(Drop)]
pub struct OrderBody<'a> {
    reference: &'a str,
    to: &'a str,
    amount: u64,
    due: Option<&'a str>,
}

impl<'a> Model for OrderBody<'a> {
    ghost use Rattle.std.specs.Prelude.{option_map};
    ghost use Rattle.rtgs_http_requests.specs.OrderBody.{OrderValues};

    ghost Value = { OrderValues };

    ghost view = { λ body. record {
      reference = body.reference.now;
      to = body.to.now;
      amount = body.amount;
      due = option_map (λ text. text.now) body.due;
    } };
}

impl<'a> OrderBody<'a> {
    /// What the value holds, if it is an object with exactly the keys of an order and members of their kinds. Members
    /// come in the order of their keys' bytes, so that a due date is the second.
    pub fn read(value: &'a Value) -> Option<OrderBody<'a>>
        ensures some { IfSome result (λ body. HasOrder body (view value.now)) }
        ensures none { result ≡ None → (values : OrderValues) → ¬ HasOrder values (view value.now) }
    {
        let mut members = value.as_object()?.iter();
        let amount = whole_under(&mut members, "amount")?;
        let (due, reference) = due_and_reference(&mut members)?;
        let to = text_under(&mut members, "to")?;
        if !are_all_taken(&mut members) {
            return None;
        }
        Some(OrderBody {
            reference,
            to,
            amount,
            due,
        })
    }

    /// The order that the values are, each judged by its form: the reference, the receiver, the amount, the due date.
    pub fn spell(&self) -> Result<NewOrder, HttpFault>
        ensures { SpellsOrder self.now result }
    {
        let reference = Reference::read(self.reference.as_bytes())?;
        let receiver = Code::read(self.to.as_bytes())?;
        let amount = Amount::from_cents(self.amount).ok_or(Lexical::BadAmount)?;
        let due = spell_due(self.due)?;
        Ok(NewOrder {
            reference,
            receiver,
            amount,
            due,
        })
    }
}

// The due date, if there is one, and the reference, which are the next members.
fn due_and_reference<'a>(members: &mut Left<'a>) -> Option<(Option<&'a str>, &'a str)>
    ensures some { IfSome result (λ (due, reference). members_view members.old
        ≡ perhaps_text (codes "due") (option_map (λ text. text.now) due)
        (member (codes "reference") (string reference.now) (members_view members.new))) }
    ensures none { result ≡ None → (due : Option (List ℕ)) (reference : List ℕ) (rest : Members)
        → members_view members.old
        ≢ perhaps_text (codes "due") due (member (codes "reference") (string reference) rest) }
{
    let (key, given) = members.next()?;
    let given = given.as_str()?;
    if key.as_str() == "reference" {
        return Some((None, given));
    }
    if key.as_str() != "due" {
        return None;
    }
    Some((Some(given), text_under(members, "reference")?))
}

/// The due date that this text is, and none where there is no text.
fn spell_due(text: Option<&str>) -> Result<Option<BusinessDate>, HttpFault>
    ensures { SpellsDue (option_map (λ t. t.now) text.entry) result }
{
    match text {
        Some(text) => Ok(Some(spell_date(text)?)),
        None => Ok(None),
    }
}
