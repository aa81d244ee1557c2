//! What a keeper is asked, and what it tells, in words.
use super::super::scripts::records::{mark_if_any, order_if_any, posting_if_any};
use super::super::setting::{code, reference};
use rtgs_keeper::Keeper;
use rtgs_money::BusinessDate;
use std::alloc::Global;
use std::test::Fail;

fn date(text: &str) -> Result<BusinessDate, Fail> {
    Ok(BusinessDate::read(text.as_bytes())?)
}

fn number(text: &str) -> Result<u64, Fail> {
    match text.parse::<u64>() {
        Ok(number) => Ok(number),
        Err(_) => Err(Fail::from("no number")),
    }
}

// What the keeper says of a name, or of what comes next on a day after a number.
fn answer<K: Keeper>(alloc: Global, keeper: &mut K, question: &[&str]) -> Result<String, Fail> {
    match question {
        ["order", sender, name] => {
            order_if_any(
                alloc,
                &keeper.find_order(&code(sender)?, &reference(name)?)?,
            )
        }
        ["posting", name] => posting_if_any(alloc, &keeper.find_posting(&reference(name)?)?),
        ["posting", "of", day, "after", last] => {
            posting_if_any(alloc, &keeper.next_posting(date(day)?, number(last)?)?)
        }
        ["order", "of", day, "after", last] => {
            order_if_any(alloc, &keeper.next_order(date(day)?, number(last)?)?)
        }
        ["mark", "of", day, "after", last] => {
            mark_if_any(alloc, &keeper.next_mark(date(day)?, number(last)?)?)
        }
        _ => Err(Fail::from("no question")),
    }
}

// One line of a script: a question, and its answer.
fn answers_line<K: Keeper>(alloc: Global, keeper: &mut K, line: &str) -> Result<(), Fail> {
    let Some((question, expected)) = line.split_once(" = ") else {
        return Err(Fail::from("no question with its answer"));
    };
    let words: Vec<&str> = question.split_whitespace().collect(alloc)?;
    let answer = answer(alloc, keeper, words.as_slice())?;
    if answer.as_str() == expected {
        return Ok(());
    }
    let said = format!(in alloc; "{line}: answered {answer}")?;
    Err(Fail::from(said))
}

/// The keeper answers each question of the script, one a line, as the line says.
pub fn answers<K: Keeper>(alloc: Global, keeper: &mut K, script: &str) -> Result<(), Fail> {
    let mut asked = 0usize;
    for line in script.lines() {
        let line = line.trim();
        if !line.is_empty() {
            answers_line(alloc, keeper, line)?;
            asked = asked.saturating_add(1);
        }
    }
    if asked > 0 {
        Ok(())
    } else {
        Err(Fail::from("nothing was asked"))
    }
}
