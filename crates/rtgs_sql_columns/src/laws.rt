//! Laws of the definitions. Each function does nothing: its contract is the law.
ghost use Rattle.rtgs_sql_columns.specs.OneTable.{OneTableAnswers};

/// A query of one table shows the columns that it names, of each row that its tests pass, in the order that it asks
/// for.
pub fn one_table_answers()
    ensures { OneTableAnswers }
{}
