// What holds of the tables of files, whatever the code does. None of these does anything when it is called.
ghost use Rattle.df_table.specs.{Completeness.{SafeTableIsRun}, Laws.{FindsOne, FirstIsEmpty, FoundIsTable, LeavingKeepsTable, RowsInOrder, TableIsOne}};

/// An image and a view have one table, and a file that was just made has the empty one.
pub fn a_table_is_one()
    ensures one { TableIsOne }
    ensures first { FirstIsEmpty }
{}

/// An opening finds one thing: the table, or the first place that shows that the file has none.
pub fn an_opening_finds_one_thing()
    ensures { FindsOne }
{}

/// What an opening finds is the table of the file.
pub fn what_is_found_is_the_table()
    ensures { FoundIsTable }
{}

/// The rows of a table that a checkpoint made durable stand in its blocks in their order.
pub fn rows_are_in_order()
    ensures { RowsInOrder }
{}

/// A session of which neither a prepare nor a step of a checkpoint comes, as one that reads alone, or makes no call, keeps the table of an open file, whichever program it is: nothing of it changes.
pub fn sessions_may_leave_the_table()
    ensures { LeavingKeepsTable }
{}

/// Over a file that may be opened and has a table, with boots left and a script whose lines are all lines of a table, a run in which no call failed executed all of it, or memory was wanting,
/// or ops or sequences are spent.
pub fn a_safe_table_is_served()
    ensures { SafeTableIsRun }
{}
