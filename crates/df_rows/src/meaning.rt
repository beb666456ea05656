// What holds of rows, commands, lines and blocks, whatever the code does. None of these does anything when it is called.
ghost use Rattle.df_rows.specs.Laws.{BlocksAreTable, InTurn, OneCommand, OneRow, OneTable, OneTableLineMeaning, TablesFit};

/// 64 bytes are one row at most.
pub fn one_row()
    ensures { OneRow }
{}

/// A body is one command at most.
pub fn one_command()
    ensures { OneCommand }
{}

/// A line says one thing at most.
pub fn one_meaning()
    ensures { OneTableLineMeaning }
{}

/// Commands that are applied in two parts are applied as one list.
pub fn commands_in_turn()
    ensures { InTurn }
{}

/// The blocks of a table, read into an empty one of the same size, are the table.
pub fn blocks_are_table()
    ensures { BlocksAreTable }
{}

/// The bodies of blocks are one table at most.
pub fn one_table()
    ensures { OneTable }
{}

/// A table of as many rows as a layout allows has room in its blocks, and three of them leave four blocks.
pub fn tables_fit()
    ensures { TablesFit }
{}
