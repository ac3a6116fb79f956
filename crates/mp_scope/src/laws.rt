// What holds of answers by tables: each function's contract is one law.
ghost use Rattle.std.specs.Prelude.{List};
ghost use Rattle.mp_tables.specs.declared.tables.Table.{Table};
ghost use Rattle.mp_scope.specs.Laws.{ClosedTablesAnswer, StandingStays, InnerNamesStay, OrderIsFree};

/// Every identity of a type and every path of a block in an answer stands, where those in the tables do. What stands
/// goes on to stand when tables are added.
pub fn answers_stand()
    ensures answers { ClosedTablesAnswer }
    ensures stays { (tables more : List Table) → StandingStays tables more }
{}

/// Tables that are made block by block answer as those of the whole program do: where a block and the blocks around it
/// were added, what a name is at a place of the block does not change when more are added.
pub fn blocks_answer_as_the_program()
    ensures { (tables more : List Table) → InnerNamesStay tables more }
{}

/// The tables of all blocks give the same answers in whatever order they were added.
pub fn order_is_free()
    ensures { OrderIsFree }
{}
