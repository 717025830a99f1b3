// What is proved of the definitions, each named by a contract.
ghost use Rattle.edges.specs.Laws.{FirstInFirstOut, FreeIsFree};

pub fn first_in_first_out()
    ensures { FirstInFirstOut }
{}

pub fn free_is_free()
    ensures { FreeIsFree }
{}
