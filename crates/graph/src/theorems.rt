// What is proved of the definitions, each named by a contract.
ghost use Rattle.graph.specs.Applies.{LowestWins, ReadIsSaid};
ghost use Rattle.graph.specs.Verdict.{ReadIsProper};
ghost use Rattle.graph.specs.Write.{LineIs, WorkersHaveLines, WriteRead};

pub fn read_is_proper()
    ensures { ReadIsProper }
{}

pub fn line_is()
    ensures { LineIs }
{}

pub fn workers_have_lines()
    ensures { WorkersHaveLines }
{}

pub fn write_read()
    ensures { WriteRead }
{}

pub fn lowest_wins()
    ensures { LowestWins }
{}

pub fn read_is_said()
    ensures { ReadIsSaid }
{}
