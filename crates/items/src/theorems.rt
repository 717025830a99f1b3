// What is proved of the definitions, each named by a contract.
ghost use Rattle.items.specs.Journal.{GrowingKeeps, NotYetBefore, ReadWasWritten, WrittenIsRead};
ghost use Rattle.items.specs.Refusals.{NumbersTell};
ghost use Rattle.items.specs.Words.{WordsTell};

pub fn numbers_tell()
    ensures { NumbersTell }
{}

pub fn words_tell()
    ensures { WordsTell }
{}

pub fn written_is_read()
    ensures { WrittenIsRead }
{}

pub fn read_was_written()
    ensures { ReadWasWritten }
{}

pub fn growing_keeps()
    ensures { GrowingKeeps }
{}

pub fn not_yet_before()
    ensures { NotYetBefore }
{}
