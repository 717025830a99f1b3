// What is proved of the definitions, each named by a contract.
ghost use Rattle.text.specs.Name.{NameIs};
ghost use Rattle.text.specs.Laws.{NumberIs, WordsJoin, WordsAre, LinesJoin, LinesAre};

pub fn number_is()
    ensures { NumberIs }
{}

pub fn words_join()
    ensures { WordsJoin }
{}

pub fn lines_join()
    ensures { LinesJoin }
{}

pub fn name_is()
    ensures { NameIs }
{}

pub fn words_are()
    ensures { WordsAre }
{}

pub fn lines_are()
    ensures { LinesAre }
{}
