// What is proved of the definitions, each named by a contract.
ghost use Rattle.model.specs.Graph.{ProperIs};

pub fn proper_is()
    ensures { ProperIs }
{}
