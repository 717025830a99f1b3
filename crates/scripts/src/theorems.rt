// What is proved of the definitions, each named by a contract.
ghost use Rattle.scripts.specs.Write.{CommandIs};

pub fn command_is()
    ensures { CommandIs }
{}
